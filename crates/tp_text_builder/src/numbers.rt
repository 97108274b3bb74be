//! Numbers and octets as digits, and letters for units.
ghost use Rattle.std.specs.Prelude.{◌≡◌, ◌==◌, ◌<◌, ◌≤◌, ◌+◌, ◌/◌, ◌%◌, ◌∷◌, [], if◌then◌else◌};
ghost use Rattle.tp_text_builder.specs.Written.{Adds};
ghost use Rattle.tp_model.specs.Words.{decimal, hex, hex_digit, octets_word, units_word};
ghost use Rattle.tp_model.specs.OutText.{numbers_word};

use crate::Text;
use tp_model::NodeNumbers;
use tp_names::Octets;

/// The two digits of each number below a hundred.
static PAIRS: [u8; 200] =
    *b"00010203040506070809101112131415161718192021222324252627282930313233343536373839404142434445464748495051525354555657585960616263646566676869707172737475767778798081828384858687888990919293949596979899";

impl Text {
    /// Puts a number in decimal.
    pub fn number(&mut self, n: u64)
        ensures { Adds self.old (decimal n) self.new }
    {
        put_number(n, self);
    }

    // Puts a byte and a number in decimal.
    #[inline(always)]
    pub(crate) fn led(&mut self, byte: u8, n: u64)
        ensures { Adds self.old (byte ∷ decimal n) self.new }
    {
        if n < 10 {
            self.put(&[byte, b'0' + n as u8]);
        } else {
            put_led(byte, n, self);
        }
    }

    /// Puts a space and a number in decimal.
    #[inline(always)]
    pub fn next_number(&mut self, n: u64)
        ensures { Adds self.old (32 ∷ decimal n) self.new }
    {
        self.led(b' ', n);
    }

    /// Puts a space and the number of a node, a frame or a member in decimal.
    #[inline(always)]
    pub fn next_short(&mut self, n: u16)
        ensures { Adds self.old (32 ∷ decimal n) self.new }
    {
        self.next_number(u64::from(n));
    }

    /// Puts numbers with commas between them.
    pub fn numbers(&mut self, numbers: &NodeNumbers)
        ensures { Adds self.old (numbers_word numbers.now) self.new }
    {
        put_numbers(numbers.as_slice(), self);
    }

    /// Puts two digits for an octet.
    pub fn octet(&mut self, octet: u8)
        ensures { Adds self.old (hex (octet ∷ [])) self.new }
    {
        self.put(&[hex_digit(octet / 16), hex_digit(octet % 16)]);
    }

    /// Puts two digits for each octet.
    pub fn hex(&mut self, octets: &Octets)
        ensures { Adds self.old (hex octets.now) self.new }
    {
        put_hex(octets.as_slice(), self);
    }

    /// Puts two digits for each octet, and `-` for none.
    pub fn octets(&mut self, octets: &Octets)
        ensures { Adds self.old (octets_word octets.now) self.new }
    {
        match octets.as_slice() {
            [] => self.byte(b'-'),
            some => put_hex(some, self),
        }
    }

    /// Puts a letter for each unit.
    pub fn units(&mut self, units: u8)
        ensures { Adds self.old (units_word units) self.new }
    {
        put_unit(units, 1, b's', self);
        put_unit(units, 2, b'p', self);
        put_unit(units, 4, b'h', self);
        put_unit(units, 8, b'c', self);
        put_unit(units, 16, b'k', self);
        put_unit(units, 32, b'u', self);
    }
}

// The digits before the last, and that one.
fn put_number(n: u64, text: &mut Text)
    ensures { Adds text.old (decimal n) text.new }
{
    if n < 10 {
        text.byte(b'0' + n as u8);
    } else {
        put_number(n / 10, text);
        text.byte(b'0' + (n % 10) as u8);
    }
}

// A byte and up to four digits at once, and of a longer number those before the last two first.
fn put_led(byte: u8, n: u64, text: &mut Text)
    requires { 10 ≤ n }
    ensures { Adds text.old (byte ∷ decimal n) text.new }
{
    let (tens, ones) = pair(n % 100);
    if n < 100 {
        text.put(&[byte, tens, ones]);
    } else if n < 1000 {
        text.put(&[byte, b'0' + (n / 100) as u8, tens, ones]);
    } else if n < 10_000 {
        let (thousands, hundreds) = pair(n / 100);
        text.put(&[byte, thousands, hundreds, tens, ones]);
    } else {
        put_led(byte, n / 100, text);
        text.put(&[tens, ones]);
    }
}

// The two digits of a number below a hundred.
#[inline(always)]
#[tactic(auto, using(crate::proofs::Decimals::pair_tens, crate::proofs::Decimals::pair_ones))]
fn pair(n: u64) -> (u8, u8)
    requires { n < 100 }
    ensures { result ≡ (48 + n / 10, 48 + n % 10) }
{
    let from = n as usize * 2;
    (PAIRS[from], PAIRS[from + 1])
}

fn put_numbers(numbers: &[u16], text: &mut Text)
    ensures { Adds text.old (numbers_word numbers.now) text.new }
{
    match numbers {
        [] => {}
        [last] => text.number(u64::from(*last)),
        [first, rest @ ..] => {
            text.number(u64::from(*first));
            text.byte(b',');
            put_numbers(rest, text);
        }
    }
}

fn hex_digit(n: u8) -> u8
    requires { n < 16 }
    ensures { result ≡ hex_digit n }
{
    if n < 10 { b'0' + n } else { b'a' + (n - 10) }
}

fn put_hex(octets: &[u8], text: &mut Text)
    ensures { Adds text.old (hex octets.now) text.new }
{
    for octet in octets {
        text.octet(*octet);
    }
}

// The letter of a unit, where it is one of these.
fn put_unit(units: u8, bit: u8, letter: u8, text: &mut Text)
    requires { 0 < bit }
    ensures { Adds text.old (if units / bit % 2 == 1 then letter ∷ [] else []) text.new }
{
    if units / bit % 2 == 1 {
        text.byte(letter);
    }
}
