//! A text: bytes, and whether memory was wanting.
ghost use Rattle.std.specs.Prelude.{◌≡◌, ◌∷◌, [], Some, OnOk, OnErr};
ghost use Rattle.tp_text_builder.specs.Written.{Adds, text_after};

use std::alloc::{AllocError, Global};
use std::marker::Model;
use std::mem;
use tp_names::{NoMemory, Octets};

// Promise 2.41, part 2
/// A text after bytes that were there before. Contracts see it as those bytes and the whole text, or none once memory was wanting.
#[derive(Drop)]
pub struct Text {
    bytes: Vec<u8>,
    before: usize,
    is_wanting: bool,
}

impl Model for Text {
    ghost use Rattle.std.specs.Prelude.{◌≤◌, length};
    ghost use Rattle.tp_text_builder.specs.Written.{Written, written};

    ghost Value = { Written };

    ghost view = { λ t. written t.bytes.items t.before t.is_wanting };

    ghost invariant = { λ t. t.before ≤ length t.bytes.items };
}

impl Text {
    /// The text after these bytes, which are taken until it is done.
    #[inline(always)]
    pub fn after(alloc: Global, out: &mut Octets) -> Text
        ensures { result ≡ text_after out.old }
    {
        let bytes = mem::replace(out, Octets::new(alloc)).into_vec();
        Text {
            before: bytes.len(),
            bytes,
            is_wanting: false,
        }
    }

    /// Puts bytes at the end.
    #[inline(always)]
    pub fn put(&mut self, bytes: &[u8])
        ensures { Adds self.old bytes.now self.new }
    {
        match self.bytes.extend_from_slice(bytes) {
            Ok(()) => {}
            Err(AllocError) => self.is_wanting = true,
        }
    }

    /// Puts a word at the end.
    #[inline(always)]
    pub fn word(&mut self, word: &str)
        ensures { Adds self.old word.now self.new }
    {
        self.put(word.as_bytes());
    }

    /// Puts a byte at the end.
    #[inline(always)]
    pub fn byte(&mut self, byte: u8)
        ensures { Adds self.old (byte ∷ []) self.new }
    {
        if self.bytes.len() < self.bytes.capacity() {
            self.bytes.push_reserved(byte);
        } else {
            self.put(&[byte]);
        }
    }

    /// Puts a space at the end, which parts two words.
    #[inline(always)]
    pub fn space(&mut self)
        ensures { Adds self.old (32 ∷ []) self.new }
    {
        self.byte(b' ');
    }

    // Promise 2.41: A text that is written piece by piece is whole in the end, or memory was wanting, which is told, and the
    //   bytes before it are as they were
    /// Gives the bytes back with the text after them, or as they were where memory was wanting.
    #[inline(always)]
    pub fn done(self, out: &mut Octets) -> Result<(), NoMemory>
        ensures ok { OnOk result (Some out.new ≡ self.whole) }
        ensures err { OnErr result (out.new ≡ self.before) }
    {
        let Text {
            mut bytes,
            before,
            is_wanting,
        } = self;
        if is_wanting {
            bytes.truncate(before);
        }
        *out = Octets::from_vec(bytes);
        if is_wanting { Err(NoMemory) } else { Ok(()) }
    }
}
