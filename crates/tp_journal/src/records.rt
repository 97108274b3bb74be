//! The records of a log as they are read and forced, with their places.
ghost use Rattle.std.specs.Prelude.{◌≡◌, ◌<◌, true, false, [], ◌∷◌, ◌++◌, ◌^◌, ℕ, List, length, IfOk, OnOk, OnErr, slice_index_or, vec_len, vec_capacity};
ghost use Rattle.std.specs.List.{AllByRecursion};
ghost use Rattle.tp_journal.specs.Records.{HasText, ReadsText, version_of, text, is_mark, bodies_of, marks, wide_of, recs_of, placed, AreRecords};
ghost use Rattle.tp_journal.specs.Log.{IsBody, counted, blocks, place_behind};
ghost use Rattle.tp_journal.specs.Stops.{body_piece};

use crate::lengths::text_len;
use crate::shelf::Shelf;
use std::alloc::{AllocError, Global};
use std::marker::Model;
use tp_logrec::{LogRec, LogVersion, decode_log, encode_log};
use tp_names::{NoMemory, Octets, RecordFault};

/// The body with which a log of version 2 begins, and which is no record.
pub const MARK: [u8; 2] = [7, 2];

/// Records with their places, in the order in which they stand.
#[derive(Drop)]
pub struct Records {
    recs: Vec<LogRec>,
    places: Vec<u64>,
    wide: bool,
}

impl Model for Records {
    ghost use Rattle.std.specs.Prelude.{ℕ, List};
    ghost use Rattle.tp_journal.specs.Records.{bodies_of, IsPlaced};

    ghost Value = { List (List ℕ) };

    ghost view = { λ r. bodies_of r.wide r.recs.items };

    ghost invariant = { λ r. IsPlaced r.wide r.recs.items r.places.items };
}

fn is_mark(body: &[u8]) -> bool
    ensures { result ≡ is_mark body.now }
{
    body == MARK.as_slice()
}

// Does a log of version 2 begin with this body, after these records?
fn is_first_mark(wide: bool, recs: &[LogRec], body: &[u8]) -> bool
    ensures yes { result ≡ true → (wide ≡ false) × (length recs.now ≡ 0) × (is_mark body.now ≡ true) }
    ensures no { result ≡ false → wide ≡ false → length recs.now ≡ 0 → is_mark body.now ≡ false }
{
    !wide && recs.is_empty() && is_mark(body)
}

fn version(wide: bool) -> LogVersion
    ensures { result ≡ version_of wide }
{
    if wide {
        LogVersion::Two
    } else {
        LogVersion::One
    }
}

/// The record of which these bytes are the whole text, in the version told.
fn read_text(alloc: Global, wide: bool, body: &[u8]) -> Result<Option<LogRec>, NoMemory>
    ensures { IfOk result (ReadsText wide body.now) }
{
    match decode_log(alloc, version(wide), body) {
        Ok((rec, len)) if len == body.len() => Ok(Some(rec)),
        Ok(_) => Ok(None),
        Err(fault) => match fault {
            RecordFault::BadRecord { .. } => Ok(None),
            RecordFault::NoMemory => Err(NoMemory),
        },
    }
}

// The text of a record in the version told.
fn write_text(alloc: Global, wide: bool, rec: &LogRec) -> Result<Octets, NoMemory>
    requires { HasText wide rec.now }
    ensures { IfOk result (λ body. body ≡ text wide rec.now) }
{
    let mut body = Octets::from_vec(Vec::with_capacity(alloc, text_len(wide, rec))?);
    encode_log(alloc, version(wide), rec, &mut body)?;
    Ok(body)
}

/// What is written for a record after the closing gate, in the place of these octets: the length of its text, which is
/// told, the text, and a closed gate. Without memory the octets may be any: they are written anew before each use.
#[inline(always)]
#[tactic(auto, using(crate::proofs::Sizes::text_is_body))]
pub fn write_piece(
    alloc: Global,
    wide: bool,
    rec: &LogRec,
    len: usize,
    piece: &mut Octets,
) -> Result<(), NoMemory>
    requires text { HasText wide rec.now }
    requires len { len ≡ length (text wide rec.now) }
    ensures { OnOk result (piece.new ≡ body_piece (text wide rec.now)) }
{
    piece.truncate(0);
    piece.extend_from_slice(alloc, &[(len / 256) as u8, (len % 256) as u8])?;
    encode_log(alloc, version(wide), rec, piece)?;
    piece.push(alloc, 0)
}

// The bodies of a log with no records, each after an open gate: the mark, where it is of version 2.
fn marks_text(alloc: Global, wide: bool) -> Result<Vec<u8>, NoMemory>
    ensures text { IfOk result (λ text. text.items ≡ blocks (marks wide)) }
{
    let mut text = Vec::new(alloc);
    if wide {
        text.extend_from_slice(&[1, 0, 2, 7, 2])?;
    }
    Ok(text)
}

// Puts an open gate and a body at the end of a text.
fn put_body(text: &mut Vec<u8>, body: &[u8]) -> Result<(), NoMemory>
    requires { IsBody body.now }
    ensures { OnOk result (text.new.items ≡ text.old.items ++ (1 ∷ counted body.now)) }
{
    let len = body.len();
    text.extend_from_slice(&[1, (len / 256) as u8, (len % 256) as u8])?;
    text.extend_from_slice(body)?;
    Ok(())
}

// No machine has memory for more.
const LONGEST: usize = 1 << 60;

/// Records as a log of their own: on a shelf, with their places, and as the text that stands after the head of the
/// file, with a closed gate.
pub fn generation(
    alloc: Global,
    wide: bool,
    list: &[LogRec],
) -> Result<(Records, Vec<u8>), NoMemory>
    requires { AllByRecursion (HasText wide) list.now }
    ensures bodies { IfOk result (λ made. made.0 ≡ bodies_of wide list.now) }
    ensures text { IfOk result (λ made. made.1.items ≡ blocks (bodies_of wide list.now) ++ 0 ∷ []) }
    ensures few { IfOk result (λ made. length made.1.items < 2 ^ 61) }
{
    let mut records = Records::with(alloc, wide);
    let mut text = marks_text(alloc, wide)?;
    for rec in list {
        if text.len() > LONGEST {
            return Err(NoMemory);
        }
        let body = write_text(alloc, wide, rec)?;
        let place = 5 + text.len() as u64;
        records.put(place, body.as_slice(), rec)?;
        put_body(&mut text, body.as_slice())?;
    }
    if text.len() > LONGEST {
        return Err(NoMemory);
    }
    text.extend_from_slice(&[0])?;
    Ok((records, text))
}

// A list of fewer items than this grows to four times its length, and a longer one as `Vec` has it grow.
const FEW: usize = 1 << 12;

// Makes room for one more item. In large steps few items are moved as a list grows.
fn make_room<T>(list: &mut Vec<T>) -> Result<(), AllocError>
    ensures items { list.new.items ≡ list.old.items }
    ensures room { OnOk result (vec_len list.new < vec_capacity list.new) }
{
    let count = list.len();
    if count == list.capacity() {
        let more = if count < FEW { 3 * count + 10 } else { 1 };
        list.reserve(more)?;
    }
    Ok(())
}

impl Records {
    /// No records, of version 1 until the mark is read.
    pub fn new(alloc: Global) -> Records
        ensures { result ≡ [] }
    {
        Records {
            recs: Vec::new(alloc),
            places: Vec::new(alloc),
            wide: false,
        }
    }

    /// No records, in the version told.
    fn with(alloc: Global, wide: bool) -> Records
        ensures { result ≡ bodies_of wide [] }
    {
        Records {
            recs: Vec::new(alloc),
            places: Vec::new(alloc),
            wide,
        }
    }

    /// Puts a record at the end, with its place.
    fn add(&mut self, place: u64, rec: LogRec) -> Result<(), AllocError>
        requires text { HasText (wide_of self.old) rec }
        requires place { place ≡ place_behind self.old }
        ensures ok { OnOk result (self.new ≡ self.old ++ text (wide_of self.old) rec ∷ []) }
        ensures err { OnErr result (self.new ≡ self.old) }
    {
        self.places.reserve(1)?;
        self.recs.push(rec)?;
        self.places.push_reserved(place);
        Ok(())
    }

    /// Are the texts of version 2?
    pub fn wide(&self) -> bool
        ensures { result ≡ wide_of self.now }
    {
        self.wide
    }

    /// The records, in order.
    pub fn list(&self) -> &[LogRec]
        ensures is { result.now ≡ recs_of self.now }
        ensures records { AreRecords self.now }
    {
        self.recs.as_slice()
    }

    /// One of the records.
    pub fn rec(&self, i: usize) -> &LogRec
        requires { i < length (recs_of self.now) }
        ensures { (d : _) → result.now ≡ (slice_index_or (placed (wide_of self.now) (recs_of self.now)) i d).rec }
    {
        &self.recs[i]
    }

    /// The place of a record's gate.
    pub fn place(&self, i: usize) -> u64
        requires { i < length (recs_of self.now) }
        ensures { (d : _) → result ≡ (slice_index_or (placed (wide_of self.now) (recs_of self.now)) i d).place }
    {
        self.places[i]
    }
}

impl Shelf for Records {
    ghost use Rattle.tp_journal.specs.Records.{record_body, says_record};

    ghost accepts = { record_body };

    type Item = LogRec;

    ghost says = { says_record };

    ghost bodies = { λ r. r };

    fn take(&mut self, place: u64, body: &[u8]) -> Result<bool, AllocError> {
        if is_first_mark(self.wide, &self.recs, body) {
            self.wide = true;
            return Ok(true);
        }
        let alloc = *self.recs.allocator();
        let Ok(found) = read_text(alloc, self.wide, body) else {
            return Err(AllocError);
        };
        let Some(rec) = found else {
            return Ok(false);
        };
        self.add(place, rec)?;
        Ok(true)
    }

    fn put(&mut self, place: u64, _body: &[u8], rec: &LogRec) -> Result<(), AllocError> {
        let alloc = *self.recs.allocator();
        make_room(&mut self.places)?;
        make_room(&mut self.recs)?;
        let Ok(copy) = rec.copy(alloc) else {
            return Err(AllocError);
        };
        self.recs.push_reserved(copy);
        self.places.push_reserved(place);
        Ok(())
    }

    fn forget(&mut self) {
        if self.recs.is_empty() {
            self.wide = false;
            return;
        }
        let kept = self.recs.len() - 1;
        self.recs.truncate(kept);
        self.places.truncate(kept);
    }
}
