//! Reading names and small values from the front of bytes.
ghost use Rattle.std.specs.Prelude.{◌≡◌, ◌-◌, length, min};
ghost use Rattle.tp_names.specs.Bytes.{is_site_byte};
ghost use Rattle.tp_names.specs.Scanning.{Gives, GivesUnlessFull, scan_byte, scan_short, scan_long, scan_site, scan_letters, left_after_letters, scan_mark, scan_aaid, scan_branch, scan_maybe, scan_key, scan_addr, scan_outcome, scan_report, scan_count, scan_octets, scan_child, scan_flag, GivesCode, scan_site_within, scan_bytes, scan_skip, scan_this};

use crate::site_name::is_site_byte;
use crate::{
    Aaid, Addr, BadBytes, BranchId, Child, Mark, NodeKey, Octets, Outcome, ReadFault, Report,
    SiteName,
};
use std::alloc::Global;
use std::marker::Model;

// Promise 2.4, part 3
/// The bytes that are still to be read, which contracts see as that list.
///
/// Each call reads a value from their front. After a fault it is not said where the cursor stands.
#[derive(Drop)]
pub struct Cursor<'a> {
    rest: &'a [u8],
}

impl<'a> Model for Cursor<'a> {
    ghost use Rattle.std.specs.Prelude.{ℕ, List};

    ghost Value = { List ℕ };

    ghost view = { λ c. c.rest.now };
}

impl<'a> Cursor<'a> {
    /// A cursor at the first of these bytes.
    pub fn new(bytes: &'a [u8]) -> Cursor<'a>
        ensures { result ≡ bytes.now }
    {
        Cursor { rest: bytes }
    }

    /// How many bytes are left.
    pub fn left(&self) -> usize
        ensures { result ≡ length self.now }
    {
        self.rest.len()
    }

    /// A byte.
    #[tactic(auto, unfolding(crate::specs::Scanning::scan_byte))]
    pub fn byte(&mut self) -> Result<u8, BadBytes>
        ensures { Gives result self.new (scan_byte self.old) }
    {
        match self.rest {
            [byte, rest @ ..] => {
                self.rest = rest;
                Ok(*byte)
            }
            [] => Err(BadBytes { left: 0 }),
        }
    }

    /// A number of two bytes.
    #[tactic(auto, unfolding(crate::specs::Scanning::scan_short))]
    pub fn short(&mut self) -> Result<u16, BadBytes>
        ensures { Gives result self.new (scan_short self.old) }
    {
        match self.rest {
            [a, b, rest @ ..] => {
                self.rest = rest;
                Ok(u16::from_be_bytes([*a, *b]))
            }
            _ => Err(BadBytes { left: 0 }),
        }
    }

    /// A number of eight bytes.
    #[tactic(auto, unfolding(crate::specs::Scanning::scan_long))]
    pub fn long(&mut self) -> Result<u64, BadBytes>
        ensures { Gives result self.new (scan_long self.old) }
    {
        match self.rest {
            [a, b, c, d, e, f, g, h, rest @ ..] => {
                self.rest = rest;
                Ok(u64::from_be_bytes([*a, *b, *c, *d, *e, *f, *g, *h]))
            }
            _ => Err(BadBytes { left: 0 }),
        }
    }

    /// A mark.
    #[tactic(auto, unfolding(crate::specs::Scanning::scan_mark))]
    pub fn mark(&mut self) -> Result<Mark, BadBytes>
        ensures { Gives result self.new (scan_mark self.old) }
    {
        let boot = self.long()?;
        let node = self.short()?;
        let count = self.long()?;
        Ok(Mark { boot, node, count })
    }

    /// A site's name, after its length.
    #[tactic(auto, unfolding(crate::specs::Scanning::scan_site))]
    pub fn site(&mut self) -> Result<SiteName, BadBytes>
        ensures { Gives result self.new (scan_site self.old) }
    {
        match self.rest {
            [] => Err(BadBytes { left: 0 }),
            [len, rest @ ..] if 1 <= *len && *len <= 16 => {
                self.rest = rest;
                self.letters(usize::from(*len))
            }
            _ => Err(BadBytes {
                left: self.rest.len(),
            }),
        }
    }

    /// A site's name of a length from `low` to `high`, after its length.
    #[tactic(auto, unfolding(crate::specs::Scanning::scan_site_within))]
    pub fn site_within(&mut self, low: usize, high: usize) -> Result<SiteName, BadBytes>
        ensures { Gives result self.new (scan_site_within low high self.old) }
    {
        let left = self.left();
        let len = usize::from(self.code()?);
        if 1 <= len && len <= 16 && low <= len && len <= high {
            self.letters(len)
        } else {
            Err(BadBytes { left })
        }
    }

    fn letters(&mut self, len: usize) -> Result<SiteName, BadBytes>
        ensures { Gives result self.new (scan_letters len self.old) }
    {
        if len <= self.rest.len() {
            let (front, rest) = self.rest.split_at(len);
            if let Some(site) = SiteName::new(front) {
                self.rest = rest;
                return Ok(site);
            }
        }
        Err(BadBytes {
            left: left_after_letters(len, self.rest),
        })
    }

    /// The identifier of a tree.
    #[tactic(auto, unfolding(crate::specs::Scanning::scan_aaid))]
    pub fn aaid(&mut self) -> Result<Aaid, BadBytes>
        ensures { Gives result self.new (scan_aaid self.old) }
    {
        let owner = self.site()?;
        let mark = self.mark()?;
        Ok(Aaid { owner, mark })
    }

    /// The identifier of a branch.
    #[tactic(auto, unfolding(crate::specs::Scanning::scan_branch))]
    pub fn branch(&mut self) -> Result<BranchId, BadBytes>
        ensures { Gives result self.new (scan_branch self.old) }
    {
        let superior = self.site()?;
        let mark = self.mark()?;
        Ok(BranchId { superior, mark })
    }

    /// The address of a node.
    #[tactic(auto, unfolding(crate::specs::Scanning::scan_addr))]
    pub fn addr(&mut self) -> Result<Addr, BadBytes>
        ensures { Gives result self.new (scan_addr self.old) }
    {
        let site = self.site()?;
        let node = self.short()?;
        Ok(Addr { site, node })
    }

    /// Whether a value follows: 00 for no, 01 for yes.
    #[tactic(auto, unfolding(crate::specs::Scanning::scan_flag))]
    pub fn flag(&mut self) -> Result<bool, BadBytes>
        ensures { Gives result self.new (scan_flag self.old) }
    {
        match self.rest {
            [] => Err(BadBytes { left: 0 }),
            [0, rest @ ..] => {
                self.rest = rest;
                Ok(false)
            }
            [1, rest @ ..] => {
                self.rest = rest;
                Ok(true)
            }
            _ => Err(BadBytes {
                left: self.rest.len(),
            }),
        }
    }

    /// A mark, or none.
    #[tactic(auto, unfolding(crate::specs::Scanning::scan_flag))]
    pub fn maybe_mark(&mut self) -> Result<Option<Mark>, BadBytes>
        ensures { Gives result self.new (scan_maybe scan_mark self.old) }
    {
        if self.flag()? {
            Ok(Some(self.mark()?))
        } else {
            Ok(None)
        }
    }

    /// The identifier of a branch, or none.
    #[tactic(auto, unfolding(crate::specs::Scanning::scan_flag))]
    pub fn maybe_branch(&mut self) -> Result<Option<BranchId>, BadBytes>
        ensures { Gives result self.new (scan_maybe scan_branch self.old) }
    {
        if self.flag()? {
            Ok(Some(self.branch()?))
        } else {
            Ok(None)
        }
    }

    /// The address of a node, or none.
    #[tactic(auto, unfolding(crate::specs::Scanning::scan_flag))]
    pub fn maybe_addr(&mut self) -> Result<Option<Addr>, BadBytes>
        ensures { Gives result self.new (scan_maybe scan_addr self.old) }
    {
        if self.flag()? {
            Ok(Some(self.addr()?))
        } else {
            Ok(None)
        }
    }

    /// A node's place in a tree.
    #[tactic(auto, unfolding(crate::specs::Scanning::scan_key))]
    pub fn key(&mut self) -> Result<NodeKey, BadBytes>
        ensures { Gives result self.new (scan_key self.old) }
    {
        let aaid = self.aaid()?;
        let branch = self.maybe_branch()?;
        Ok(NodeKey { aaid, branch })
    }

    /// How a transaction ends.
    #[tactic(auto, unfolding(crate::specs::Scanning::scan_outcome))]
    pub fn outcome(&mut self) -> Result<Outcome, BadBytes>
        ensures { Gives result self.new (scan_outcome self.old) }
    {
        let left = self.left();
        match self.code()? {
            1 => Ok(Outcome::Commit),
            2 => Ok(Outcome::Rollback),
            _ => Err(BadBytes { left }),
        }
    }

    /// What is reported of a branch.
    #[tactic(auto, unfolding(crate::specs::Scanning::scan_report))]
    pub fn report(&mut self) -> Result<Report, BadBytes>
        ensures { Gives result self.new (scan_report self.old) }
    {
        let left = self.left();
        match self.code()? {
            0 => Ok(Report::None),
            1 => Ok(Report::Hazard),
            2 => Ok(Report::Mix),
            _ => Err(BadBytes { left }),
        }
    }

    /// A branch of a transaction.
    #[tactic(auto, unfolding(crate::specs::Scanning::scan_child))]
    pub fn child(&mut self) -> Result<Child, BadBytes>
        ensures { Gives result self.new (scan_child self.old) }
    {
        let addr = self.addr()?;
        let branch = self.branch()?;
        Ok(Child { addr, branch })
    }

    /// The code of a kind, which a table names.
    pub fn code(&mut self) -> Result<u8, BadBytes>
        ensures { GivesCode result self.old self.new }
    {
        match self.rest {
            [code, rest @ ..] => {
                self.rest = rest;
                Ok(*code)
            }
            [] => Err(BadBytes { left: 0 }),
        }
    }

    /// A count of two bytes that is at most so much.
    pub fn count(&mut self, most: u16) -> Result<u16, BadBytes>
        ensures { Gives result self.new (scan_count most self.old) }
    {
        match self.rest {
            [] => Err(BadBytes { left: 0 }),
            [high, ..] if u16::from(*high) * 256 > most => Err(BadBytes {
                left: self.rest.len(),
            }),
            [_] => Err(BadBytes { left: 0 }),
            [high, low, rest @ ..] => {
                let count = u16::from_be_bytes([*high, *low]);
                if count > most {
                    return Err(BadBytes {
                        left: rest.len() + 1,
                    });
                }
                self.rest = rest;
                Ok(count)
            }
        }
    }

    /// So many bytes as they stand.
    pub fn bytes(&mut self, alloc: Global, count: usize) -> Result<Octets, ReadFault>
        ensures { GivesUnlessFull result self.new (scan_bytes count self.old) }
    {
        if count > self.rest.len() {
            return Err(ReadFault::Bad(BadBytes { left: 0 }));
        }
        let (front, rest) = self.rest.split_at(count);
        let octets = Octets::from_slice(alloc, front)?;
        self.rest = rest;
        Ok(octets)
    }

    /// At most so many bytes, after their count.
    #[tactic(auto, unfolding(crate::specs::Scanning::scan_octets))]
    pub fn octets(&mut self, alloc: Global, most: u16) -> Result<Octets, ReadFault>
        ensures { GivesUnlessFull result self.new (scan_octets most self.old) }
    {
        let count = self.count(most)?;
        self.bytes(alloc, usize::from(count))
    }

    /// Passes over so many bytes.
    pub fn skip(&mut self, count: usize) -> Result<(), BadBytes>
        ensures { Gives result self.new (scan_skip count self.old) }
    {
        if count > self.rest.len() {
            return Err(BadBytes { left: 0 });
        }
        self.rest = &self.rest[count..];
        Ok(())
    }

    /// A byte that is this one.
    pub fn byte_that_is(&mut self, byte: u8) -> Result<(), BadBytes>
        ensures { Gives result self.new (scan_this byte self.old) }
    {
        match self.rest {
            [first, rest @ ..] if *first == byte => {
                self.rest = rest;
                Ok(())
            }
            _ => Err(BadBytes {
                left: self.rest.len(),
            }),
        }
    }

    /// A second cursor at the same place.
    pub fn fork(&self) -> Cursor<'a>
        ensures { result ≡ self.now }
    {
        Cursor { rest: self.rest }
    }
}

fn left_after_letters(len: usize, bytes: &[u8]) -> usize
    ensures { result ≡ left_after_letters len bytes.now }
{
    match bytes {
        [byte, rest @ ..] if len > 0 && is_site_byte(*byte) => left_after_letters(len - 1, rest),
        _ => bytes.len(),
    }
}
