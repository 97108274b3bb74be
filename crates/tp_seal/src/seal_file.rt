//! The seals of a log on a disk of their own, two in turn.
ghost use Rattle.std.specs.Prelude.{ℕ, List, ◌≡◌, ◌⊎◌, Some, None, IfOk, IfSome, OnErr, OnOk};
ghost use Rattle.tp_outside.specs.Story.{Story, seen, IsSettled};
ghost use Rattle.tp_seal.specs.Seals.{Holds, IsLeft, IsSealed};
ghost use Rattle.tp_seal.specs.declared.seal.Seal.{Seal};
ghost use Rattle.tp_seal.specs.declared.duty.Duty.{Duty};

use crate::broken::Broken;
use crate::duty::Duty;
use crate::fault::SealFault;
use crate::front::{front_of, has_records};
use crate::refusal::Refusal;
use crate::seal::Seal;
use crate::text::{read_text, text_of};
use std::alloc::Global;
use tp_names::SiteName;
use tp_outside::Disk;

/// Where the second seal begins: in another sector than the first, so that a write of the one leaves the other alone.
const SECOND: u64 = 512;

/// The seals of a log. The newer of the two counts.
#[derive(Drop)]
pub struct SealFile<D: Disk> {
    disk: D,
    number: u64,
    seal: Option<Seal>,
}

// No machine has memory for more.
const MOST_BYTES: u64 = 1 << 62;

// All the bytes of a disk, as a crash would leave them.
fn read_all<D: Disk>(alloc: Global, disk: &mut D) -> Result<Vec<u8>, SealFault>
    ensures bytes { IfOk result (λ file. (s : Story) → D.told disk.new ≡ Some s → file.items ≡ seen s) }
    ensures settled { OnOk result ((s : Story) → D.told disk.new ≡ Some s → IsSettled s) }
    ensures same { IsLeft (D.told disk.old) (D.told disk.new) }
{
    disk.sync()?;
    let len = disk.len()?;
    if len > MOST_BYTES {
        return Err(SealFault::NoMemory);
    }
    let mut file = vec![in alloc; 0u8; len as usize]?;
    let n = disk.read(0, &mut file)?;
    file.truncate(n);
    Ok(file)
}

// The newer seal of a disk, with its number. An empty disk has none yet.
fn newest<D: Disk>(alloc: Global, disk: &mut D) -> Result<(u64, Option<Seal>), SealFault> {
    let mut buf = [0u8; 1024];
    let n = disk.read(0, &mut buf)?;
    if n == 0 {
        return Ok((0, None));
    }
    let first = read_text(alloc, &buf[..n.min(512)])?;
    let second = read_text(alloc, &buf[n.min(512)..n])?;
    match newer(first, second) {
        Some((number, seal)) => Ok((number, Some(seal))),
        None => Err(SealFault::Foreign),
    }
}

// The one with the greater number.
fn newer(first: Option<(u64, Seal)>, second: Option<(u64, Seal)>) -> Option<(u64, Seal)> {
    let Some((one, _)) = &first else {
        return second;
    };
    let Some((other, _)) = &second else {
        return first;
    };
    if one > other { first } else { second }
}

impl<D: Disk> SealFile<D> {
    /// The seals on a disk, of which an empty one has none yet. With a fault the disk comes back.
    pub fn open(alloc: Global, disk: D) -> Result<SealFile<D>, (D, SealFault)> {
        let mut disk = disk;
        match newest(alloc, &mut disk) {
            Ok((number, seal)) => Ok(SealFile { disk, number, seal }),
            Err(fault) => Err((disk, fault)),
        }
    }

    /// The newer seal.
    pub fn seal(&self) -> Option<Seal>
        ensures { result ≡ self.now.seal }
    {
        self.seal
    }

    /// The disk of the seals.
    pub fn lent(&self) -> &D {
        &self.disk
    }

    /// Puts a seal in the place of the older one, and waits until it is on the disk.
    pub fn put(&mut self, alloc: Global, seal: Seal) -> Result<(), SealFault>
        ensures ok { OnOk result (self.new.seal ≡ Some seal) }
        ensures same { OnErr result (self.new.seal ≡ self.old.seal) }
    {
        let number = self.number.saturating_add(1);
        let text = text_of(alloc, number, &seal)?;
        let at = if number % 2 == 0 { 0 } else { SECOND };
        self.disk.write_at(at, text.as_slice())?;
        self.disk.sync()?;
        self.number = number;
        self.seal = Some(seal);
        Ok(())
    }

    /// What the newer seal finds in the bytes of a log, and, where a name is given, whether the log is that site's.
    pub fn finds(&self, name: Option<SiteName>, log: &[u8]) -> Option<Broken>
        ensures well { result ≡ None → IfSome self.now.seal (λ seal. Holds seal log.now) }
        ensures named { result ≡ None → (n : List ℕ) → name ≡ Some n → IfSome self.now.seal (λ seal. seal.name ≡ n) }
    {
        let Some(seal) = self.seal else {
            return None;
        };
        if let Some(name) = name {
            if name.bytes() != seal.name.bytes() {
                return Some(Broken::Name);
            }
        }
        seal.finds(log)
    }

    // Seals a log of these bytes, unless as many are sealed already.
    fn put_longer(&mut self, alloc: Global, name: SiteName, log: &[u8]) -> Result<(), SealFault>
        ensures { OnOk result (IfSome self.new.seal (λ seal. Holds seal log.now) ⊎ (self.new.seal ≡ self.old.seal)) }
    {
        match self.seal {
            Some(old) if old.len >= front_of(log) as u64 => Ok(()),
            _ => self.put(alloc, Seal::of(name, log)),
        }
    }

    // Puts a seal of nothing, where there is one.
    fn put_nothing(&mut self, alloc: Global) -> Result<(), SealFault> {
        match self.seal {
            Some(seal) => self.put(alloc, Seal::of_nothing(seal.name)),
            None => Ok(()),
        }
    }

    /// Lets a command at the log that another disk holds, unless the log is not the one that was sealed, or is to be made anew and has
    /// records. The log is synced, so that no seal is of bytes which a crash takes away. One that is to grow is sealed as it is; of one
    /// that is to be shortened a seal of nothing is put. Where it is not let at it nothing is said of the seals: they are thrown away.
    pub fn admit<L: Disk>(&mut self, alloc: Global, duty: Duty, log: &mut L) -> Result<(), Refusal>
        // Promise 25.3 [clauses holds named settled same]: Where there is a seal, a command is let
        //   at a log only where the log begins with what was sealed and, where the command adds
        //   records, the seal is of the site of that name; a crash then leaves the log as it is. In
        //   every case the log is as it was
        ensures holds { OnOk result ((s : Story) → L.told log.new ≡ Some s → IfSome self.old.seal (λ seal. Holds seal (seen s))) }
        ensures named { OnOk result ((n : List ℕ) → duty ≡ Duty.Grow n → IfSome self.old.seal (λ seal. seal.name ≡ n)) }
        ensures settled { OnOk result ((s : Story) → L.told log.new ≡ Some s → IsSettled s) }
        ensures same { IsLeft (L.told log.old) (L.told log.new) }
    {
        let bytes = read_all(alloc, log)?;
        let name = match duty {
            Duty::Grow(name) => Some(name),
            _ => None,
        };
        if let Some(broken) = self.finds(name, &bytes) {
            return Err(Refusal::Broken(broken));
        }
        match duty {
            Duty::Read => Ok(()),
            Duty::Grow(name) => Ok(self.put_longer(alloc, name, &bytes)?),
            Duty::Make if has_records(&bytes) => Err(Refusal::Records),
            Duty::Shorten | Duty::Make => Ok(self.put_nothing(alloc)?),
        }
    }

    /// Seals the log that another disk holds, after a command that did this to it. A log that was made or shortened has the name
    /// that it had. A seal is never put in the place of one of more bytes. After a fault nothing is said of the seals: they are
    /// thrown away.
    pub fn renew<L: Disk>(
        &mut self,
        alloc: Global,
        duty: Duty,
        log: &mut L,
    ) -> Result<(), SealFault>
        // Promise 25.4: Once seals were renewed after a command, the newer is one of the log as a
        //   crash would leave it, or is the one from before
        ensures ok { OnOk result ((s : Story) → L.told log.new ≡ Some s → IsSealed self.old.seal self.new.seal s) }
        ensures same { IsLeft (L.told log.old) (L.told log.new) }
    {
        let name = match (duty, self.seal) {
            (Duty::Grow(name), _) => name,
            (Duty::Shorten | Duty::Make, Some(seal)) => seal.name,
            _ => return Ok(()),
        };
        let bytes = read_all(alloc, log)?;
        self.put_longer(alloc, name, &bytes)
    }
}
