//! The logs of an audit, as their frames come.
ghost use Rattle.std.specs.Prelude.{◌≡◌, ◌≤◌};

use crate::adding::add_log;
use crate::frame::{Frame, read_frame};
use std::alloc::Global;
use tp_audit::Audit;
use tp_model::{What, Why};
use tp_names::{Octets, SiteName};
use tp_streams::Stop;

/// The most sites.
const MOST_SITES: u16 = 16;

/// The most bytes of all logs.
const MOST_BYTES: u64 = 268_435_456;

/// A log that is open: its site, and its bytes so far.
#[derive(Drop)]
pub(crate) struct OpenLog {
    site: SiteName,
    bytes: Octets,
}

/// The logs that were read whole, the one that is still open, how many sites came, and how many bytes for all of them.
#[derive(Drop)]
pub(crate) struct Hearing {
    audit: Audit,
    pending: Option<OpenLog>,
    sites: u16,
    size: u64,
    ghost few: { sites ≤ 16 },
    ghost small: { size ≤ 268435456 },
}

impl Hearing {
    ghost use Rattle.std.specs.Prelude.{ℕ, ◌+◌, ◌<◌, length, IfErr, OnOk};
    ghost use Rattle.tp_audit_tool.specs.AuditTranscript.{Progress, nothing_heard, closed, opens_at, goes_on_at, heard_at};
    ghost use Rattle.tp_audit_tool.specs.Audited.{IsOfInput};
    ghost use Rattle.tp_audit_tool.specs.Hearing.{IsAt, Reaches, room_of};

    /// Nothing came.
    pub(crate) fn new(alloc: Global) -> Hearing
        ensures { IsAt nothing_heard result }
    {
        Hearing {
            audit: Audit::new(alloc),
            pending: None,
            sites: 0,
            size: 0,
        }
    }

    /// The audit of the logs that were read whole.
    pub(crate) fn audit(&self) -> &Audit
        ensures { result.now ≡ self.now.audit }
    {
        &self.audit
    }

    /// Takes the body of the frame with that number.
    pub(crate) fn take(&mut self, alloc: Global, body: &[u8], at: u64) -> Result<(), Stop>
        ensures reaches { (p : Progress) → IsAt p self.old → Reaches (heard_at at p body.now) result self.new }
        ensures kinds { IfErr result (IsOfInput at) }
        ensures less { OnOk result (room_of self.new < room_of self.old) }
    {
        let Some(frame) = read_frame(body) else {
            return Err(Stop::BadInput { at, why: Why::Body });
        };
        match &frame {
            Frame::Opens(site) => self.open(alloc, site, at),
            Frame::GoesOn(bytes) => self.go_on(alloc, bytes, at),
        }
    }

    /// The log that is open is at its end: it is read, and added to the others.
    pub(crate) fn close(&mut self, alloc: Global) -> Result<(), Stop>
        ensures reaches { (p : Progress) → IsAt p self.old → Reaches (closed p) result self.new }
        ensures kinds { (number : ℕ) → IfErr result (IsOfInput number) }
        ensures same { room_of self.new ≡ room_of self.old }
    {
        let Some(log) = self.pending.take() else {
            return Ok(());
        };
        let OpenLog { site, bytes } = log;
        add_log(alloc, &mut self.audit, &site, bytes)
    }

    // The log of a site opens, and the one before it is at its end.
    fn open(&mut self, alloc: Global, site: &SiteName, at: u64) -> Result<(), Stop>
        ensures reaches { (p : Progress) → IsAt p self.old → Reaches (opens_at at p site.now) result self.new }
        ensures kinds { IfErr result (IsOfInput at) }
        ensures less { OnOk result (room_of self.new < room_of self.old) }
    {
        self.close(alloc)?;
        if self.audit.contains(site) {
            return Err(Stop::BadInput { at, why: Why::Name });
        }
        if self.sites == MOST_SITES {
            return Err(Stop::Limit {
                what: What::Sites,
                at,
            });
        }
        self.sites += 1;
        self.pending = Some(OpenLog {
            site: *site,
            bytes: Octets::new(alloc),
        });
        Ok(())
    }

    // The log that is open goes on.
    fn go_on(&mut self, alloc: Global, bytes: &[u8], at: u64) -> Result<(), Stop>
        ensures reaches { (p : Progress) → IsAt p self.old → Reaches (goes_on_at at p bytes.now) result self.new }
        ensures kinds { IfErr result (IsOfInput at) }
        ensures less { OnOk result (room_of self.new + length bytes.now ≡ room_of self.old) }
    {
        let Some(mut log) = self.pending.take() else {
            return Err(Stop::BadInput { at, why: Why::Body });
        };
        if bytes.len() as u64 > MOST_BYTES - self.size {
            return Err(Stop::Limit {
                what: What::Log,
                at,
            });
        }
        log.bytes.extend_from_slice(alloc, bytes)?;
        self.pending = Some(log);
        self.size += bytes.len() as u64;
        Ok(())
    }
}
