//! The verdict over a recording.
ghost use Rattle.std.specs.Prelude.{◌≡◌, ◌≤◌, ℕ, List, Some, IfOk, IfErr};
ghost use Rattle.tp_unite.specs.Verdicts.{Hears, Judges, Stops, Closes};
ghost use Rattle.tp_unite.specs.declared.verdict.Heard.{Heard as TheHeard};

use crate::recording::{HearFault, Recording};
use std::alloc::Global;
use tp_model::OutLines;
use tp_names::NoMemory;
use tp_outside::Source;
use tp_streams::{Intake, Stop};
use tp_weaving::{Woven, weave};

/// Whether the processes of a recording are a deployment.
#[derive(Clone, Copy, Debug, PartialEq, Eq)]
pub enum Verdict {
    /// They are.
    Deployment,
    /// The event in that frame is of a node that has no place, or declares it under another superior, or names a node that has no
    /// place.
    NotPlaced { at: u64 },
    /// The record that is taken in that frame was said by nobody before.
    NotCarried { at: u64 },
}

/// A recording that was read.
#[derive(Drop)]
pub(crate) enum Heard {
    /// All of it.
    Whole(Recording),
    /// Up to an event of a node that is not placed.
    NotPlaced { at: u64 },
}

// Reads all frames, and plays the sites.
fn hear<S: Source>(alloc: Global, source: &mut S) -> Result<Heard, Stop>
    ensures hears { IfOk result (λ heard. (bytes : List ℕ) → S.left source.old ≡ Some bytes → Hears bytes heard) }
    ensures stops { IfErr result (Stops (S.left source.old) (S.fault_count source.old) (S.fault_count source.new)) }
    ensures kept { S.fault_count source.old ≤ S.fault_count source.new }
{
    let mut intake = Intake::new(alloc);
    let mut recording = Recording::new(alloc);
    'frames: for _ in 0..u64::MAX {
        let Some(body) = intake.next(alloc, source)? else {
            return Ok(Heard::Whole(recording));
        };
        let at = intake.at();
        match recording.take(alloc, body.as_slice(), at) {
            Ok(()) => {}
            Err(HearFault::NotPlaced) => return Ok(Heard::NotPlaced { at }),
            Err(HearFault::Stop(stop)) => return Err(stop),
        }
    }
    Err(Stop::NoMemory)
}

// The verdict over a recording that was read whole, and the closing lines of a deployment.
fn judge(alloc: Global, recording: Recording, lines: &mut OutLines) -> Result<Verdict, NoMemory>
    ensures closes { IfOk result (λ verdict. (bytes : List ℕ) → Hears bytes (TheHeard.Whole recording) → Closes bytes verdict lines.old lines.new) }
    ensures judges { IfOk result (λ verdict. (bytes : List ℕ) → Hears bytes (TheHeard.Whole recording) → Judges bytes verdict) }
{
    let (mut lanes, trees) = recording.close()?;
    match weave(alloc, lanes.as_mut_slice())? {
        Woven::Whole => {
            *lines = trees.closing(alloc)?;
            Ok(Verdict::Deployment)
        }
        Woven::Waits { at } => Ok(Verdict::NotCarried { at }),
    }
}

/// Reads the frames of a recording, and tells whether its processes are a deployment. Of a deployment the lines are those that close
/// the transcripts of the runs that it is: one for each tree, in the order of the places of the nodes that began them, and of each node
/// in the order in which it began them. After another verdict the lines stay as they were. Where the source stands then is not said:
/// it is thrown away, and so are the lines where there is no verdict.
pub fn unite<S: Source>(
    alloc: Global,
    source: &mut S,
    lines: &mut OutLines,
) -> Result<Verdict, Stop>
    // Promise 22.20 [tp_unite/specs/Verdicts.antt]: Where the verdict over a recording is that it
    //   is a deployment, the bytes are whole frames, the places are arranged as is asked above, no
    //   site has two records, and there is an order of all deeds, in which those of each site stand
    //   as they were recorded, that is a deployment; so what is said above of deployments holds of
    //   it
    // Promise 22.25 [tp_unite/specs/Verdicts.antt]: **Where it is that an event is not placed, or a
    //   record not carried, no order of all deeds, in which those of each site stand as they were
    //   recorded, is a deployment.** Not placed: the event in the frame that is named happens at a
    //   node that has no place, or declares it under another superior than its place has, or names
    //   a node that has no place; and whatever other frames come after that one, there is no such
    //   order. Not carried: the frame that is named tells the first deed of its site that no order
    //   of some of the deeds reaches that is a deployment, and one reaches all deeds of that site
    //   before it
    ensures judges { IfOk result (λ verdict. (bytes : List ℕ) → S.left source.old ≡ Some bytes → Judges bytes verdict) }
    // Promise 22.29 [tp_unite/specs/Verdicts.antt, tp_closing/specs/Closing.antt]: **The lines of a
    //   deployment are, but for their order, the closing lines of every run that the deeds of the
    //   recording are, in whatever order these happened**; there is such a run, and 22.2 holds of it.
    //   The lines follow from what each node went through alone, and come in
    //   the order of the nodes' places, and of each node in the order in which it began the trees
    ensures closes { IfOk result (λ verdict. (bytes : List ℕ) → S.left source.old ≡ Some bytes → Closes bytes verdict lines.old lines.new) }
    // Promise 22.26 [tp_unite/specs/Verdicts.antt, tp_unite/specs/Endings.antt]: Without a verdict,
    //   the answer names the first frame that is none of a recording, with the reason; or the first
    //   that passes the limit of sites or of nodes; or the limit of a log, in a frame up to which each
    //   frame is one of a recording and passes no other limit; or the source failed, and its count rose;
    //   or memory ran out
    ensures stops { IfErr result (Stops (S.left source.old) (S.fault_count source.old) (S.fault_count source.new)) }
    ensures kept { S.fault_count source.old ≤ S.fault_count source.new }
{
    match hear(alloc, source)? {
        Heard::Whole(recording) => Ok(judge(alloc, recording, lines)?),
        Heard::NotPlaced { at } => Ok(Verdict::NotPlaced { at }),
    }
}
