//! The answer to one frame.
ghost use Rattle.std.specs.Prelude.{◌≡◌, ◌∷◌, ◌++◌, [], ℕ, List, Option, OnOk, IfErr};
ghost use Rattle.tp_outside.specs.Story.{Story};
ghost use Rattle.tp_records.specs.declared.body.Event.{Event as Given};
ghost use Rattle.tp_records.specs.declared.body.Output.{Output as Out};
ghost use Rattle.tp_model.specs.NodeRun.{Opening};
ghost use Rattle.tp_model.specs.NodeTranscript.{outputs_bytes};
ghost use Rattle.tp_serve.specs.Answering.{stopped_by, IsAnswerStop};
ghost use Rattle.tp_streams.specs.declared.stop.Stop.{Stop as TheStop};
ghost use Rattle.tx_face.specs.Face.{IsFaceAt};
ghost use Rattle.tp_tx.specs.Transcript.{stand_byte, code_byte, asks, stand_after, code_after, standing_frame, refusing_frame};
ghost use Rattle.tp_tx.specs.Progress.{CallsFor, PutsGiven, IsRunning, Responds};

use crate::frame::Frame;
use std::alloc::Global;
use tp_journal::Keeper;
use tp_model::What;
use tp_names::{NoMemory, Octets};
use tp_records::{Output, Outputs};
use tp_serve::put_outputs;
use tp_site::SiteFault;
use tp_streams::Stop;
use tx_face::{Code, Face, FaceFault, Stand};

// What a fault of the site means for the program, in the frame with that number. One that is refused has an answer.
fn stop_of(fault: SiteFault, at: u64) -> Stop
    ensures { result ≡ stopped_by at fault }
{
    match fault {
        SiteFault::Full { .. } => Stop::Limit {
            what: What::Log,
            at,
        },
        SiteFault::DiskFault { faults } | SiteFault::Shut { faults } => Stop::DiskFault { faults },
        SiteFault::Refused(_) | SiteFault::NoMemory => Stop::NoMemory,
    }
}

fn stand_byte(stand: Stand) -> u8
    ensures { result ≡ stand_byte stand }
{
    match stand {
        Stand::Idle => 0,
        Stand::Open => 1,
        Stand::Asked => 2,
        Stand::Owing => 3,
        Stand::Closing => 4,
    }
}

fn code_byte(code: Option<Code>) -> u8
    ensures { result ≡ code_byte code }
{
    match code {
        None => 0,
        Some(Code::Committed) => 1,
        Some(Code::CommittedHazard) => 2,
        Some(Code::CommittedMixed) => 3,
        Some(Code::RolledBack) => 4,
        Some(Code::RolledBackHazard) => 5,
        Some(Code::RolledBackMixed) => 6,
    }
}

// The call or the event that a frame asks for.
fn call<K: Keeper>(alloc: Global, face: &mut Face<K>, frame: &Frame) -> Result<Outputs, FaceFault>
    ensures lasting { (K.standing face.new.site.keeper).lasting ≡ (K.standing face.old.site.keeper).lasting }
    ensures calls { (o : Opening) (gs : List Given) → IsFaceAt K.standing o gs [] face.old → face.old.node ≡ 1
        → CallsFor K.standing o gs (asks (stand_after o gs) frame.now) face.old result face.new }
{
    match frame {
        Frame::Event(event) => face.feed(alloc, event),
        Frame::Begin { peer } => face.begin(alloc, *peer),
        Frame::Commit => face.commit(alloc),
        Frame::Rollback => face.rollback(alloc),
        Frame::Finish => face.finish(alloc),
        Frame::Ask => Ok(Outputs::new(alloc)),
    }
}

// The frame that says that a call is not taken there.
fn put_refusing(alloc: Global, stand: Stand, out: &mut Octets) -> Result<(), NoMemory>
    ensures { OnOk result (out.new ≡ out.old ++ refusing_frame stand) }
{
    out.extend_from_slice(alloc, &[0, 2, 0x31, stand_byte(stand)])
}

// The frame that says where the program stands.
fn put_standing(
    alloc: Global,
    stand: Stand,
    code: Option<Code>,
    out: &mut Octets,
) -> Result<(), NoMemory>
    ensures { OnOk result (out.new ≡ out.old ++ standing_frame stand code) }
{
    out.extend_from_slice(alloc, &[0, 3, 0x30, stand_byte(stand), code_byte(code)])
}

fn put_refused(alloc: Global, number: u8, out: &mut Octets) -> Result<(), NoMemory>
    ensures { OnOk result (out.new ≡ out.old ++ outputs_bytes (Out.Refused number ∷ [])) }
{
    let mut outputs = Outputs::new(alloc);
    outputs.push(alloc, Output::Refused { number })?;
    put_outputs(alloc, outputs.as_slice(), out)
}

// The frames of what a call gave, in place of what `out` held.
fn put_given(
    alloc: Global,
    given: Result<Outputs, FaceFault>,
    at: u64,
    out: &mut Octets,
) -> Result<(), Stop>
    ensures { PutsGiven at given result out.new }
{
    out.truncate(0);
    match given {
        Ok(outputs) => put_outputs(alloc, outputs.as_slice(), out)?,
        Err(FaceFault::Protocol { stand }) => put_refusing(alloc, stand, out)?,
        Err(FaceFault::Site(SiteFault::Refused(number))) => put_refused(alloc, number, out)?,
        Err(FaceFault::Site(fault)) => return Err(stop_of(fault, at)),
    }
    Ok(())
}

// The frame that says where the program stands now.
fn put_end<K: Keeper>(alloc: Global, face: &Face<K>, out: &mut Octets) -> Result<(), Stop>
    ensures end { OnOk result ((o : Opening) (gs : List Given) → IsFaceAt K.standing o gs [] face.now → face.now.node ≡ 1
        → out.new ≡ out.old ++ standing_frame (stand_after o gs) (code_after o gs)) }
    ensures memory { IfErr result (λ stop. stop ≡ TheStop.NoMemory) }
{
    let stand = face.stand();
    let code = face.code();
    match put_standing(alloc, stand, code, out) {
        Ok(()) => Ok(()),
        Err(NoMemory) => Err(Stop::NoMemory),
    }
}

/// Puts the answer to the frame of that number into `out`, in place of what it held.
pub(crate) fn respond<K: Keeper>(
    alloc: Global,
    face: &mut Face<K>,
    frame: &Frame,
    at: u64,
    out: &mut Octets,
) -> Result<(), Stop>
    ensures responds { (o : Opening) (gs : List Given) (begun : Option Story) (faults : ℕ) → IsRunning K.standing o gs begun faults face.old
        → Responds K.standing o gs begun faults at (asks (stand_after o gs) frame.now) result face.new out.new }
    ensures stops { IfErr result (IsAnswerStop at) }
    ensures lasting { (K.standing face.new.site.keeper).lasting ≡ (K.standing face.old.site.keeper).lasting }
{
    let given = call(alloc, face, frame);
    match put_given(alloc, given, at, out) {
        Ok(()) => put_end(alloc, face, out),
        Err(stop) => Err(stop),
    }
}
