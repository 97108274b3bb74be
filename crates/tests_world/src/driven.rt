//! A world in which a member answers without an end.
use std::alloc::Global;
use tp_model::What;
use tp_names::NoMemory;
use tp_records::{Indication, Member, Request};
use tp_schedule::read_line;
use tp_world::WorldFault;
use tp_world_members::DrivenWorld;

/// A member that answers each error with one.
#[derive(Drop)]
struct Echo;

impl Member for Echo {
    ghost use Rattle.std.specs.Prelude.{◌≡◌};

    // (whatever it answers)
    ghost allowed = { λ m answers. answers ≡ answers };

    fn told(
        &mut self,
        _alloc: Global,
        _node: u16,
        ind: &Indication,
    ) -> Result<Option<Request>, NoMemory> {
        match ind {
            Indication::UError { peer } => Ok(Some(Request::UError { peer: *peer })),
            _ => Ok(None),
        }
    }
}

const OPEN: &str =
    "node 1 a\nnode 2 b under 1\ndo 1 begin-dialogue 2 s\ndrain\ndo 2 accept s\ndrain\nauto 2 1\n";

/// Does one line end the run in which the member of node 2 is told so many errors?
fn echoes(alloc: Global, count: u32) -> Option<Option<WorldFault>> {
    let mut members = Vec::new(alloc);
    members.push(Echo).ok()?;
    let mut world = DrivenWorld::new(alloc, members).ok()?;
    for text in OPEN.lines() {
        let line = read_line(alloc, text.as_bytes()).ok()??;
        world.line(alloc, &line).ok()?;
    }
    let line = read_line(alloc, b"do 1 u-error 2").ok()??;
    for _ in 0..count {
        world.line(alloc, &line).ok()?;
    }
    let line = read_line(alloc, b"drain").ok()??;
    Some(world.line(alloc, &line).err())
}

/// One line may have 4,096 answers, and no more.
#[test]
fn answers_have_a_limit(rt: HostRuntime) {
    assert!(rt; matches!(echoes(rt.alloc(), 4096), Some(None)));
    assert!(rt;
        matches!(
            echoes(rt.alloc(), 4097),
            Some(Some(WorldFault::Limit {
                what: What::Answers
            }))
        )
    );
}
