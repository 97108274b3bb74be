//! Workers on one log: that two of them run at once.

use std::alloc::Global;
use std::sync::atomic::{AtomicU64, Ordering};
use std::test::Fail;
use tp_drive::{Gate, drive};
use tp_journal::Journal;
use tp_names::{Octets, SiteName};
use tp_outside::MemDisk;
use tp_records::{Event, Request};

// Two nodes are declared, and the user of each asks for a commitment, which is refused.
fn four_events() -> [Event; 4] {
    [
        Event::Declare {
            node: 1,
            superior: None,
        },
        Event::Declare {
            node: 2,
            superior: None,
        },
        Event::Do {
            node: 1,
            request: Request::Commit,
        },
        Event::Do {
            node: 2,
            request: Request::Commit,
        },
    ]
}

fn fresh(alloc: Global) -> Option<Journal<MemDisk>> {
    let bytes = Octets::from_slice(alloc, &[79, 84, 80, 76, 1, 0]).ok()?;
    Journal::start(alloc, MemDisk::from(alloc, bytes)).ok()
}

/// Holds each of two events until the other has come to it.
#[derive(Drop)]
struct Meeting {
    third: AtomicU64,
    fourth: AtomicU64,
    missed: AtomicU64,
}

const TURNS: u64 = 1_000_000_000;

impl Gate for Meeting {
    fn before(&self, event: u64) {
        if event == 3 {
            self.meet(&self.third, &self.fourth);
        } else if event == 4 {
            self.meet(&self.fourth, &self.third);
        }
    }

    fn after(&self, _event: u64) {}
}

impl Meeting {
    // Shows that this worker came, and waits for the other.
    fn meet(&self, own: &AtomicU64, other: &AtomicU64) {
        own.store(1, Ordering::SeqCst);
        for _ in 0..TURNS {
            if other.load(Ordering::SeqCst) == 1 {
                return;
            }
        }
        self.missed.store(1, Ordering::SeqCst);
    }
}

#[test]
fn two_workers_run_at_once(rt: HostRuntime) -> Result<(), Fail> {
    let alloc = rt.alloc();
    let gate = Meeting {
        third: AtomicU64::new(0),
        fourth: AtomicU64::new(0),
        missed: AtomicU64::new(0),
    };
    let Some(journal) = fresh(alloc) else {
        panic!(rt; "no log")
    };
    let Some(name) = SiteName::new(b"a") else {
        panic!(rt; "no name")
    };
    let events = four_events();
    assert!(rt; drive(&rt, alloc, journal, name, &events, 2, &gate).is_ok());
    assert_eq!(rt; gate.missed.load(Ordering::SeqCst), 0);
    Ok(())
}
