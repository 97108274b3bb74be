//! The bytes of a stream of frames that are at hand.
ghost use Rattle.std.specs.Prelude.{◌≡◌, ◌==◌, ◌^◌, ◌<◌, ◌≤◌, length, IfOk, IfErr};
ghost use Rattle.tp_streams.specs.Feeds.{Gains, IsPullStop, ComesNext};
ghost use Rattle.tp_framing.specs.Fed.{fresh};
ghost use Rattle.tp_framing.specs.Frames.{next_in, is_next};

use crate::Stop;
use std::alloc::Global;
use std::marker::Model;
use tp_framing::{BadFrame, Frames};
use tp_model::Why;
use tp_names::Octets;
use tp_outside::{Failed, Source};

/// The most bytes that are read at once.
const PIECE: usize = 8192;

/// Frames out of a source, with the count of all bytes that it gave. Contracts see how many bytes were handed out, and
/// which are at hand.
#[derive(Drop)]
pub(crate) struct Feed {
    frames: Frames,
    fed: u64,
}

impl Model for Feed {
    ghost use Rattle.std.specs.Prelude.{◌≡◌};
    ghost use Rattle.tp_framing.specs.Fed.{Fed, fed_so_far};

    ghost Value = { Fed };

    ghost view = { λ f. f.frames };

    ghost invariant = { λ f. f.fed ≡ fed_so_far f.frames };
}

impl Feed {
    /// Nothing is at hand.
    pub(crate) fn new(alloc: Global) -> Feed
        ensures { result ≡ fresh }
    {
        Feed {
            frames: Frames::new(alloc),
            fed: 0,
        }
    }

    /// A copy of the next body, whose frame has that number and is handed out by this; None where no whole frame is at
    /// hand. Without memory the frame may be gone.
    pub(crate) fn next(&mut self, alloc: Global, number: u64) -> Result<Option<Octets>, Stop>
        ensures next { ComesNext number self.old result self.new }
        ensures small { self.new.handed < 2 ^ 64 }
    {
        match self.frames.next() {
            Ok(None) => Ok(None),
            Ok(Some(body)) => Ok(Some(Octets::from_slice(alloc, body)?)),
            Err(BadFrame { .. }) => Err(Stop::BadInput {
                at: number,
                why: Why::Length,
            }),
        }
    }

    /// Reads on, and answers how many bytes came. Without memory these may be gone.
    pub(crate) fn pull<S: Source>(&mut self, alloc: Global, source: &mut S) -> Result<usize, Stop>
        ensures gains { IfOk result (Gains self.old self.new (S.left source.old) (S.left source.new)) }
        ensures stops { IfErr result (IsPullStop (S.fault_count source.old) (S.fault_count source.new) self.old self.new (S.left source.old)
            (S.left source.new)) }
        ensures kept { S.fault_count source.old ≤ S.fault_count source.new }
    {
        let mut piece = [0; PIECE];
        let count = match source.read(&mut piece) {
            Ok(count) => count,
            Err(Failed) => {
                return Err(Stop::ReadFault {
                    faults: source.faults(),
                });
            }
        };
        let Some(fed) = self.fed.checked_add(count as u64) else {
            return Err(Stop::NoMemory);
        };
        self.frames.feed(alloc, &piece[..count])?;
        self.fed = fed;
        Ok(count)
    }

    /// Whether the next frame, or a bad length, is at hand: `next` needs no more bytes.
    pub(crate) fn is_ready(&self) -> bool
        ensures { result ≡ is_next (next_in self.now.pending) }
    {
        self.frames.is_ready()
    }

    /// Whether nothing is at hand.
    pub(crate) fn is_empty(&self) -> bool
        ensures { result ≡ (length self.now.pending == 0) }
    {
        self.frames.pending() == 0
    }
}
