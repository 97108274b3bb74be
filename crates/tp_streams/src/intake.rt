//! Bodies out of a source.
ghost use Rattle.std.specs.Prelude.{◌≡◌, ◌^◌, ◌<◌, ◌≤◌, ℕ, true, length, Err, IfErr};
ghost use Rattle.tp_framing.specs.Frames.{stream, next_in, is_next};
ghost use Rattle.tp_streams.specs.Stops.{IsFrameStop};
ghost use Rattle.tp_streams.specs.Taken.{together, first_body, IsFor};
ghost use Rattle.tp_streams.specs.Feeds.{Finds, IsParted, at_end_of};

use crate::Stop;
use crate::feed::Feed;
use std::alloc::Global;
use std::marker::Model;
use tp_model::Why;
use tp_names::Octets;
use tp_outside::Source;

/// Reads a stream of frames body by body, in whatever pieces it comes. Contracts see the bytes that were read and not
/// handed out, how many bodies were, and what stopped it.
#[derive(Drop)]
pub struct Intake {
    feed: Feed,
    at: u64,
    stop: Option<Stop>,
}

impl Model for Intake {
    ghost use Rattle.std.specs.Prelude.{◌*◌, ◌^◌, ◌<◌, ◌≤◌, length};
    ghost use Rattle.tp_streams.specs.Taken.{Place};

    ghost Value = { Place };

    ghost view = { λ s. record { held = s.feed.pending; at = s.at; stop = s.stop } };

    ghost invariant = { λ s. (3 * s.at ≤ s.feed.handed) × (s.feed.handed < 2 ^ 64) × (length s.feed.pending ≤ 10241) };
}

impl Intake {
    ghost use Rattle.std.specs.Prelude.{◌≡◌, ◌≤◌, ℕ, suc, true, [], Some, None, Err, length, IfErr};
    ghost use Rattle.tp_streams.specs.Stops.{IsFrameStop};
    ghost use Rattle.tp_streams.specs.Taken.{answer, bytes_left, is_at_hand, IsFor, IsCutOff, Leaves};

    /// A reader at the start of a stream.
    pub fn new(alloc: Global) -> Intake
        ensures { result ≡ record { held = []; at = 0; stop = None } }
    {
        Intake {
            feed: Feed::new(alloc),
            at: 0,
            stop: None,
        }
    }

    /// The number of the body that was handed out last, which counts from 1; 0 where none was.
    pub fn at(&self) -> u64
        ensures { result ≡ self.now.at }
    {
        self.at
    }

    /// The next body, of 1 to 2,048 bytes; None where the stream ends between two frames. A stream that ends within a
    /// frame, or goes on with a length that none has, is bad at the number of that frame. After a stop each call answers
    /// the same stop and reads nothing. Every call is to be given the same source, of which no more than 10,241 bytes are
    /// read and not handed out.
    pub fn next<S: Source>(&mut self, alloc: Global, source: &mut S) -> Result<Option<Octets>, Stop>
        // Promise 2.30 [clauses body leaves]: Out of a source that tells its bytes, until it fails,
        //   the bodies of a stream of frames are handed out one by one, with none exactly where the
        //   stream ends between two frames, and `Short` and `Length` where the definitions end it
        ensures body { IsFor (answer self.old) (bytes_left self.old (S.left source.old)) result }
        ensures leaves { Leaves self.old (S.left source.old) result self.new (S.left source.new) }
        // Promise 2.32 [clauses stops cut_off again unread]: A fault of reading a frame first comes
        //   only where the source's count rose, with the count; no byte is lost then, and each
        //   frame that was read whole was handed out. After it comes the same one, and nothing is
        //   read
        ensures stops { self.old.stop ≡ None → IfErr result (IsFrameStop (suc self.old.at) (S.fault_count source.old) (S.fault_count source.new)) }
        ensures cut_off { (n : ℕ) → self.old.stop ≡ None → result ≡ Err (Stop.ReadFault n)
            → IsCutOff self.old (S.left source.old) self.new (S.left source.new) }
        ensures again { (stop : Stop) → self.old.stop ≡ Some stop → result ≡ Err stop }
        // Promise 2.39: Where the next frame is at hand, or a bad length, or a stop came before,
        //   the next call reads nothing of the source
        ensures unread { is_at_hand self.old ≡ true → source.new ≡ source.old }
        // Promise 2.33: At most 10,241 bytes of frames are read and not handed out
        ensures few { length self.new.held ≤ 10241 }
        ensures kept { S.fault_count source.old ≤ S.fault_count source.new }
    {
        if let Some(stop) = self.stop {
            return Err(stop);
        }
        match seek(alloc, &mut self.feed, self.at + 1, source) {
            Ok(None) => Ok(None),
            Ok(Some(body)) => {
                self.at += 1;
                Ok(Some(body))
            }
            Err(stop) => Err(self.end(stop)),
        }
    }

    // Promise 2.40, part 2
    /// Whether the next call reads nothing of the source: the next frame is at hand, or a bad length, or a stop from before.
    pub fn is_ready(&self) -> bool
        ensures { result ≡ is_at_hand self.now }
    {
        self.stop.is_some() || self.feed.is_ready()
    }

    /// Stops here.
    pub(crate) fn end(&mut self, stop: Stop) -> Stop
        ensures same { result ≡ stop }
        ensures stops { self.new ≡ record self.old { stop = Some stop } }
    {
        self.stop = Some(stop);
        stop
    }
}

// The next body of the bytes at hand and those that the source has left, whose frame has that number.
fn seek<S: Source>(
    alloc: Global,
    feed: &mut Feed,
    number: u64,
    source: &mut S,
) -> Result<Option<Octets>, Stop>
    requires { length feed.old.pending ≤ 10241 }
    ensures body { IsFor (λ all. first_body number (stream all)) (together feed.old.pending (S.left source.old)) result }
    ensures leaves { Finds feed.old (S.left source.old) result feed.new (S.left source.new) }
    ensures stops { IfErr result (IsFrameStop number (S.fault_count source.old) (S.fault_count source.new)) }
    ensures cut_off { (n : ℕ) → result ≡ Err (Stop.ReadFault n) → IsParted feed.old (S.left source.old) feed.new (S.left source.new) }
    ensures few { length feed.new.pending ≤ 10241 }
    ensures handed { feed.old.handed ≤ feed.new.handed }
    ensures small { feed.new.handed < 2 ^ 64 }
    ensures unread { is_next (next_in feed.old.pending) ≡ true → source.new ≡ source.old }
    ensures kept { S.fault_count source.old ≤ S.fault_count source.new }
{
    loop {
        if let Some(body) = feed.next(alloc, number)? {
            return Ok(Some(body));
        }
        if feed.pull(alloc, source)? == 0 {
            return at_end(feed.is_empty(), number);
        }
    }
}

// What is answered at the end of a stream, of which nothing or a part of the frame with that number is at hand.
fn at_end(empty: bool, number: u64) -> Result<Option<Octets>, Stop>
    ensures { result ≡ at_end_of number empty }
{
    if empty {
        Ok(None)
    } else {
        Err(Stop::BadInput {
            at: number,
            why: Why::Short,
        })
    }
}
