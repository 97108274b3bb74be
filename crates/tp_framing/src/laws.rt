//! Laws of streams and of runs over them. The bodies are empty: each contract is the law.
ghost use Rattle.std.specs.Prelude.{◌≡◌, ◌≢◌, ℕ, List, [], ◌++◌};
ghost use Rattle.tp_framing.specs.Frames.{Part, Whole, Bad, next_in, Stream, stream, frame_bytes, IsBody, AreFrames, BeginsBad, Nothing, Bad_length, with_bodies, ends_with};
ghost use Rattle.tp_framing.specs.Fed.{Fed, fresh, Step, fed_in, bodies_in, Leads, IsSplit, HasMore, rest_of};

// Promise 2.12: The bodies of a stream of frames are handed out whatever the pieces in which it
//   comes, and a bad length is told exactly where it comes
/// Whatever the pieces and whenever bodies are asked for: what was fed is the frames of the
/// bodies that were handed out, and then what is pending.
pub fn any_pieces()
    ensures { (steps : List Step) (f : Fed) → Leads fresh steps f → IsSplit (fed_in steps) (bodies_in steps) f }
{}

// Promise 2.12, part 4
/// Two readers of one stream that have no more to hand out have handed out the same bodies, and
/// have the same pending.
pub fn one_reading()
    ensures { (bytes : List ℕ) (bodies others : List (List ℕ)) (f g : Fed)
        → IsSplit bytes bodies f → IsSplit bytes others g → (HasMore f → ⊥) → (HasMore g → ⊥)
        → (bodies ≡ others) × (f ≡ g) }
{}

/// What was handed out and what is pending tell the stream.
pub fn the_stream()
    ensures split { (bytes : List ℕ) (bodies : List (List ℕ)) (f : Fed) → IsSplit bytes bodies f
        → stream bytes ≡ with_bodies bodies (stream f.pending) }
    ensures frames { (bytes : List ℕ) (bodies : List (List ℕ)) → AreFrames bytes bodies
        → stream bytes ≡ with_bodies bodies (ends_with Nothing) }
    ensures part { (bytes : List ℕ) → next_in bytes ≡ Part → stream bytes ≡ ends_with (rest_of bytes) }
    ensures bad { (bytes : List ℕ) → next_in bytes ≡ Bad → stream bytes ≡ ends_with Bad_length }
{}

/// What comes next: a frame at the front, whatever follows it; a bad length at the front,
/// whatever follows it, and for good.
pub fn what_comes_next()
    ensures frame { (body rest : List ℕ) → IsBody body → next_in (frame_bytes body ++ rest) ≡ Whole body rest }
    ensures bad { (bytes : List ℕ) → BeginsBad bytes → next_in bytes ≡ Bad }
    ensures for_good { (bytes more : List ℕ) → next_in bytes ≡ Bad → next_in (bytes ++ more) ≡ Bad }
{}
