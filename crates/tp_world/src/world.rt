//! A world, and its public calls.
ghost use Rattle.std.specs.Prelude.{◌≡◌, ◌++◌, ◌∷◌, [], true, false, length, IfOk, OnOk};
ghost use Rattle.tp_model.specs.LineText.{line_text};
ghost use Rattle.tp_model.specs.Lines.{line as line_value};
ghost use Rattle.tp_model.specs.World.{World as WorldValue, empty_world};
ghost use Rattle.tp_model.specs.Trees.{closing};
ghost use Rattle.tp_laws.specs.Expansion.{IsOfRun};
ghost use Rattle.tp_world.specs.World.{Mirrors, Stands, Plays, PlaysAfter, Gives};
ghost use Rattle.tp_model.specs.Transcript.{is_silent};
ghost use Rattle.tp_world.specs.LocalEvents.{is_local};

use std::alloc::Global;
use tp_model::{Line, OutLine, OutLines};
use tp_names::{Aaid, NoMemory, Octets};
use tp_network::{Frames, Nodes};
use tp_records::{PeerRecord, Request};
use tp_schedule::write_line;
use tp_site::NodeEvent;
use tp_world_sites::{Entry, SiteSlot, Stop, WorldFault, closing_lines};

/// A world of nodes under a written schedule: its nodes, sites and frames, and its trees in the order of their starts. The entry of an
/// event is told in the memory of the one before it.
#[derive(Drop)]
pub struct World {
    pub(crate) nodes: Nodes,
    pub(crate) sites: Vec<SiteSlot>,
    pub(crate) frames: Frames,
    pub(crate) trees: Vec<Aaid>,
    pub(crate) entry: Option<Box<Entry>>,
}

/// The line speaks of members, and nothing is shown of it.
pub fn is_silent(line: &Line) -> bool
    ensures { result ≡ is_silent line.now }
{
    matches!(line, Line::Auto { .. } | Line::Leave { .. })
}

// The line itself is shown.
fn echo(alloc: Global, line: &Line, lines: &mut OutLines) -> Result<(), NoMemory>
    ensures { OnOk result (lines.new ≡ lines.old ++ OutLine.Echo (line_text line.now) ∷ []) }
{
    let mut text = Octets::new(alloc);
    write_line(alloc, line, &mut text)?;
    lines.push(alloc, OutLine::Echo(text))
}

impl World {
    // Promise 15.10: A new world stands for the one with no node, no frame and no site
    /// The world with no node, no frame and no site.
    #[tactic(auto, using(crate::proofs::Lines::of_no_run))]
    pub fn new(alloc: Global) -> World
        ensures { Stands empty_world result }
    {
        World {
            nodes: Nodes::new(alloc),
            sites: Vec::new(alloc),
            frames: Frames::new(alloc),
            trees: Vec::new(alloc),
            entry: None,
        }
    }

    // Promise 15.1: In a world without members a line shows what the definitions show, with its
    //   echo, which `play` leaves to its caller, and the world stands for the one that the line
    //   leaves
    // Promise 15.2: A name that is taken or not there, as each member's is, and a limit, end a line
    //   exactly where they do in the definitions
    // Promise 15.3: A site that a `crash` line stops has its log and one record more, that of the
    //   next boot; each of its nodes knows what the definitions leave of it, and is declared again
    // Promise 15.4: A site that stops in a changing call of the force of an event's record loses
    //   the record or keeps it as the definitions say, and the event with it; its outputs go out in
    //   neither case
    // Promise 15.6 [tp_world_sites/specs/Sites.antt]: After each line that does not end the run
    //   every site's disk has the bytes of the definitions' disk, all of them, and `image` shows
    //   these
    /// What a line shows, with its echo. One that speaks of a member ends the run. After a fault nothing is said of the world.
    pub fn line(&mut self, alloc: Global, line: &Line) -> Result<OutLines, WorldFault>
        ensures { (w : WorldValue) → Stands w self.old → Plays w line.now result self.new }
    {
        if is_silent(line) {
            return Err(WorldFault::Name);
        }
        let mut lines = OutLines::new(alloc);
        echo(alloc, line, &mut lines)?;
        self.play(alloc, line, &mut lines)?;
        Ok(lines)
    }

    // Promise 15.1, part 2
    // Promise 15.2, part 2
    // Promise 15.3, part 2
    // Promise 15.4, part 2
    // Promise 15.6, part 2
    /// What a line shows, without its echo, after the lines that are shown. After a fault nothing is said of world or lines.
    pub fn play(
        &mut self,
        alloc: Global,
        line: &Line,
        lines: &mut OutLines,
    ) -> Result<(), WorldFault>
        ensures { (w : WorldValue) → Stands w self.old → PlaysAfter w line.now lines.old result lines.new self.new }
    {
        if is_silent(line) {
            return Err(WorldFault::Name);
        }
        self.shown_line(alloc, line, lines)
    }

    // Promise 15.9: The lines that close a transcript are those of the definitions
    /// One line for each tree, in the order of their starts.
    #[tactic(auto, using(crate::proofs::Tellings::closing_same))]
    pub fn closing(&self, alloc: Global) -> Result<OutLines, NoMemory>
        ensures { IfOk result (λ lines. (w : WorldValue) → Stands w self.now → lines ≡ closing w) }
    {
        closing_lines(alloc, self.trees.as_slice(), self.nodes.as_slice())
    }

    /// How many frames were sent.
    pub fn frames_sent(&self) -> usize
        ensures { (w : WorldValue) → Stands w self.now → result ≡ length w.frames }
    {
        self.frames.count()
    }

    // A line without its echo.
    fn shown_line(
        &mut self,
        alloc: Global,
        line: &Line,
        lines: &mut OutLines,
    ) -> Result<(), WorldFault>
        ensures { (w : WorldValue) → IsOfRun w → Mirrors w self.old → is_silent line.now ≡ false
            → Gives (line_value 0 w line.now) lines.old result lines.new self.new }
    {
        match line {
            Line::Node { node, site, under } => self.node_line(alloc, *node, *site, *under, lines),
            Line::Do { node, request } => self.request_line(alloc, *node, request, lines),
            Line::Pass { from, to } => self.pass_line(alloc, *from, *to, lines),
            Line::Skip { from, to } => self.skip_line(alloc, *from, *to, lines),
            Line::Again { frame } => self.again_line(alloc, *frame, lines),
            Line::Drain => self.drain_line(alloc, lines),
            Line::Show { node } => self.show_line(alloc, *node, lines),
            Line::Crash { site } => self.crash_line(alloc, site, lines),
            Line::CrashIn {
                site,
                at,
                fill,
                action,
            } => {
                let stop = Stop {
                    call: *at,
                    fill: *fill,
                };
                self.crash_in_line(alloc, site, &stop, action, lines)
            }
            Line::Image { site } => self.image_line(alloc, site, lines),
            _ => self.event_line(alloc, line, lines),
        }
    }

    // A line with a local event of a node.
    fn event_line(
        &mut self,
        alloc: Global,
        line: &Line,
        lines: &mut OutLines,
    ) -> Result<(), WorldFault>
        ensures { (w : WorldValue) → Mirrors w self.old → is_local line.now ≡ true → Gives (line_value 0 w line.now) lines.old result lines.new self.new }
    {
        let _rec: Option<&PeerRecord> = None;
        let _request: Option<&Request> = None;
        match line {
            Line::Lose { node, peer } => {
                let event = NodeEvent::Lose { peer: *peer };
                self.arc_line(alloc, *node, *peer, &event, lines)
            }
            Line::GiveUp { node, peer } => {
                let event = NodeEvent::GiveUp { peer: *peer };
                self.arc_line(alloc, *node, *peer, &event, lines)
            }
            Line::Heur { node, outcome } => {
                let event = NodeEvent::Heur { outcome: *outcome };
                self.local_line(alloc, *node, &event, lines)
            }
            Line::Retry { node } => self.local_line(alloc, *node, &NodeEvent::Retry, lines),
            Line::Purge { node } => self.local_line(alloc, *node, &NodeEvent::Purge, lines),
            _ => Err(WorldFault::Name),
        }
    }
}
