//! A world in which members drive nodes, and its public calls.
ghost use Rattle.std.specs.Prelude.{◌≡◌, [], List, false, true, map, length, Some, IfOk, OnOk, OnErr};
ghost use Rattle.tp_model.specs.declared.out_line.OutLine.{OutLine};
ghost use Rattle.tp_model.specs.Trees.{closing};
ghost use Rattle.tp_model.specs.Transcript.{is_silent};
ghost use Rattle.tp_model.specs.World.{World as WorldValue, empty_world};
ghost use Rattle.tp_world_members.specs.DrivenWorld.{members_of, has_ended, Stands, Plays, PlaysEchoed, PlaysAfter};

use crate::answers::{answer_all, echo};
use crate::members::Members;
use std::alloc::Global;
use tp_model::{Line, OutLines};
use tp_names::NoMemory;
use tp_records::Member;
use tp_world::{World, WorldFault, is_silent};

/// A world of nodes under a written schedule, with the members that were handed in, numbered from 1. What they may
/// answer after a line follows their answers in it, and one that is dropped is dropped in its line. Members of several kinds are an enum of the caller.
#[derive(Drop)]
pub struct DrivenWorld<M> {
    world: World,
    members: Members<M>,
    ended: bool,
}

impl<M: Member> DrivenWorld<M> {
    /// The world with no node, no frame and no site, and with those members.
    pub fn new(alloc: Global, members: Vec<M>) -> Result<DrivenWorld<M>, NoMemory>
        ensures stands { IfOk result (λ v. Stands empty_world v) }
        ensures members { IfOk result (λ v. members_of v ≡ map (λ m. Some m) members.items) }
        ensures going { IfOk result (λ v. has_ended v ≡ false) }
    {
        Ok(DrivenWorld {
            world: World::new(alloc),
            members: Members::new(alloc, members)?,
            ended: false,
        })
    }

    /// A line has ended the run.
    pub fn ended(&self) -> bool
        ensures { result ≡ has_ended self.now }
    {
        self.ended
    }

    /// How many frames were sent.
    pub fn frames_sent(&self) -> usize
        ensures { (w : WorldValue) → Stands w self.now → result ≡ length w.frames }
    {
        self.world.frames_sent()
    }

    /// One line for each tree, in the order of their starts.
    pub fn closing(&self, alloc: Global) -> Result<OutLines, NoMemory>
        ensures { IfOk result (λ lines. (w : WorldValue) → Stands w self.now → lines ≡ closing w) }
    {
        self.world.closing(alloc)
    }

    // Promise 15.7: With members, a line shows what the definitions show for some answers that they
    //   may give, one to each indication that is put to them; no answer is skipped and none is made
    //   up
    // Promise 15.8: What a member may answer after a line is what it might answer after the answers
    //   that it gave in the line
    /// What a line shows, with its echo, and what the answers of members show. After a fault the run has ended, and nothing more
    /// is said of the world.
    pub fn line(&mut self, alloc: Global, line: &Line) -> Result<OutLines, WorldFault>
        ensures plays { (w : WorldValue) → Stands w self.old → Plays M.allowed w line.now result self.old self.new }
        ensures ended { OnErr result (has_ended self.new ≡ true) }
        ensures going { OnOk result (has_ended self.new ≡ has_ended self.old) }
    {
        let mut lines = OutLines::new(alloc);
        match self.echoed_line(alloc, line, &mut lines) {
            Ok(()) => Ok(lines),
            Err(fault) => {
                self.ended = true;
                Err(fault)
            }
        }
    }

    // Promise 15.7, part 2
    // Promise 15.8, part 2
    /// What a line shows, without its echo, and what the answers of members show, after the lines that are shown. After a
    /// fault the run has ended, and nothing more is said of the world nor of the lines.
    pub fn play(
        &mut self,
        alloc: Global,
        line: &Line,
        lines: &mut OutLines,
    ) -> Result<(), WorldFault>
        ensures plays { (w : WorldValue) → Stands w self.old → PlaysAfter M.allowed w line.now lines.old result lines.new self.old self.new }
        ensures ended { OnErr result (has_ended self.new ≡ true) }
        ensures going { OnOk result (has_ended self.new ≡ has_ended self.old) }
    {
        match self.any_line(alloc, line, lines) {
            Ok(()) => Ok(()),
            Err(fault) => {
                self.ended = true;
                Err(fault)
            }
        }
    }

    // A line with its echo; the lines are empty.
    fn echoed_line(
        &mut self,
        alloc: Global,
        line: &Line,
        lines: &mut OutLines,
    ) -> Result<(), WorldFault>
        ensures plays { (w : WorldValue) → Stands w self.old → lines.old ≡ [] → PlaysEchoed M.allowed w line.now result lines.new self.old self.new }
        ensures same { has_ended self.new ≡ has_ended self.old }
    {
        if !is_silent(line) {
            echo(alloc, line, lines)?;
        }
        self.any_line(alloc, line, lines)
    }

    // A line without its echo.
    fn any_line(
        &mut self,
        alloc: Global,
        line: &Line,
        lines: &mut OutLines,
    ) -> Result<(), WorldFault>
        ensures plays { (w : WorldValue) → Stands w self.old → PlaysAfter M.allowed w line.now lines.old result lines.new self.old self.new }
        ensures same { has_ended self.new ≡ has_ended self.old }
    {
        match line {
            Line::Auto { node, member } => self.auto_line(*node, *member),
            Line::Leave { member } => self.leave_line(*member),
            _ => self.shown_line(alloc, line, lines),
        }
    }

    // A line that is shown, and the answers of members.
    fn shown_line(
        &mut self,
        alloc: Global,
        line: &Line,
        lines: &mut OutLines,
    ) -> Result<(), WorldFault>
        ensures plays { (w : WorldValue) → Stands w self.old → is_silent line.now ≡ false
            → PlaysAfter M.allowed w line.now lines.old result lines.new self.old self.new }
        ensures same { has_ended self.new ≡ has_ended self.old }
    {
        let from = lines.as_slice().len();
        self.world.play(alloc, line, lines)?;
        answer_all(alloc, &mut self.world, &mut self.members, from, lines)
    }

    // A member drives a node.
    fn auto_line(&mut self, node: u16, member: u16) -> Result<(), WorldFault>
        ensures plays { (w : WorldValue) (lines : List OutLine) → Stands w self.old
            → PlaysAfter M.allowed w (Line.Auto node member) lines result lines self.old self.new }
        ensures same { has_ended self.new ≡ has_ended self.old }
    {
        if !self.world.is_node(node) {
            return Err(WorldFault::Name);
        }
        if !self.members.is_there(member) {
            return Err(WorldFault::Name);
        }
        self.members.drive(node, member)?;
        Ok(())
    }

    // A member is dropped.
    fn leave_line(&mut self, member: u16) -> Result<(), WorldFault>
        ensures plays { (w : WorldValue) (lines : List OutLine) → Stands w self.old
            → PlaysAfter M.allowed w (Line.Leave member) lines result lines self.old self.new }
        ensures same { has_ended self.new ≡ has_ended self.old }
    {
        if !self.members.is_there(member) {
            return Err(WorldFault::Name);
        }
        self.members.leave(member);
        Ok(())
    }
}
