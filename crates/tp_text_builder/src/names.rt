//! Names of sites, marks and identifiers, and the words for outcomes, reports and the like.
ghost use Rattle.std.specs.Prelude.{◌++◌, ◌∷◌};
ghost use Rattle.tp_text_builder.specs.Written.{Adds};
ghost use Rattle.tp_model.specs.Words.{decimal, mark_word, aaid_word, branch_word, maybe_word, outcome_word, report_word, holder_word};
ghost use Rattle.tp_model.specs.OutText.{phase_word, fate_word};

use crate::Text;
use tp_model::{PhaseWord, RecordFate};
use tp_names::{Aaid, BranchId, Mark, Outcome, Report, SiteName};
use tp_records::Holder;

impl Text {
    /// Puts the name of a site.
    #[inline(always)]
    pub fn site(&mut self, site: &SiteName)
        ensures { Adds self.old site.now self.new }
    {
        match site.bytes() {
            [a, b] => self.put(&[*a, *b]),
            name => self.put(name),
        }
    }

    /// Puts three numbers with dots between them.
    #[inline(always)]
    pub fn mark(&mut self, mark: &Mark)
        ensures { Adds self.old (mark_word mark.now) self.new }
    {
        self.number(mark.boot);
        self.led(b'.', u64::from(mark.node));
        self.led(b'.', mark.count);
    }

    // Puts a mark after a dot.
    #[inline(always)]
    fn dotted(&mut self, mark: &Mark)
        ensures { Adds self.old (46 ∷ mark_word mark.now) self.new }
    {
        self.two_dotted(mark.boot, u64::from(mark.node));
        self.led(b'.', mark.count);
    }

    // Puts two numbers, each after a dot: short ones at once.
    #[inline(always)]
    fn two_dotted(&mut self, m: u64, n: u64)
        ensures { Adds self.old ((46 ∷ decimal m) ++ (46 ∷ decimal n)) self.new }
    {
        if m < 10 && n < 10 {
            self.put(&[b'.', b'0' + m as u8, b'.', b'0' + n as u8]);
        } else {
            self.led(b'.', m);
            self.led(b'.', n);
        }
    }

    /// Puts a mark, or `-` for none.
    pub fn maybe_mark(&mut self, mark: &Option<Mark>)
        ensures { Adds self.old (maybe_word mark_word mark.now) self.new }
    {
        match mark {
            None => self.byte(b'-'),
            Some(mark) => self.mark(mark),
        }
    }

    /// Puts the identifier of a tree.
    pub fn aaid(&mut self, aaid: &Aaid)
        ensures { Adds self.old (aaid_word aaid.now) self.new }
    {
        self.site(&aaid.owner);
        self.dotted(&aaid.mark);
    }

    /// Puts the identifier of a branch.
    pub fn branch(&mut self, branch: &BranchId)
        ensures { Adds self.old (branch_word branch.now) self.new }
    {
        self.site(&branch.superior);
        self.dotted(&branch.mark);
    }

    /// Puts the identifier of a branch, or `-` for none.
    pub fn maybe_branch(&mut self, branch: &Option<BranchId>)
        ensures { Adds self.old (maybe_word branch_word branch.now) self.new }
    {
        match branch {
            None => self.byte(b'-'),
            Some(branch) => self.branch(branch),
        }
    }

    /// Puts the word of an outcome.
    #[inline(always)]
    pub fn outcome(&mut self, outcome: Outcome)
        ensures { Adds self.old (outcome_word outcome) self.new }
    {
        match outcome {
            Outcome::Commit => self.word("commit"),
            Outcome::Rollback => self.word("rollback"),
        }
    }

    /// Puts the word of a report.
    #[inline(always)]
    pub fn report(&mut self, report: Report)
        ensures { Adds self.old (report_word report) self.new }
    {
        match report {
            Report::None => self.word("none"),
            Report::Hazard => self.word("hazard"),
            Report::Mix => self.word("mix"),
        }
    }

    /// Puts the word of a holder.
    #[inline(always)]
    pub fn holder(&mut self, holder: Holder)
        ensures { Adds self.old (holder_word holder) self.new }
    {
        match holder {
            Holder::None => self.word("none"),
            Holder::Superior => self.word("superior"),
            Holder::Subordinate => self.word("subordinate"),
        }
    }

    /// Puts the word of a phase.
    pub fn phase(&mut self, phase: PhaseWord)
        ensures { Adds self.old (phase_word phase) self.new }
    {
        match phase {
            PhaseWord::Nil => self.word("nil"),
            PhaseWord::Active => self.word("active"),
            PhaseWord::Asked => self.word("asked"),
            PhaseWord::Ready => self.word("ready"),
            PhaseWord::Committing => self.word("committing"),
            PhaseWord::Rolling => self.word("rolling"),
        }
    }

    /// Puts the word of a record's fate.
    pub fn fate(&mut self, fate: RecordFate)
        ensures { Adds self.old (fate_word fate) self.new }
    {
        match fate {
            RecordFate::Kept => self.word("kept"),
            RecordFate::Lost => self.word("lost"),
            RecordFate::None => self.word("none"),
        }
    }
}
