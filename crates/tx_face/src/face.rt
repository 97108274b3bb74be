//! The calls of demarcation, over a site.
ghost use Rattle.std.specs.Prelude.{◌≡◌, ◌++◌, ℕ, Bool, false, List, [], Some, None, length, IfOk, IfErr, OnOk};
ghost use Rattle.tp_records.specs.declared.body.Event.{Event as Given};
ghost use Rattle.tp_records.specs.declared.request.Request.{Request as Asks};
ghost use Rattle.tp_model.specs.Parts.{Entry};
ghost use Rattle.tp_model.specs.History.{digest};
ghost use Rattle.tp_model.specs.NodeRun.{Opening, origin_at, asked};
ghost use Rattle.tp_model.specs.Happenings.{Happening, run};
ghost use Rattle.tp_model.specs.Promises.{IsIn};
ghost use Rattle.tp_model.specs.World.{Node};
ghost use Rattle.tp_journal.specs.Settling.{SettlesTo};
ghost use Rattle.tp_site.specs.declared.faults.SiteFault.{SiteFault as SiteFaults};
ghost use Rattle.tp_site.specs.Site.{known_at};
ghost use Rattle.tp_site.specs.Events.{IsAt, all_nodes, history_at};
ghost use Rattle.tx_face.specs.declared.code.Code.{Code as CodeValue};
ghost use Rattle.tx_face.specs.Stands.{stand, takes_begin, takes_commit, takes_rollback, takes_finish};
ghost use Rattle.tx_face.specs.Codes.{code_of};
ghost use Rattle.tx_face.specs.Face.{stand_at, is_asked_by_call, is_fed, Plays, Calls, IsMade, IsFaceAt, Goes, GoesMade, GoesOn, MeansAll};

use crate::code::Code;
use crate::fault::FaceFault;
use crate::stand::Stand;
use std::alloc::Global;
use std::marker::Model;
use tp_journal::{ForceFault, Gathering, Journal, Keeper, Settles};
use tp_names::NoMemory;
use tp_outside::Disk;
use tp_records::{Event, Outputs, Request};
use tp_site::{Site, SiteFault};

/// A site, and one node of it at which a root's program begins and ends its transactions. Contracts see the site, the node's number,
/// and the code of the last completion.
#[derive(Drop)]
pub struct Face<K: Keeper> {
    site: Site<K>,
    node: u16,
    code: Option<Code>,
}

impl<K: Keeper> Model for Face<K> {
    ghost use Rattle.tx_face.specs.Face.{Face as FaceValue};

    ghost Value = { FaceValue K };

    ghost view = { λ s. record { site = s.site; node = s.node; code = s.code } };
}

// The event is one that no call of the program at that node asks for.
fn is_fed(event: &Event, node: u16) -> bool
    ensures { result ≡ is_fed node event.now }
{
    match event {
        Event::Do { node: at, request } => !(*at == node && is_asked_by_call(request)),
        _ => true,
    }
}

// A root's program asks for it by a call; or never, since it does not leave its own tree.
fn is_asked_by_call(request: &Request) -> bool
    ensures { result ≡ is_asked_by_call request.now }
{
    matches!(
        request,
        Request::BeginTransaction { .. }
            | Request::Commit
            | Request::Done
            | Request::Rollback
            | Request::Unchanged
    )
}

impl<K: Keeper> Face<K> {
    /// A face of the node of that number, which is declared as one without a superior: the site answers that event, and its faults
    /// are those: at a node that is not declared yet, of a site that is not shut, out of memory alone. Nothing was told yet.
    pub fn new(alloc: Global, site: Site<K>, node: u16) -> Result<Face<K>, (Site<K>, SiteFault)>
        // Promise 14.4: A new face is the declaration of a node without a superior, which gives no
        //   outputs
        ensures made { IsMade K.standing site node result }
        // Promise 14.5: Where the site of which a face is made stands where a run of the
        //   definitions does, it does so after any list of calls: the events of the run are those
        //   from before, the declaration, and those of the calls that were taken and that no fault
        //   stopped
        ensures goes { (o : Opening) (gs : List Given) → IsAt K.standing all_nodes o gs site → GoesMade K.standing o gs site node result }
        ensures fresh { (known_at site node).declared ≡ false → site.shut ≡ None → IfErr result (λ e. e.1 ≡ SiteFaults.NoMemory) }
    {
        let mut face = Face {
            site,
            node,
            code: None,
        };
        let event = Event::Declare {
            node,
            superior: None,
        };
        match face.event(alloc, &event) {
            Ok(_) => Ok(face),
            Err(fault) => Err((face.site, fault)),
        }
    }

    // That event of the site.
    fn event(&mut self, alloc: Global, event: &Event) -> Result<Outputs, SiteFault>
        ensures plays { Plays K.standing self.old event.now result self.new }
        ensures goes { (o : Opening) (gs : List Given) (past : List Entry) → IsFaceAt K.standing o gs past self.old
            → Goes K.standing o gs past self.old event.now result self.new }
        ensures lasting { (K.standing self.new.site.keeper).lasting ≡ (K.standing self.old.site.keeper).lasting }
    {
        match self.site.event(alloc, event) {
            Ok(outputs) => {
                self.code = Code::given(outputs.as_slice(), self.node, self.code);
                Ok(outputs)
            }
            Err(fault) => Err(fault),
        }
    }

    // A call: that event, where it is taken.
    fn call(&mut self, alloc: Global, taken: bool, event: &Event) -> Result<Outputs, FaceFault>
        ensures calls { Calls K.standing taken self.old event.now result self.new }
        ensures goes { (o : Opening) (gs : List Given) (past : List Entry) → IsFaceAt K.standing o gs past self.old
            → GoesOn K.standing taken o gs past self.old event.now result self.new }
        ensures lasting { (K.standing self.new.site.keeper).lasting ≡ (K.standing self.old.site.keeper).lasting }
    {
        if !taken {
            return Err(FaceFault::Protocol {
                stand: self.stand(),
            });
        }
        match self.event(alloc, event) {
            Ok(outputs) => Ok(outputs),
            Err(fault) => Err(FaceFault::Site(fault)),
        }
    }

    // A request of the program, where it is taken.
    fn ask(&mut self, alloc: Global, taken: bool, request: Request) -> Result<Outputs, FaceFault>
        ensures calls { Calls K.standing taken self.old (Given.Do self.old.node request) result self.new }
        ensures goes { (o : Opening) (gs : List Given) (past : List Entry) → IsFaceAt K.standing o gs past self.old
            → GoesOn K.standing taken o gs past self.old (Given.Do self.old.node request) result self.new }
        ensures lasting { (K.standing self.new.site.keeper).lasting ≡ (K.standing self.old.site.keeper).lasting }
    {
        let event = Event::Do {
            node: self.node,
            request,
        };
        self.call(alloc, taken, &event)
    }

    /// Begins a transaction at the dialogue with that peer, or adds it to the one that is begun. Taken at Idle and Open alone.
    pub fn begin(&mut self, alloc: Global, peer: u16) -> Result<Outputs, FaceFault>
        // Promise 14.1 [tx_face/specs/Stands.antt]: A call of a face is taken exactly where the
        //   node's transaction stands as it asks for; else it is answered Protocol with the stand,
        //   and nothing has changed
        // Promise 14.3: A call that is taken is exactly one event of the site, with its outputs and
        //   its faults
        ensures calls { Calls K.standing (takes_begin (stand_at self.old)) self.old (Given.Do self.old.node (Asks.BeginTransaction peer)) result self.new }
        // Promise 14.5, part 2
        ensures goes { (o : Opening) (gs : List Given) (past : List Entry) → IsFaceAt K.standing o gs past self.old
            → GoesOn K.standing (takes_begin (stand_at self.old)) o gs past self.old (Given.Do self.old.node (Asks.BeginTransaction peer)) result self.new }
        ensures lasting { (K.standing self.new.site.keeper).lasting ≡ (K.standing self.old.site.keeper).lasting }
    {
        let taken = self.stand().takes_begin();
        self.ask(alloc, taken, Request::BeginTransaction { peer })
    }

    /// Asks for commitment. Taken at Open alone.
    pub fn commit(&mut self, alloc: Global) -> Result<Outputs, FaceFault>
        // Promise 14.1, part 2
        // Promise 14.3, part 2
        ensures calls { Calls K.standing (takes_commit (stand_at self.old)) self.old (Given.Do self.old.node Asks.Commit) result self.new }
        // Promise 14.5, part 3
        ensures goes { (o : Opening) (gs : List Given) (past : List Entry) → IsFaceAt K.standing o gs past self.old
            → GoesOn K.standing (takes_commit (stand_at self.old)) o gs past self.old (Given.Do self.old.node Asks.Commit) result self.new }
        ensures lasting { (K.standing self.new.site.keeper).lasting ≡ (K.standing self.old.site.keeper).lasting }
    {
        let taken = self.stand().takes_commit();
        self.ask(alloc, taken, Request::Commit)
    }

    /// Rolls back. Taken at Open and Asked alone.
    pub fn rollback(&mut self, alloc: Global) -> Result<Outputs, FaceFault>
        // Promise 14.1, part 3
        // Promise 14.3, part 3
        ensures calls { Calls K.standing (takes_rollback (stand_at self.old)) self.old (Given.Do self.old.node Asks.Rollback) result self.new }
        // Promise 14.5, part 4
        ensures goes { (o : Opening) (gs : List Given) (past : List Entry) → IsFaceAt K.standing o gs past self.old
            → GoesOn K.standing (takes_rollback (stand_at self.old)) o gs past self.old (Given.Do self.old.node Asks.Rollback) result self.new }
        ensures lasting { (K.standing self.new.site.keeper).lasting ≡ (K.standing self.old.site.keeper).lasting }
    {
        let taken = self.stand().takes_rollback();
        self.ask(alloc, taken, Request::Rollback)
    }

    /// Says that the program has finished its part of the commitment or rollback. Taken at Owing alone.
    pub fn finish(&mut self, alloc: Global) -> Result<Outputs, FaceFault>
        // Promise 14.1, part 4
        // Promise 14.3, part 4
        ensures calls { Calls K.standing (takes_finish (stand_at self.old)) self.old (Given.Do self.old.node Asks.Done) result self.new }
        // Promise 14.5, part 5
        ensures goes { (o : Opening) (gs : List Given) (past : List Entry) → IsFaceAt K.standing o gs past self.old
            → GoesOn K.standing (takes_finish (stand_at self.old)) o gs past self.old (Given.Do self.old.node Asks.Done) result self.new }
        ensures lasting { (K.standing self.new.site.keeper).lasting ≡ (K.standing self.old.site.keeper).lasting }
    {
        let taken = self.stand().takes_finish();
        self.ask(alloc, taken, Request::Done)
    }

    /// Any other event of the site, as its dialogues, arrivals and losses. Not taken is what the program at the face's node asks for by
    /// a call, and that it leaves the transaction unchanged.
    pub fn feed(&mut self, alloc: Global, event: &Event) -> Result<Outputs, FaceFault>
        // Promise 14.2 [tx_face/specs/Face.antt]: `feed` refuses so exactly the requests of the
        //   face's node that are begin-transaction, commit, done, rollback or unchanged
        // Promise 14.3, part 5
        ensures calls { Calls K.standing (is_fed self.old.node event.now) self.old event.now result self.new }
        // Promise 14.5, part 6
        ensures goes { (o : Opening) (gs : List Given) (past : List Entry) → IsFaceAt K.standing o gs past self.old
            → GoesOn K.standing (is_fed self.old.node event.now) o gs past self.old event.now result self.new }
        ensures lasting { (K.standing self.new.site.keeper).lasting ≡ (K.standing self.old.site.keeper).lasting }
    {
        let taken = is_fed(event, self.node);
        self.call(alloc, taken, event)
    }

    /// Where the program stands with its current transaction.
    pub fn stand(&self) -> Stand
        ensures stand { result ≡ stand_at self.now }
        // Promise 14.6: Where a face stands so (14.5), its stand is that of what is known after the
        //   node's history, and its code that of the last completion that the history told since
        //   the face was made
        ensures at { (o : Opening) (gs : List Given) (past : List Entry) → IsFaceAt K.standing o gs past self.now
            → result ≡ stand (digest (origin_at o self.now.node) (history_at o gs self.now.node)) }
    {
        Stand::of(self.site.shown(self.node))
    }

    /// How the last transaction that was complete since the face was made ended; None where none was. Committed at the root of its tree
    /// means that every node of it that stays was told commit, in every run of a world in which a node's history ends with this one.
    pub fn code(&self) -> Option<Code>
        ensures code { result ≡ self.now.code }
        // Promise 14.6, part 2
        ensures at { (o : Opening) (gs : List Given) (past : List Entry) → (at : IsFaceAt K.standing o gs past self.now) → result ≡ code_of at.since }
        // Promise 14.7: **Committed at the root of the tree that was complete last means that every
        //   node of it that stays was told commit**, in every run of a world in which a node's
        //   history ends with that since the face was made
        ensures committed { (o : Opening) (gs : List Given) (past : List Entry) → (at : IsFaceAt K.standing o gs past self.now)
            → (es : List Happening) (x : Node) (older : List Entry) → IsIn (run es) x → x.history ≡ at.since ++ older
            → result ≡ Some CodeValue.Committed → MeansAll (run es) x at.since older }
    {
        self.code
    }

    /// The site, given back.
    pub fn site(self) -> Site<K>
        ensures { result ≡ self.site }
    {
        self.site
    }
}

impl<K: Settles> Face<K> {
    // Promise 14.12, part 2
    /// Forces all that its site has noted. The face stands where it stood; a fault of the disk shuts the log.
    pub fn settle_log(&mut self, last: bool) -> Result<(), ForceFault>
        ensures settles { SettlesTo (K.standing self.old.site.keeper) result (K.standing self.new.site.keeper) }
        ensures same { self.new ≡ record self.old { site = self.new.site } }
        ensures shut { OnOk result (self.new.site.shut ≡ self.old.site.shut) }
        ensures site { (mine : ℕ → Bool) (o : Opening) (gs : List Given) → IsAt K.standing mine o gs self.old.site → IsAt K.standing mine o gs self.new.site }
        ensures at { (o : Opening) (gs : List Given) (past : List Entry) → IsFaceAt K.standing o gs past self.old → IsFaceAt K.standing o gs past self.new }
    {
        self.site.settle_log(last)
    }
}

impl<D: Disk> Face<Journal<D>> {
    // Promise 14.12: A face that notes records from now on has the log, the nodes, the stand and
    //   the code that it had; and a settle of its log leaves it where a run of events brought it
    //   (14.5), also where the settle fails
    /// The same face over the same log, which notes records from now on.
    pub fn ahead(self, alloc: Global) -> Result<Face<Gathering<D>>, (Face<Journal<D>>, NoMemory)>
        ensures ok { IfOk result (λ face. face
            ≡ record {
              site = record {
                keeper = record { journal = self.site.keeper; settled = length self.site.keeper.list };
                nodes = self.site.nodes;
                shut = self.site.shut;
              };
              node = self.node;
              code = self.code;
            }) }
        ensures err { IfErr result (λ e. e.0 ≡ self) }
    {
        let Face { site, node, code } = self;
        match site.ahead(alloc) {
            Ok(site) => Ok(Face { site, node, code }),
            Err((site, fault)) => Err((Face { site, node, code }, fault)),
        }
    }
}
