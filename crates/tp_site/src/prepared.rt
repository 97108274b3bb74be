//! How an event that is not refused at once is to happen.
ghost use Rattle.std.specs.Prelude.{◌≡◌};
ghost use Rattle.tp_site.specs.Prepared.{refusal_of};

use tp_model::Refusal;

/// How an event is to happen. What it says is known, and nothing of it is so yet.
#[derive(Clone, Copy)]
pub(crate) enum Prepared {
    /// It forces no record, and runs on its node itself.
    InPlace,
    /// A draft of its node takes the node's place, once its record is forced. With a refusal, it was refused by that, and the
    /// association that it came on ends.
    Drawn(Option<Refusal>),
}

impl Prepared {
    /// The refusal that its answer begins with, where there is one.
    pub(crate) fn refusal(self) -> Option<Refusal>
        ensures { result ≡ refusal_of self }
    {
        match self {
            Prepared::InPlace => None,
            Prepared::Drawn(refusal) => refusal,
        }
    }
}
