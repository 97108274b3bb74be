//! What a site started on, named in proofs alone.

use std::marker::Brand;
use tp_shared_log::Stood;

/// The ledger of a log on which a site has started. It names besides what the site started on.
pub trait Begun: Stood {
    ghost use Rattle.tp_model.specs.NodeRun.{Opening};

    /// The site's name, and the log before its boot.
    ghost opening: { Opening };
}

impl Begun for Brand {
    ghost use Rattle.std.specs.Prelude.{[]};
    ghost use Rattle.tp_logrec.specs.declared.record.LogVersion.{LogVersion};

    ghost opening = { record { site = []; version = LogVersion.One; records = [] } };
}
