//! The outputs of an event as they go out of a site: records as octets.
ghost use Rattle.std.specs.Prelude.{◌≡◌, IfOk};
ghost use Rattle.tp_model.specs.NodeRun.{refusal_of};
ghost use Rattle.tp_model.specs.Refusal.{number_in};
ghost use Rattle.tp_node_state.specs.Outs.{out_of};
ghost use Rattle.tp_site.specs.Events.{given_out, output_of};
ghost use Rattle.tp_encodable.specs.Sizes.{IsShort, AreShort};

use std::alloc::Global;
use tp_model::Refusal;
use tp_names::{Addr, NoMemory};
use tp_node_state::{Out, Outs};
use tp_records::{Output, Outputs};
use tp_texts::peer_octets;

// An output of a node as it goes out.
fn output_of(alloc: Global, from: &Addr, out: Out) -> Result<Output, NoMemory>
    requires { IsShort (out_of out) }
    ensures { IfOk result (λ output. output ≡ output_of from.now.site from.now.node (out_of out)) }
{
    Ok(match out {
        Out::Tell(indication) => Output::Tell {
            node: from.node,
            indication,
        },
        Out::Send { to, rec } => Output::Send {
            from: *from,
            to,
            octets: peer_octets(alloc, &rec)?,
        },
    })
}

// The number of a refusal, where there is one.
fn refused(alloc: Global, refusal: Option<Refusal>) -> Result<Outputs, NoMemory>
    ensures { IfOk result (λ outputs. outputs ≡ refusal_of (number_in refusal)) }
{
    let mut outputs = Outputs::new(alloc);
    if let Some(refusal) = refusal {
        let number = refusal.number();
        outputs.push(alloc, Output::Refused { number })?;
    }
    Ok(outputs)
}

/// The outputs of an event of a node as they go out, after the number of a refusal, where there is one.
#[tactic(auto, using(crate::proofs::Giving::short_all, crate::proofs::Giving::short_first, crate::proofs::Giving::short_rest))]
pub(crate) fn outputs_of(
    alloc: Global,
    from: &Addr,
    refusal: Option<Refusal>,
    outs: Outs,
) -> Result<Outputs, NoMemory>
    requires { AreShort outs }
    ensures { IfOk result (λ outputs. outputs ≡ given_out from.now.site from.now.node (number_in refusal) outs) }
{
    let mut outputs = refused(alloc, refusal)?;
    for out in outs.into_vec() {
        let output = output_of(alloc, from, out)?;
        outputs.push(alloc, output)?;
    }
    Ok(outputs)
}
