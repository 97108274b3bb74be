//! Writing a body.
ghost use Rattle.std.specs.Prelude.{◌≡◌, ◌≤◌, ◌<◌, ◌∷◌, Some, length, IfOk};
ghost use Rattle.tp_names.specs.Bytes.{site_bytes, mark_bytes, aaid_bytes};
ghost use Rattle.tp_names.specs.Reading.{read_site, read_mark, read_aaid};
ghost use Rattle.tp_bound.specs.declared.body.Body.{Body};
ghost use Rattle.tp_bound.specs.Bodies.{body_bytes, body_in};
ghost use Rattle.tp_bound.specs.Gathered.{Takes};

use std::alloc::Global;
use tp_names::{Aaid, Mark, NoMemory, Octets, SiteName, write_aaid, write_byte};

/// The text of a Keep.
pub fn keep_text(alloc: Global, aaid: &Aaid) -> Result<Octets, NoMemory>
    ensures is { IfOk result (λ text. text ≡ body_bytes (Body.Keep aaid.now)) }
    ensures read { IfOk result (λ text. body_in text ≡ Some (Body.Keep aaid.now)) }
    ensures some { IfOk result (λ text. 0 < length text) }
    ensures short { IfOk result (λ text. length text ≤ 36) }
{
    aaid_reads(aaid);
    let text = coded(alloc, 2, aaid)?;
    Ok(text)
}

/// The text of a Drop.
pub fn drop_text(alloc: Global, aaid: &Aaid) -> Result<Octets, NoMemory>
    ensures is { IfOk result (λ text. text ≡ body_bytes (Body.Drop aaid.now)) }
    ensures read { IfOk result (λ text. body_in text ≡ Some (Body.Drop aaid.now)) }
    ensures some { IfOk result (λ text. 0 < length text) }
    ensures short { IfOk result (λ text. length text ≤ 36) }
{
    aaid_reads(aaid);
    let text = coded(alloc, 3, aaid)?;
    Ok(text)
}

/// A code and the identifier of a tree.
pub fn coded(alloc: Global, code: u8, aaid: &Aaid) -> Result<Octets, NoMemory>
    ensures { IfOk result (λ text. text ≡ code ∷ aaid_bytes aaid.now) }
{
    let mut text = Octets::new(alloc);
    write_byte(alloc, code, &mut text)?;
    write_aaid(alloc, aaid, &mut text)?;
    Ok(text)
}

/// The identifier of a tree is read back from its bytes: its type allows no other.
#[tactic(auto, using(crate::proofs::TakenBodies::aaid_taken))]
pub fn aaid_reads(aaid: &Aaid)
    ensures reads { Takes read_aaid (aaid_bytes aaid.now) aaid.now }
    ensures short { length (aaid_bytes aaid.now) ≤ 35 }
{
    site_reads(&aaid.owner);
    mark_reads(aaid.mark);
}

#[tactic(auto, using(crate::proofs::TakenBodies::mark_taken))]
fn mark_reads(mark: Mark)
    ensures { Takes read_mark (mark_bytes mark) mark }
{}

#[tactic(auto, using(crate::proofs::TakenBodies::name_taken))]
fn site_reads(site: &SiteName)
    ensures reads { Takes read_site (site_bytes site.now) site.now }
    ensures short { length (site_bytes site.now) ≤ 17 }
{
    let _bytes = site.bytes();
}
