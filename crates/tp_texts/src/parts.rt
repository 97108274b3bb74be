//! Values that are read back from their bytes: each, since its type allows no others.
ghost use Rattle.std.specs.Prelude.{length};
ghost use Rattle.tp_names.specs.Bytes.{site_bytes, mark_bytes, aaid_bytes, branch_bytes, maybe_bytes, addr_bytes, key_bytes, child_bytes, each_child_bytes};
ghost use Rattle.tp_names.specs.Reading.{read_site, read_mark, read_aaid, read_branch, read_maybe, read_addr, read_key, read_child, read_many};
ghost use Rattle.tp_texts.specs.Texts.{Takes};

use tp_names::{Aaid, Addr, BranchId, Child, Mark, NodeKey, SiteName};

#[tactic(auto, using(crate::proofs::TakenValues::key_taken))]
pub(crate) fn key_reads(key: NodeKey)
    ensures { Takes read_key (key_bytes key) key }
{
    aaid_reads(key.aaid);
    maybe_branch_reads(key.branch);
}

#[tactic(auto, using(crate::proofs::TakenValues::no_branch_taken, crate::proofs::TakenValues::some_branch_taken))]
fn maybe_branch_reads(branch: Option<BranchId>)
    ensures { Takes (read_maybe read_branch) (maybe_bytes branch_bytes branch) branch }
{
    if let Some(branch) = branch {
        branch_reads(branch);
    }
}

#[tactic(auto, using(crate::proofs::TakenValues::child_at_taken, crate::proofs::TakenValues::none_left_taken))]
pub(crate) fn each_child_reads(children: &[Child])
    ensures { Takes (read_many read_child (length children.now)) (each_child_bytes children.now) children.now }
{
    for child in children {
        child_reads(*child);
    }
}

#[tactic(auto, using(crate::proofs::TakenValues::child_taken))]
fn child_reads(child: Child)
    ensures { Takes read_child (child_bytes child) child }
{
    addr_reads(child.addr);
    branch_reads(child.branch);
}

#[tactic(auto, using(crate::proofs::TakenValues::addr_taken))]
pub(crate) fn addr_reads(addr: Addr)
    ensures { Takes read_addr (addr_bytes addr) addr }
{
    site_reads(addr.site);
}

#[tactic(auto, using(crate::proofs::TakenValues::aaid_taken))]
pub(crate) fn aaid_reads(aaid: Aaid)
    ensures { Takes read_aaid (aaid_bytes aaid) aaid }
{
    site_reads(aaid.owner);
    mark_reads(aaid.mark);
}

#[tactic(auto, using(crate::proofs::TakenValues::branch_taken))]
pub(crate) fn branch_reads(branch: BranchId)
    ensures { Takes read_branch (branch_bytes branch) branch }
{
    site_reads(branch.superior);
    mark_reads(branch.mark);
}

#[tactic(auto, using(crate::proofs::TakenValues::mark_taken))]
pub(crate) fn mark_reads(mark: Mark)
    ensures { Takes read_mark (mark_bytes mark) mark }
{}

/// A site's name is one: its bytes say so.
#[tactic(auto, using(crate::proofs::TakenValues::name_taken))]
fn site_reads(site: SiteName)
    ensures { Takes read_site (site_bytes site) site }
{
    let _bytes = site.bytes();
}
