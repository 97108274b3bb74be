//! How many bytes the text of a record has, told without memory.
ghost use Rattle.std.specs.Prelude.{◌≡◌, ◌≤◌, ◌<◌, ◌+◌, ◌^◌, length};
ghost use Rattle.tp_names.specs.Bytes.{site_bytes, addr_bytes, branch_bytes, key_bytes, each_child_bytes};
ghost use Rattle.tp_logrec.specs.RecordText.{superior_bytes, children_bytes};
ghost use Rattle.tp_journal.specs.Records.{HasText, text, version_of};

use tp_logrec::LogRec;
use tp_names::{Addr, BranchId, Child, Children, NodeKey, SiteName};

fn site_len(site: &SiteName) -> usize
    ensures exact { result ≡ length (site_bytes site.now) }
    ensures small { result ≤ 17 }
{
    site.bytes().len() + 1
}

fn addr_len(addr: &Addr) -> usize
    ensures exact { result ≡ length (addr_bytes addr.now) }
    ensures small { result ≤ 19 }
{
    site_len(&addr.site) + 2
}

fn branch_len(branch: &BranchId) -> usize
    ensures exact { result ≡ length (branch_bytes branch.now) }
    ensures small { result ≤ 35 }
{
    site_len(&branch.superior) + 18
}

fn key_len(key: &NodeKey) -> usize
    ensures exact { result ≡ length (key_bytes key.now) }
    ensures small { result ≤ 71 }
{
    let branch = match &key.branch {
        None => 0,
        Some(branch) => branch_len(branch),
    };
    site_len(&key.aaid.owner) + 19 + branch
}

fn superior_len(superior: &Option<Addr>) -> usize
    ensures exact { result ≡ length (superior_bytes superior.now) }
    ensures small { result ≤ 19 }
{
    match superior {
        None => 0,
        Some(addr) => addr_len(addr),
    }
}

fn each_child_len(children: &[Child]) -> usize
    requires { length (each_child_bytes children.now) < 2 ^ 16 }
    ensures { result ≡ length (each_child_bytes children.now) }
{
    let mut len = 0;
    for child in children {
        len += addr_len(&child.addr) + branch_len(&child.branch);
    }
    len
}

fn children_len(wide: bool, children: &Children) -> usize
    requires { length (each_child_bytes children.now) < 2 ^ 16 }
    ensures exact { result ≡ length (children_bytes (version_of wide) children.now) }
    ensures small { result ≤ 2 ^ 16 + 1 }
{
    let count = if wide { 2 } else { 1 };
    count + each_child_len(children.as_slice())
}

/// The length of a record's text in the version told.
#[inline(always)]
pub fn text_len(wide: bool, rec: &LogRec) -> usize
    requires { HasText wide rec.now }
    ensures exact { result ≡ length (text wide rec.now) }
    ensures small { result < 2 ^ 17 }
{
    match rec {
        LogRec::Boot { .. } => 9,
        LogRec::Ready {
            key,
            superior,
            children,
            ..
        } => 3 + key_len(key) + addr_len(superior) + children_len(wide, children),
        LogRec::Commit {
            key,
            superior,
            children,
            ..
        } => 3 + key_len(key) + superior_len(superior) + children_len(wide, children),
        LogRec::Damage {
            key,
            superior,
            owed,
            ..
        } => 5 + key_len(key) + superior_len(superior) + children_len(wide, owed),
        LogRec::Heuristic { key, .. } => 4 + key_len(key),
        LogRec::End { key, .. } => 4 + key_len(key),
    }
}
