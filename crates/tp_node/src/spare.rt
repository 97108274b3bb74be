//! Transactions that are over, as memory for the next ones.
ghost use Rattle.std.specs.Prelude.{◌≡◌, IsTrue, IfOk};
ghost use Rattle.tp_commit.specs.Branch.{begun, has_superior, key_from};

use std::alloc::Global;
use tp_commit::Branch;
use tp_names::{Addr, NoMemory, NodeKey};

/// Transactions that are over, of which the memory is kept for the next ones.
#[derive(Drop)]
pub struct Spare {
    branches: Vec<Box<Branch>>,
}

impl Spare {
    /// There is none yet.
    pub fn new(alloc: Global) -> Spare {
        Spare {
            branches: Vec::new(alloc),
        }
    }

    /// One more is over. Where there is no memory to keep it, it is let go.
    pub(crate) fn put(&mut self, branch: Box<Branch>) {
        if self.branches.len() == self.branches.capacity() && self.branches.reserve(1).is_err() {
            return;
        }
        self.branches.push_reserved(branch);
    }

    /// One of them.
    pub(crate) fn take(&mut self) -> Option<Box<Branch>> {
        self.branches.pop()
    }

    /// A transaction of that node begins, in the memory of one of them where there is one: active, without a branch.
    pub(crate) fn begin(
        &mut self,
        alloc: Global,
        node: u16,
        key: &NodeKey,
        superior: &Option<Addr>,
    ) -> Result<Box<Branch>, NoMemory>
        requires { IsTrue (has_superior key.now superior.now) }
        ensures { IfOk result (λ branch. branch.value ≡ begun node (key_from key.now superior.now)) }
    {
        let Some(mut branch) = self.take() else {
            return first(alloc, node, key, superior);
        };
        branch.begin_anew(node, key, superior);
        Ok(branch)
    }
}

// A transaction of that node begins, in memory of its own.
fn first(
    alloc: Global,
    node: u16,
    key: &NodeKey,
    superior: &Option<Addr>,
) -> Result<Box<Branch>, NoMemory>
    requires { IsTrue (has_superior key.now superior.now) }
    ensures { IfOk result (λ branch. branch.value ≡ begun node (key_from key.now superior.now)) }
{
    let branch = Branch::begin(alloc, node, *key, *superior)?;
    Ok(Box::new(alloc, branch)?)
}
