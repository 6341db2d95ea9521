//! A thread's log with those of all threads below it.
ghost use Rattle.std.specs.Prelude.{◌≡◌, ◌∷◌, ◌++◌, IfOk};
ghost use Rattle.run_record.specs.Flatten.{all_logs};

use bsan_ids::{Copied, NoMemory};
use history::ThreadLog;
use std::marker::Model;

/// A thread's log and those of the threads that it started. A contract sees the list of its logs:
/// the thread's own, and then those of each child's tree.
#[derive(Drop)]
pub struct ThreadTree {
    pub log: ThreadLog,
    pub children: Vec<ThreadTree>,
}

impl Model for ThreadTree {
    ghost use Rattle.std.specs.Prelude.{List, ◌∷◌, ℕ, length};
    ghost use Rattle.std.proofs.Common.{arith};
    ghost use Rattle.history.specs.declared.log.ThreadLog.{ThreadLog};
    ghost use Rattle.run_record.specs.Flatten.{all_logs, most_le-length-all_logs};

    ghost Value = { List ThreadLog };

    ghost view = { λ a. a.log ∷ all_logs a.children.items };

    ghost size = { length };

    ghost size_decreases = { λ a h. Prim.omega (arith, most_le-length-all_logs a.children.items) };
}

impl ThreadTree {
    /// The tree of a thread's log over its children's trees.
    pub fn new(log: ThreadLog, children: Vec<ThreadTree>) -> ThreadTree
        ensures { result ≡ log ∷ all_logs children.items }
    {
        ThreadTree { log, children }
    }

    #[cycle(logs)]
    /// Takes the tree apart and appends its logs.
    ///
    /// # Errors
    ///
    /// `NoMemory`: out of memory. The tree is dropped.
    pub fn into_logs(self, into: &mut Vec<ThreadLog>) -> Result<(), NoMemory>
        ensures { IfOk result (λ done. into.new.items ≡ into.old.items ++ self) }
    {
        let ThreadTree { log, children } = self;
        into.push(log)?;
        append_logs(children, into)
    }
}

#[cycle(logs)]
fn append_logs(children: Vec<ThreadTree>, into: &mut Vec<ThreadLog>) -> Result<(), NoMemory>
    ensures { IfOk result (λ done. into.new.items ≡ into.old.items ++ all_logs children.items) }
{
    for child in children {
        child.into_logs(into)?;
    }
    Ok(())
}

impl Copied for ThreadTree {
    fn copy(&self) -> Result<ThreadTree, NoMemory> {
        copy_tree(self)
    }
}

#[cycle(copies)]
fn copy_tree(tree: &ThreadTree) -> Result<ThreadTree, NoMemory>
    ensures { IfOk result (λ copy. copy ≡ tree.now) }
{
    Ok(ThreadTree {
        log: tree.log.copy()?,
        children: copy_trees(&tree.children)?,
    })
}

#[cycle(copies)]
fn copy_trees(trees: &Vec<ThreadTree>) -> Result<Vec<ThreadTree>, NoMemory>
    ensures { IfOk result (λ copies. copies.items ≡ trees.now.items) }
{
    let mut copies = Vec::new(*trees.allocator());
    for tree in trees.as_slice() {
        copies.push(copy_tree(tree)?)?;
    }
    Ok(copies)
}
