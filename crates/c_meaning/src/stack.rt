ghost use Rattle.std.specs.Prelude.{◌≡◌, ◌∷◌, [], OnOk};
ghost use Rattle.c_meaning.specs.Stack.{pending, Popped};

use crate::task::Task;
use std::alloc::{AllocError, Global};

/// Pending work, the last first.
#[derive(Drop)]
pub(crate) struct Tasks<'p> {
    items: Vec<Task<'p>>,
}

impl<'p> Tasks<'p> {
    /// No work.
    pub(crate) fn new(alloc: Global) -> Self
        ensures { pending result ≡ [] }
    {
        Tasks {
            items: Vec::new(alloc),
        }
    }

    /// A task comes first.
    pub(crate) fn push(&mut self, task: Task<'p>) -> Result<(), AllocError>
        ensures { OnOk result (pending self.new ≡ task.entry ∷ pending self.old) }
    {
        self.items.push(task)?;
        Ok(())
    }

    /// The next task is taken.
    pub(crate) fn pop(&mut self) -> Option<Task<'p>>
        ensures { Popped (pending self.old) (pending self.new) result }
    {
        self.items.pop()
    }
}
