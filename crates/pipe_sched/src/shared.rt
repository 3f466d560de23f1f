//! Pipes that harts share.
ghost use Rattle.std.specs.Prelude.{◌≡◌, IfOk};

use crate::pipe::Pipe;
use crate::shown::Shown;
use sched_api::take_lock;
use std::alloc::{AllocError, Global};
use std::marker::Model;
use std::sync::{Mutex, MutexGuard, Wait};
use step_eval::Nested;

/// A pipe that harts share until it is handed out. Beside the lock are its construct, which never changes, and the state that
/// the pipe showed at the end of the last call under the lock.
#[derive(Drop)]
pub struct SharedPipe<'p> {
    lock: Mutex<Option<Pipe<'p>>>,
    nested: Nested<'p>,
    shown: Shown,
}

impl<'p> Model for SharedPipe<'p> {
    ghost use Rattle.std.specs.Coded.{codes};
    ghost use Rattle.array_tree.specs.contracts.tree.Arrays as arrays_type;
    ghost use Rattle.array_tree.specs.contracts.tree.Stmt as stmt_type;
    ghost use Rattle.step_eval.specs.Nests.{NestedParts};

    ghost Value = { NestedParts };

    ghost coded = { Prim.hlevel (codes, arrays_type.the_row.coded, stmt_type.the_row.coded) };

    ghost view = { λ shared. shared.nested };
}

impl<'p> SharedPipe<'p> {
    /// Puts the pipe under a lock, and a copy of its construct beside it.
    ///
    /// # Errors
    ///
    /// `AllocError`, as the contract allows.
    ///
    /// # Memory
    ///
    /// This implementation does not allocate.
    pub fn new(_alloc: Global, pipe: Pipe<'p>) -> Result<SharedPipe<'p>, AllocError>
        ensures { IfOk result (λ shared. shared ≡ pipe.entry.state.nested) }
    {
        let nested = pipe.nested().copy()?;
        let shown = Shown::new(&pipe);
        Ok(SharedPipe {
            lock: Mutex::new(Some(pipe)),
            nested,
            shown,
        })
    }

    /// The copy of the pipe's construct, with the variables and the store before it. Does not block.
    pub fn nested(&self) -> &Nested<'p>
        ensures { result.now ≡ self.now }
    {
        &self.nested
    }

    // Takes the lock, with the pipe under it until that is handed out.
    pub(crate) fn locked<R: Wait>(&self, rt: &R) -> MutexGuard<'_, Option<Pipe<'p>>> {
        take_lock(&self.lock, rt)
    }

    // The state that the pipe showed at the end of the last call under the lock.
    pub(crate) fn shown(&self) -> &Shown {
        &self.shown
    }
}
