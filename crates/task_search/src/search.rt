//! The search.
ghost use Rattle.std.specs.Prelude.{◌≡◌, ◌≤◌, IsOk, IfOk, IfErr, alloc_error, None, refl};
ghost use Rattle.std.specs.List.{AllZip, find, fold};
ghost use Rattle.std.specs.Option.{option_copied, option_or};
ghost use Rattle.task_search.specs.Preorder.{preorder};
ghost use Rattle.task_search.specs.Searches.{IsSearchOf};

use crate::tree::{Tree, Wanted};
use held_tasks::{Holds, fork_join_as};
use std::alloc::{AllocError, Global};
use tasks::{Harts, Task, TaskKind};

/// A search of a tree. The trees below its root are tasks inside it, those below their roots are tasks inside these, and so on,
/// `levels` levels deep. One hart searches each tree below the last level.
#[derive(Drop)]
pub struct Search<'t, T, W> {
    pub tree: &'t Tree<T>,
    pub wanted: &'t W,
    pub levels: u8,
}

// The output is the first value that is wanted, in preorder. The tasks have no error of their own.
impl<'t, T, W: Wanted<T>> TaskKind for Search<'t, T, W> {
    type Output = Option<&'t T>;

    type Error = AllocError;

    ghost gives = { λ task output. option_copied output
        ≡ find (W.wants task.wanted.now) (preorder task.tree.now) };

    ghost fails = { λ _ _. ⊥ };

    ghost depth = { λ task. task.levels };
}

/// Returns the first value that is wanted, in preorder. This hart alone searches the tree, and calls itself for each tree below a
/// node.
pub fn first_in<'t, T, W: Wanted<T>>(tree: &'t Tree<T>, wanted: &W) -> Option<&'t T>
    ensures { option_copied result ≡ find (W.wants wanted.now) (preorder tree.now) }
{
    if wanted.wants(&tree.value) {
        return Some(&tree.value);
    }
    for child in &tree.children {
        if let Some(found) = first_in(child, wanted) {
            return Some(found);
        }
    }
    None
}

/// Returns the first value that is wanted, in preorder. It runs inside tasks of any kind that holds searches.
///
/// # Errors
///
/// An allocation failure.
///
/// # Memory
///
/// For each task with levels left, a list of tasks and a list of outputs, both with an entry for each tree below its root.
pub fn run_search<'t, T, W: Wanted<T>, V: Holds<Search<'t, T, W>>, H: Harts<V>>(
    alloc: Global,
    harts: &mut H,
    task: Search<'t, T, W>,
) -> Result<Option<&'t T>, AllocError>
    requires { task.levels ≤ H.levels harts.old }
    ensures output { IfOk result (λ found. option_copied found
        ≡ find (W.wants task.entry.wanted.now) (preorder task.entry.tree.now)) }
    ensures error { IfErr result (λ error. error ≡ alloc_error) }
    ensures alone { task.entry.levels ≡ 0 → IsOk result }
    ensures levels { H.levels harts.new ≡ H.levels harts.old }
{
    let Search {
        tree,
        wanted,
        levels,
    } = task;
    if levels == 0 || tree.children.is_empty() {
        return Ok(first_in(tree, wanted));
    }
    if wanted.wants(&tree.value) {
        return Ok(Some(&tree.value));
    }
    let searches = searches_of(alloc, tree.children.as_slice(), wanted, levels - 1)?;
    let found = fork_join_as::<Search<'t, T, W>, V, H>(alloc, harts, searches)?;
    Ok(first_of(found))
}

// A search of each tree.
fn searches_of<'t, T, W>(
    alloc: Global,
    trees: &'t [Tree<T>],
    wanted: &'t W,
    levels: u8,
) -> Result<Vec<Search<'t, T, W>>, AllocError>
    ensures { IfOk result (λ searches.
        AllZip (IsSearchOf wanted.now levels) trees.now searches.items) }
{
    let mut searches = Vec::with_capacity(alloc, trees.len())?;
    for tree in trees {
        searches.push_reserved(Search {
            tree,
            wanted,
            levels,
        });
    }
    Ok(searches)
}

// The first value that was found, in the order of the list.
fn first_of<'t, T>(found: Vec<Option<&'t T>>) -> Option<&'t T>
    ensures { result ≡ fold option_or None found.entry.items }
{
    let mut first = None;
    for one in &found {
        first = first.or(*one);
    }
    first
}

// The library's own kind of tasks, so that it runs without an application.
impl<'t, T, W: Wanted<T>> Holds<Search<'t, T, W>> for Search<'t, T, W> {
    ghost held = { λ task. task };

    ghost same_depth = { λ _. refl };

    ghost same_outcome = { λ _ output given. (output, given) };

    fn hold(task: Search<'t, T, W>) -> Search<'t, T, W> {
        task
    }

    fn output_of(output: Option<&'t T>) -> Option<Option<&'t T>> {
        Some(output)
    }

    fn error_of(error: AllocError) -> AllocError {
        error
    }
}

impl<'t, T, W: Wanted<T>> Task for Search<'t, T, W> {
    fn run<H: Harts<Self>>(
        self,
        alloc: Global,
        harts: &mut H,
    ) -> Result<Option<&'t T>, AllocError> {
        run_search::<T, W, Search<'t, T, W>, H>(alloc, harts, self)
    }
}
