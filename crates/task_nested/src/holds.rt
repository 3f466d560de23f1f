//! The application's kind of tasks, and what it holds.
ghost use Rattle.std.specs.Prelude.{◌≡◌, ℕ, Vec, Some, refl};
ghost use Rattle.std.specs.declared.alloc.Global.{Global};
ghost use Rattle.task_loops.specs.declared.fold.Part.{Part};
ghost use Rattle.task_loops.specs.declared.sums.Sum.{Sum};
ghost use Rattle.task_sort.specs.declared.sort.Sort.{Sort};
ghost use Rattle.task_nested.specs.Rows.{IsSortOf};
ghost use Rattle.task_nested.specs.Works.{gives_of, depth_of, GivesRows, GivesSum};
ghost use Rattle.task_nested.specs.declared.rows.Rows.{Rows};
ghost use Rattle.task_nested.specs.declared.work.Summary.{Summary};
ghost use Rattle.task_nested.specs.declared.work.Work.TheVariants.{Table, Sorted, Added};
ghost use Rattle.task_nested.specs.declared.work.Done.TheVariants.{Summaries, Numbers, Total};

use crate::rows::Rows;
use crate::work::{Done, Summary, Work};
use held_tasks::Holds;
use std::alloc::{AllocError, Global};
use task_loops::{Part, Sum, run_fold};
use task_sort::{Sort, run_sort};
use tasks::{Harts, Task, TaskKind};

impl<'p> TaskKind for Work<'p> {
    type Output = Done;

    type Error = AllocError;

    ghost gives = { gives_of };

    ghost fails = { λ _ _. ⊥ };

    ghost depth = { depth_of };
}

impl<'p> Holds<Part<Rows<'p>>> for Work<'p> {
    ghost held = { λ task. Table task };

    ghost same_depth = { λ _. refl };

    ghost same_outcome = { λ _ _ given. (given.0, given.2) };

    fn hold(task: Part<Rows<'p>>) -> Work<'p>
        ensures { result ≡ Table task.entry }
    {
        Work::Table(task)
    }

    fn output_of(output: Done) -> Option<Vec<Summary>>
        ensures { (task : Part Rows _) → gives_of (Table task) output
            → (own : Vec Summary Global) × (result ≡ Some own) × GivesRows task own }
    {
        match output {
            Done::Summaries(list) => Some(list),
            Done::Numbers(_) => None,
            Done::Total(_) => None,
        }
    }

    fn error_of(error: AllocError) -> AllocError
        ensures { result ≡ error }
    {
        error
    }
}

impl<'p> Holds<Sort<u64>> for Work<'p> {
    ghost held = { λ task. Sorted task };

    ghost same_depth = { λ _. refl };

    ghost same_outcome = { λ _ _ given. (given.0, given.2) };

    fn hold(task: Sort<u64>) -> Work<'p>
        ensures { result ≡ Sorted task }
    {
        Work::Sorted(task)
    }

    fn output_of(output: Done) -> Option<Vec<u64>>
        ensures { (task : Sort ℕ) → gives_of (Sorted task) output
            → (own : Vec ℕ Global) × (result ≡ Some own) × IsSortOf task.items own }
    {
        match output {
            Done::Numbers(list) => Some(list),
            Done::Summaries(_) => None,
            Done::Total(_) => None,
        }
    }

    fn error_of(error: AllocError) -> AllocError
        ensures { result ≡ error }
    {
        error
    }
}

impl<'p> Holds<Part<Sum<'p>>> for Work<'p> {
    ghost held = { λ task. Added task };

    ghost same_depth = { λ _. refl };

    ghost same_outcome = { λ _ _ given. (given.0, given.2) };

    fn hold(task: Part<Sum<'p>>) -> Work<'p>
        ensures { result ≡ Added task.entry }
    {
        Work::Added(task)
    }

    fn output_of(output: Done) -> Option<u64>
        ensures { (task : Part Sum _) → gives_of (Added task) output
            → (own : ℕ) × (result ≡ Some own) × GivesSum task own }
    {
        match output {
            Done::Total(sum) => Some(sum),
            Done::Summaries(_) => None,
            Done::Numbers(_) => None,
        }
    }

    fn error_of(error: AllocError) -> AllocError
        ensures { result ≡ error }
    {
        error
    }
}

impl<'p> Task for Work<'p> {
    fn run<H: Harts<Self>>(self, alloc: Global, harts: &mut H) -> Result<Done, AllocError> {
        match self {
            Work::Table(part) => {
                let list = run_fold::<Rows<'p>, Work<'p>, H>(alloc, harts, part)?;
                Ok(Done::Summaries(list))
            }
            Work::Sorted(sort) => {
                let list = run_sort::<u64, Work<'p>, H>(alloc, harts, sort)?;
                Ok(Done::Numbers(list))
            }
            Work::Added(part) => {
                let sum = run_fold::<Sum<'p>, Work<'p>, H>(alloc, harts, part)?;
                Ok(Done::Total(sum))
            }
        }
    }
}
