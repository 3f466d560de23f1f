//! The statements that a job runs.
ghost use Rattle.std.specs.Prelude.{◌≡◌, ◌↔◌, ◌<◌, ◌^◌, IsTrue};
ghost use Rattle.array_jobs.specs.Works.{work_of, sites_of};
ghost use Rattle.array_jobs.specs.Equal.{work_eq};

use array_tree::{Block, Name};
use site_counts::{sites_in_block, sites_in_turns};

/// The statements that a job runs.
#[derive(Clone, Copy, Debug, Drop)]
pub enum Work<'p> {
    /// A branch of a `par`.
    Branch(&'p Block),
    /// The work of a member of a `team` in one phase: the body for each of its own iterations, from `low` to before `high`.
    Member {
        var: &'p Name,
        low: i64,
        high: i64,
        body: &'p Block,
    },
}

impl PartialEq for Work<'_> {
    ghost use Rattle.array_tree.specs.EqualLaws.{equal_laws};
    ghost use Rattle.array_jobs.specs.Works.{work_of};
    ghost use Rattle.array_jobs.specs.Equal.{work_eq};
    ghost use Rattle.array_jobs.specs.EqualLaws.{work_same, work_refl};

    ghost eq = { λ a b. work_eq (work_of a) (work_of b) };

    ghost laws = { equal_laws work_of work_eq work_same work_refl };

    fn eq(&self, other: &Work<'_>) -> bool
        ensures tested { result ≡ work_eq (work_of self.now) (work_of other.now) }
        ensures same { IsTrue result ↔ (work_of self.now ≡ work_of other.now) }
    {
        same_work(self, other)
    }
}

// Equality itself, apart from the impl.
fn same_work(a: &Work, b: &Work) -> bool
    ensures { result ≡ work_eq (work_of a.now) (work_of b.now) }
{
    match (a, b) {
        (Work::Branch(body), Work::Branch(other)) => *body == *other,
        (
            Work::Member {
                var,
                low,
                high,
                body,
            },
            Work::Member {
                var: v,
                low: l,
                high: h,
                body: b,
            },
        ) => *var == *v && low == l && high == h && *body == *b,
        _ => false,
    }
}

/// The number of the work's sites, on both sides of each `if`. It must be below `2^32`.
pub fn sites_in(work: &Work) -> u32
    requires { sites_of (work_of work.now) < 2 ^ 32 }
    ensures { result ≡ sites_of (work_of work.now) }
{
    let sites = match work {
        Work::Branch(body) => sites_in_block(body),
        Work::Member {
            low,
            high,
            body,
            ..
        } => sites_in_turns(*low, *high, body),
    };
    sites as u32
}
