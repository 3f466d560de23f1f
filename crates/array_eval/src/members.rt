//! How a team deals its iterations to its members.
ghost use Rattle.std.specs.Prelude.{◌≡◌, ◌<◌, ◌≤◌};
ghost use Rattle.array_meaning.specs.Work.{span};
ghost use Rattle.array_meaning.specs.Members.{first_of, start_of};

/// The count of numbers from `low` to before `high`.
pub fn span(low: i64, high: i64) -> u64
    ensures { result ≡ span low high }
{
    if low < high { low.abs_diff(high) } else { 0 }
}

// The first iteration of a member, counted from the first of the team; the number of iterations for the member after the last.
#[tactic(auto, using(crate::proofs::StartLemmas::first_within))]
fn first_iteration(iterations: u64, members: u64, member: u64) -> u64
    requires some { 0 < members }
    requires inside { member ≤ members }
    ensures first { result ≡ first_of iterations members member }
    ensures within { result ≤ iterations }
{
    (u128::from(iterations) * u128::from(member) / u128::from(members)) as u64
}

/// The first value of the variable for a member of a team; the values of the member before it end there.
///
/// The team must have a member, `members` at least 1, and `member` is at most `members`: for that one the result is the end of
/// all iterations. The checker's walk and the jobs both call it.
pub fn start_of_member(low: i64, high: i64, members: u64, member: u64) -> i64
    requires some { 0 < members }
    requires inside { member ≤ members }
    ensures { result ≡ start_of low high members member }
{
    let first = first_iteration(span(low, high), members, member);
    (i128::from(low) + i128::from(first)) as i64
}
