//! How many parts a loop is cut into.
ghost use Rattle.std.specs.Prelude.{◌≤◌};

/// How often a loop on so many harts is cut in halves, at most 8 times: some four parts a hart, so that a hart that has done its
/// part finds another.
pub(crate) fn cuts_for(harts: u8) -> u8
    ensures { result ≤ 8 }
{
    match harts {
        0..=1 => 0,
        2 => 3,
        3..=4 => 4,
        5..=8 => 5,
        9..=16 => 6,
        17..=32 => 7,
        _ => 8,
    }
}
