//! The claim counters of a team.
ghost use Rattle.std.specs.Prelude.{◌↔◌, IsTrue};
ghost use Rattle.loop_team.specs.Rows.{RowsFit};

use claim_words::ClaimTable;
use step_eval::Nested;

/// Whether the table has, from this counter on, a counter for each phase of the construct, with as many members as the
/// construct has.
pub fn rows_fit(claims: &ClaimTable, row: u16, nested: &Nested) -> bool
    ensures { IsTrue result ↔ RowsFit claims.now.counts.items row nested.now }
{
    let counts = claims.counts();
    let first = usize::from(row);
    let phases = usize::from(nested.phases());
    let members = nested.members();
    if counts.len() < first + phases {
        return false;
    }
    for phase in 0..phases {
        if counts[first + phase] != members {
            return false;
        }
    }
    true
}
