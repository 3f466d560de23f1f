//! The room for wishes that a run gives a scheduler.
ghost use Rattle.std.specs.Prelude.{◌≡◌};
ghost use Rattle.lone_hart.specs.Sites.{wishes_inside};

use sched_api::MOST_WISHES;
use site_counts::sites_in_statement;
use step_eval::Nested;

/// The greatest number of harts that a site can request: all but its home.
const WISHES_PER_SITE: u64 = 15;

/// The number of wishes that the sites inside the construct can have: 15 each, and at most `MOST_WISHES`.
///
/// Why: each site requests harts once, and its wishes are removed when it is unregistered. So no wish is dropped, and a
/// construct with no site inside allocates no room.
pub fn room_for_wishes(nested: &Nested) -> usize
    ensures { result ≡ wishes_inside nested.now }
{
    let inside = sites_in_statement(nested.construct).saturating_sub(1);
    let wishes = inside.saturating_mul(WISHES_PER_SITE);
    wishes.min(MOST_WISHES as u64) as usize
}
