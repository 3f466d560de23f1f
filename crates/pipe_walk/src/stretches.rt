//! Whether the text shows that no two pieces of a `team` cross, by the stretches of cells that its members touch.
ghost use Rattle.std.specs.Prelude.{◌≡◌, ◌↔◌, ℕ, ◌<◌, length, IsTrue};
ghost use Rattle.std.specs.Bool.{OnTrue};
ghost use Rattle.array_tree.specs.Trees.{sequence_of, sequences_of};
ghost use Rattle.array_meaning.specs.Work.{sequence_work};
ghost use Rattle.touch_bounds.specs.Ranges.{bounds_of};
ghost use Rattle.touch_bounds.specs.Touches.{DoClash, Includes, Widens};
ghost use Rattle.pipe_walk.specs.Inside.Stretches.{AreTurnsNoted, AreClear, IsMemberAlwaysClear, HasNeverCrossing};
ghost use Rattle.pipe_walk.specs.Inside.Teams.{team_rounds};

use array_eval::{Layout, start_of_member};
use array_tree::{Block, Blocks};
use site_walk::Turns;
use std::alloc::Global;
use touch_bounds::{Interval, Ranges, Stretch, Touch, UNTOUCHED, note_block};

// Whether the stretches have a common cell.
fn meet(one: Stretch, other: Stretch) -> bool
    ensures { IsTrue result ↔ ((cell : ℕ) × Includes one cell × Includes other cell) }
{
    one.from.max(other.from) < one.to.min(other.to)
}

// Whether one writes a cell that the other touches.
fn clash(one: Touch, other: Touch) -> bool
    ensures { IsTrue result ↔ DoClash one other }
{
    meet(one.written, other.read)
        || meet(one.written, other.written)
        || meet(one.read, other.written)
}

// Whether the recorded stretches of one clash with those of the other on no array.
fn are_clear(layout: &Layout, one: &[Touch], other: &[Touch]) -> bool
    requires one { length one.now ≡ length layout.now }
    requires other { length other.now ≡ length layout.now }
    ensures { OnTrue result (AreClear layout.now one.now other.now) }
{
    for number in 0..layout.count() {
        if clash(one[number], other[number]) {
            return false;
        }
    }
    true
}

// Records a block that runs for each of these turns, and so for any of them. Returns whether all is known.
fn note_turns<'s>(
    layout: &Layout,
    body: &'s Block,
    turns: Turns<'s>,
    ranges: &'s Ranges<'s>,
    touches: &mut [Touch],
) -> bool
    requires { length touches.old ≡ length layout.now }
    ensures wider { Widens touches.old touches.new }
    ensures noted { OnTrue result
        (AreTurnsNoted layout.now touches.new (bounds_of ranges.now) turns.entry.var.now turns.entry.low
        turns.entry.high (sequence_work (sequence_of body.now))) }
{
    if turns.low >= turns.high {
        return true;
    }
    let inside = Ranges::Loop {
        name: turns.var,
        within: Interval {
            least: turns.low,
            greatest: turns.high - 1,
        },
        outer: ranges,
    };
    note_block(layout, body, &inside, touches)
}

// Whether the touches of a member's own turns in a phase are known, and clash with none of the earlier phases' touches by the
// members above it. If so, it also records the touches of their turns in this phase.
fn phase_is_clear<'s>(
    layout: &Layout,
    phase: &'s Block,
    own_turns: Turns<'s>,
    turns_above: Turns<'s>,
    ranges: &'s Ranges<'s>,
    own: &mut [Touch],
    above: &mut [Touch],
) -> bool
    requires own { length own.old ≡ length layout.now }
    requires above { length above.old ≡ length layout.now }
    ensures wider { Widens above.old above.new }
    ensures own { OnTrue result
        (AreTurnsNoted layout.now own.new (bounds_of ranges.now) own_turns.entry.var.now
        own_turns.entry.low own_turns.entry.high (sequence_work (sequence_of phase.now))) }
    ensures clear { OnTrue result (AreClear layout.now own.new above.old) }
    ensures above { OnTrue result
        (AreTurnsNoted layout.now above.new (bounds_of ranges.now) turns_above.entry.var.now
        turns_above.entry.low turns_above.entry.high (sequence_work (sequence_of phase.now))) }
{
    own.fill(UNTOUCHED);
    if !note_turns(layout, phase, own_turns, ranges, own) {
        return false;
    }
    if !are_clear(layout, own, above) {
        return false;
    }
    note_turns(layout, phase, turns_above, ranges, above)
}

// Whether the text shows that a member's touches clash, in each phase, with none of the earlier phases' touches by the members
// above it.
fn member_is_clear<'s>(
    layout: &Layout,
    phases: &'s Blocks,
    turns: Turns<'s>,
    members: u64,
    member: u64,
    ranges: &'s Ranges<'s>,
    own: &mut [Touch],
    above: &mut [Touch],
) -> bool
    requires member { member < members }
    requires own { length own.old ≡ length layout.now }
    requires above { length above.old ≡ length layout.now }
    ensures { OnTrue result
        (IsMemberAlwaysClear layout.now (bounds_of ranges.now) member
        (team_rounds (sequences_of phases.now) turns.entry members)) }
{
    let end = start_of_member(turns.low, turns.high, members, member + 1);
    let own_turns = Turns {
        var: turns.var,
        low: start_of_member(turns.low, turns.high, members, member),
        high: end,
    };
    let turns_above = Turns {
        var: turns.var,
        low: end,
        high: start_of_member(turns.low, turns.high, members, members),
    };
    above.fill(UNTOUCHED);
    for phase in &phases.blocks {
        if !phase_is_clear(layout, phase, own_turns, turns_above, ranges, own, above) {
            return false;
        }
    }
    true
}

// Whether the text shows that of each member.
fn each_is_clear<'s>(
    layout: &Layout,
    phases: &'s Blocks,
    turns: Turns<'s>,
    members: u64,
    ranges: &'s Ranges<'s>,
    own: &mut [Touch],
    above: &mut [Touch],
) -> bool
    requires own { length own.old ≡ length layout.now }
    requires above { length above.old ≡ length layout.now }
    ensures { OnTrue result
        (HasNeverCrossing layout.now (bounds_of ranges.now)
        (team_rounds (sequences_of phases.now) turns.entry members)) }
{
    for member in 0..members {
        if !member_is_clear(layout, phases, turns, members, member, ranges, own, above) {
            return false;
        }
    }
    true
}

/// Whether the text shows that no two pieces of a `team` cross, for any values of the variables between their bounds. For each
/// member and phase, array by array, the member touches a stretch into which no member above it wrote in the earlier phases,
/// and writes into no stretch that such a member touched. If the result is false, they may still not cross, or an allocation
/// failed.
///
/// The time is twice the text of the phases for each member, for any number of turns: for each member, all members above it are
/// taken together as one range of turns.
pub(crate) fn members_are_clear<'s>(
    alloc: Global,
    layout: &Layout,
    phases: &'s Blocks,
    turns: Turns<'s>,
    members: u64,
    ranges: &'s Ranges<'s>,
) -> bool
    ensures { OnTrue result
        (HasNeverCrossing layout.now (bounds_of ranges.now)
        (team_rounds (sequences_of phases.now) turns.entry members)) }
{
    let Ok(mut own) = vec![in alloc; UNTOUCHED; layout.count()] else {
        return false;
    };
    let Ok(mut above) = vec![in alloc; UNTOUCHED; layout.count()] else {
        return false;
    };
    each_is_clear(layout, phases, turns, members, ranges, &mut own, &mut above)
}
