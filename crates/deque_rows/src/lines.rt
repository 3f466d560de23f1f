//! The deques of all harts, one after another.
ghost use Rattle.std.specs.Prelude.{◌≡◌, ℕ, ◌-◌, ◌*◌, ◌<◌, false, List, length, map, slice_index_or, slice_set, IfOk};
ghost use Rattle.deque_rows.specs.Account.{blank, idle, joined, Determines};
ghost use Rattle.deque_rows.specs.Rows.{RowName, home_logs, home_names, row_at, owner_log};
ghost use Rattle.deque_rows.specs.Lines.{put, standing, end_log, end_name};

use crate::ends::StealingEnd;
use crate::hart::HartRows;
use std::alloc::AllocError;

impl HartRows {
    // A further stealing end of this hart's own deque at this index.
    fn lend_own(&mut self, at: usize) -> Result<StealingEnd, AllocError>
        requires at { at < 3 }
        requires parts { 1 < (slice_index_or (home_logs self.old) at idle).parts }
        ensures cut { IfOk result
            (λ end. home_logs self.new
            ≡ slice_set (home_logs self.old) at
            (record (slice_index_or (home_logs self.old) at idle) {
              parts = (slice_index_or (home_logs self.old) at idle).parts - 1;
            })) }
        ensures blank { IfOk result (λ end. end_log end ≡ blank 1 false) }
        ensures of { IfOk result
            (λ end. (n : RowName) → end_name end ≡ slice_index_or (home_names self.old) at n) }
        ensures names { home_names self.new ≡ home_names self.old }
        ensures standing { standing self.new ≡ standing self.old }
    {
        self.own[at].another()
    }

    // Returns a stealing end to this hart's own deque at this index.
    fn give_own(&mut self, at: usize, end: StealingEnd)
        requires at { at < 3 }
        requires of { (n : RowName) → end_name end ≡ slice_index_or (home_names self.old) at n }
        ensures joined { home_logs self.new
            ≡ slice_set (home_logs self.old) at
            (joined (slice_index_or (home_logs self.old) at idle) (end_log end)) }
        ensures names { home_names self.new ≡ home_names self.old }
        ensures standing { standing self.new ≡ standing self.old }
    {
        self.own[at].absorb(end);
    }

    // Looks at this hart's own deque at this index, when all its stealing ends are back.
    fn look_own(&mut self, at: usize)
        requires at { at < 3 }
        requires whole { (slice_index_or (home_logs self.old) at idle).parts ≡ 64 }
        ensures determines { (items : List ℕ)
            × Determines (slice_index_or (home_logs self.old) at idle) items }
        ensures logs { home_logs self.new ≡ home_logs self.old }
    {
        self.own[at].look();
    }
}

/// A further stealing end of the deque at this index.
pub(crate) fn lend(rows: &mut [HartRows], row: usize) -> Result<StealingEnd, AllocError>
    requires row { row < 3 * length rows.old }
    requires parts { 1 < (owner_log rows.old row).parts }
    ensures cut { IfOk result
        (λ end. map home_logs rows.new
        ≡ put (map home_logs rows.old) row (record (owner_log rows.old row) {
          parts = (owner_log rows.old row).parts - 1;
        })) }
    ensures blank { IfOk result (λ end. end_log end ≡ blank 1 false) }
    ensures of { IfOk result
        (λ end. (n : RowName) → end_name end ≡ row_at n (map home_names rows.old) row) }
    ensures names { map home_names rows.new ≡ map home_names rows.old }
    ensures standing { map standing rows.new ≡ map standing rows.old }
{
    rows[row / 3].lend_own(row % 3)
}

/// Returns a stealing end to the home of the deque at this index.
pub(crate) fn give_back(rows: &mut [HartRows], row: usize, end: StealingEnd)
    requires row { row < 3 * length rows.old }
    requires of { (n : RowName) → end_name end ≡ row_at n (map home_names rows.old) row }
    ensures joined { map home_logs rows.new
        ≡ put (map home_logs rows.old) row (joined (owner_log rows.old row) (end_log end)) }
    ensures names { map home_names rows.new ≡ map home_names rows.old }
    ensures standing { map standing rows.new ≡ map standing rows.old }
{
    rows[row / 3].give_own(row % 3, end);
}

/// Looks at the deque at this index, when all its stealing ends are back.
pub(crate) fn look(rows: &mut [HartRows], row: usize)
    requires row { row < 3 * length rows.old }
    requires whole { (owner_log rows.old row).parts ≡ 64 }
    ensures determines { (items : List ℕ) × Determines (owner_log rows.old row) items }
    ensures logs { map home_logs rows.new ≡ map home_logs rows.old }
{
    rows[row / 3].look_own(row % 3);
}
