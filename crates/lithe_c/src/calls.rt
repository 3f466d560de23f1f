//! Each call of a hart: it takes the block from C's pointer, makes the call on it, and returns the block to the pointer.
ghost use Rattle.std.specs.Prelude.{◌≡◌};
ghost use Rattle.open_board.specs.Calls.{Registers};
ghost use Rattle.open_board.specs.Checked.{ChecksRegisterWishing, ChecksEnd, ChecksYieldLast, ChecksWithdraw, ChecksReadHome, ChecksReadSite, ChecksRequest, ChecksEnter, ChecksYield, ChecksClose, ChecksLook, ChecksUnregister};
ghost use Rattle.open_board.specs.Views.{owner_of};
ghost use Rattle.lithe_c.specs.Answers.{board_of, view_of};

use crate::hart::LitheHart;
use open_board::{Counts, Entered, Finish, NotRegistered, Refused, Seen, TooDeep, Withdrawn};

pub(crate) fn registered(hart: LitheHart, none: ()) -> (LitheHart, Result<u16, TooDeep>)
    ensures board { board_of result.0.lent ≡ board_of hart.lent }
    ensures does { Registers (view_of hart.lent) result.1 (view_of result.0.lent) }
{
    let mut lent = hart.into_box();
    let made = lent.seated.register();
    (LitheHart::of_box(lent), made)
}

pub(crate) fn registered_wishing(
    hart: LitheHart,
    count: u8,
) -> (LitheHart, Result<u16, NotRegistered>)
    ensures board { board_of result.0.lent ≡ board_of hart.lent }
    ensures does { ChecksRegisterWishing (board_of hart.lent).size (view_of hart.lent) count result.1 (view_of result.0.lent) }
{
    let mut lent = hart.into_box();
    let made = lent.seated.register_wishing(count);
    (LitheHart::of_box(lent), made)
}

pub(crate) fn requested(hart: LitheHart, count: u8) -> (LitheHart, Result<(), Refused>)
    ensures board { board_of result.0.lent ≡ board_of hart.lent }
    ensures does { ChecksRequest (board_of hart.lent).size (view_of hart.lent) count result.1 (view_of result.0.lent) }
{
    let mut lent = hart.into_box();
    let made = lent.seated.request(count);
    (LitheHart::of_box(lent), made)
}

pub(crate) fn entered(hart: LitheHart, site: u16) -> (LitheHart, Result<Entered, Refused>)
    ensures board { board_of result.0.lent ≡ board_of hart.lent }
    ensures does { ChecksEnter (board_of hart.lent).size (view_of hart.lent) site result.1 (view_of result.0.lent) }
{
    let mut lent = hart.into_box();
    let made = lent.seated.try_enter(site);
    (LitheHart::of_box(lent), made)
}

pub(crate) fn yielded(hart: LitheHart, none: ()) -> (LitheHart, Result<(), Refused>)
    ensures board { board_of result.0.lent ≡ board_of hart.lent }
    ensures does { ChecksYield (view_of hart.lent) result.1 (view_of result.0.lent) }
{
    let mut lent = hart.into_box();
    let made = lent.seated.yield_hart();
    (LitheHart::of_box(lent), made)
}

pub(crate) fn closed(hart: LitheHart, none: ()) -> (LitheHart, Result<(), Refused>)
    ensures board { board_of result.0.lent ≡ board_of hart.lent }
    ensures does { ChecksClose (view_of hart.lent) result.1 (view_of result.0.lent) }
{
    let mut lent = hart.into_box();
    let made = lent.seated.close();
    (LitheHart::of_box(lent), made)
}

pub(crate) fn looked(hart: LitheHart, none: ()) -> (LitheHart, Result<Seen, Refused>)
    ensures board { board_of result.0.lent ≡ board_of hart.lent }
    ensures does { ChecksLook (view_of hart.lent) result.1 (view_of result.0.lent) }
{
    let mut lent = hart.into_box();
    let made = lent.seated.see_empty();
    (LitheHart::of_box(lent), made)
}

pub(crate) fn unregistered(hart: LitheHart, none: ()) -> (LitheHart, Result<(), Refused>)
    ensures board { board_of result.0.lent ≡ board_of hart.lent }
    ensures does { ChecksUnregister (view_of hart.lent) result.1 (view_of result.0.lent) }
{
    let mut lent = hart.into_box();
    let made = lent.seated.unregister();
    (LitheHart::of_box(lent), made)
}

pub(crate) fn finished(hart: LitheHart, none: ()) -> (LitheHart, Result<Finish, Refused>)
    ensures board { board_of result.0.lent ≡ board_of hart.lent }
    ensures does { ChecksEnd (view_of hart.lent) result.1 (view_of result.0.lent) }
{
    let mut lent = hart.into_box();
    let made = lent.seated.end_if_empty();
    (LitheHart::of_box(lent), made)
}

pub(crate) fn yielded_last(hart: LitheHart, none: ()) -> (LitheHart, Result<bool, Refused>)
    ensures board { board_of result.0.lent ≡ board_of hart.lent }
    ensures does { ChecksYieldLast (view_of hart.lent) result.1 (view_of result.0.lent) }
{
    let mut lent = hart.into_box();
    let made = lent.seated.yield_last();
    (LitheHart::of_box(lent), made)
}

pub(crate) fn withdrawn(hart: LitheHart, count: u8) -> (LitheHart, Result<Withdrawn, Refused>)
    ensures board { board_of result.0.lent ≡ board_of hart.lent }
    ensures does { ChecksWithdraw (view_of hart.lent) count result.1 (view_of result.0.lent) }
{
    let mut lent = hart.into_box();
    let made = lent.seated.withdraw(count);
    (LitheHart::of_box(lent), made)
}

pub(crate) fn home_read(hart: LitheHart, none: ()) -> (LitheHart, Result<Counts, Refused>)
    ensures board { board_of result.0.lent ≡ board_of hart.lent }
    ensures does { ChecksReadHome (view_of hart.lent) result.1 (view_of result.0.lent) }
{
    let mut lent = hart.into_box();
    let made = lent.seated.read_home();
    (LitheHart::of_box(lent), made)
}

pub(crate) fn site_read(hart: LitheHart, site: u16) -> (LitheHart, Result<Counts, Refused>)
    ensures board { board_of result.0.lent ≡ board_of hart.lent }
    ensures does { ChecksReadSite (board_of hart.lent).size (view_of hart.lent) site result.1 (view_of result.0.lent) }
{
    let mut lent = hart.into_box();
    let made = lent.seated.read_site(site);
    (LitheHart::of_box(lent), made)
}

pub(crate) fn owned(hart: LitheHart, none: ()) -> (LitheHart, u16)
    ensures same { result.0.lent ≡ hart.lent }
    ensures owner { result.1 ≡ owner_of (view_of hart.lent) }
{
    let lent = hart.into_box();
    let owner = lent.seated.owner();
    (LitheHart::of_box(lent), owner)
}
