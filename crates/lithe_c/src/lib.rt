//! The open board for C, a static library. `bindings/c/lithe.h` declares it.
//!
//! C has one pointer for each hart, to a block with the hart's seat and its share of the board. Each call tests its own
//! condition and returns a status. The contracts state the effect of each call on the hart's view, and the status that it
//! returns. A call takes the hart from the pointer and puts it back: it writes the pointer's old value.
//!
//! Not checked, for C to ensure: a hart's pointer is one that `lithe_hart_make` wrote and `lithe_hart_drop` hasn't taken. Each
//! hart is passed to one call at a time. A hart may go from thread to thread by a lock, by the start or the join of a thread,
//! or by a sequentially consistent atomic. No call is made in a signal handler, or in a forked child of a process with threads.
//!
//! The crate is for parallel libraries in C or C++ that call each other and share threads, as in `bindings/c/examples/compose.c`.
//! Begin with `lithe_hart_make` in this file, which makes a board and its harts. Then read `lithe_hart_register` with
//! `registered` in `calls.rt`, which makes the call on the hart's block. `status.rt` has the statuses.
//!
//! # Example
//!
//! Lines of `with_a_guest` and `closed` in `bindings/c/tests/refusals.c`. Hart 0 is the home of site 1, and hart 1 its guest.
//! `DONE` tests that the call returns 0. Each call of `lithe.h` calls one of this file, as `lithe_register` does with
//! `lithe_hart_register`.
//!
//! ```text
//! DONE(lithe_register(&harts[0], &site));
//! MUST(site == 1 && lithe_owner(&harts[0]) == 1);
//! DONE(lithe_request(&harts[0], 1));
//! DONE(lithe_enter(&harts[1], 1));
//! MUST(lithe_owner(&harts[1]) == 1);
//! DONE(lithe_close(&harts[0]));
//! DONE(lithe_yield(&harts[1]));
//! DONE(lithe_see_empty(&harts[0]));
//! DONE(lithe_unregister(&harts[0]));
//! ```
#![tactic(auto)]

ghost use Rattle.std.specs.Prelude.{◌≡◌, ◌⊎◌, ◌<◌, ◌≢◌, length};
ghost use Rattle.open_board.specs.Views.{owner_of};
ghost use Rattle.lithe_c.specs.Answers.{view_of, ReturnsRegister, ReturnsRequest, ReturnsEnter, ReturnsYield, ReturnsClose, ReturnsLook, ReturnsUnregister, ReturnsRegisterWishing, ReturnsEnd, ReturnsYieldLast, ReturnsWithdraw, ReturnsReadHome, ReturnsReadSite};
ghost use Rattle.lithe_c.specs.Making.{MakesOrKeeps};
ghost use Rattle.lithe_c.specs.Status.{EndsText};

mod calls;
mod hart;
mod lent;
mod making;
mod parts;
mod status;

use core::mem::replace_with;
use hart::LitheHart;
use open_board::OpenBoard;
use status::{BAD_SIZE, DONE, NO_MEMORY};
use std::alloc::Global;
use std::sync::Arc;

/// Makes a board with `levels` levels, and writes a pointer for each hart into `harts`. The length of `harts` is the number of
/// harts, and hart `h` is at index `h`, from 0. Each hart is at the base.
///
/// Returns 12 (bad size) exactly unless there are 1 to 64 harts and 1 to 64 levels, and 11 if an allocation fails. `harts` is
/// then unchanged, and nothing stays allocated.
///
/// # Memory
///
/// A block of 64 bytes for each site and one for the base, one of 128 bytes for each hart, and one for the board.
/// `lithe_hart_drop` of the last hart frees the board.
///
/// Not in a clause: each pointer that this call writes is a pointer to a hart, as the other calls require.
#[unsafe(no_mangle)]
pub extern "C" fn lithe_hart_make(alloc: Global, levels: u8, harts: &mut [*mut u8]) -> u32
    ensures { MakesOrKeeps levels harts.old result harts.new }
{
    if harts.len() == 0 || harts.len() > 64 || levels == 0 || levels > 64 {
        return BAD_SIZE;
    }
    let Ok((board, seats)) = OpenBoard::new(alloc, harts.len() as u8, levels) else {
        return NO_MEMORY;
    };
    let Ok(board) = Arc::new(alloc, board) else {
        return NO_MEMORY;
    };
    let Ok(boxes) = making::all(alloc, &board, seats) else {
        return NO_MEMORY;
    };
    for (at, one) in harts.iter_mut().zip(boxes) {
        *at = Box::into_raw(one).cast::<u8>();
    }
    DONE
}

/// Registers the next of the hart's sites as a child of its owner, and writes the site's number into `site`. The hart is the
/// site's home, and the site is its owner. One store.
///
/// Returns 8 (too deep) exactly if the hart is the home of as many sites as the board has levels. Nothing changes then.
#[unsafe(no_mangle)]
pub extern "C" fn lithe_hart_register(hart: &mut LitheHart, site: &mut u16) -> u32
    ensures { ReturnsRegister hart.old.lent site.old result site.new hart.new.lent }
{
    let made = replace_with(hart, (), calls::registered);
    if let Ok(number) = made {
        *site = number;
    }
    status::of_register(made)
}

/// Registers a site, as `lithe_hart_register` does, and requests `count` harts there. One store.
///
/// Returns 8 (too deep) exactly if the hart is the home of as many sites as the board has levels, else 3 (too many wished)
/// exactly if `count` is more than the board's other harts. Nothing changes then.
#[unsafe(no_mangle)]
pub extern "C" fn lithe_hart_register_wishing(
    hart: &mut LitheHart,
    count: u8,
    site: &mut u16,
) -> u32
    ensures { ReturnsRegisterWishing hart.old.lent count site.old result site.new hart.new.lent }
{
    let made = replace_with(hart, count, calls::registered_wishing);
    if let Ok(number) = made {
        *site = number;
    }
    status::of_register_wishing(made)
}

/// Requests `count` more harts at the owner. A load and an addition.
///
/// Returns, in this order:
///
/// - 1 (not home) if the hart isn't the home of its owner,
/// - 4 (is closed) if the hart closed it,
/// - 3 (too many wished) if the site's wishes and guests, by the loaded word, and the count are more than the board's other harts.
///
/// The call requests no hart then.
#[unsafe(no_mangle)]
pub extern "C" fn lithe_hart_request(hart: &mut LitheHart, count: u8) -> u32
    ensures { ReturnsRequest hart.old.lent count result hart.new.lent }
{
    status::of_call(replace_with(hart, count, calls::requested))
}

/// Tries to enter the site as a guest. The site is then the hart's owner. A load, and an exchange if the loaded word admits the
/// hart.
///
/// Returns
///
/// - 7 (no such site) if the number isn't 1 to harts times levels,
/// - 9 (not wanted) if the loaded word doesn't admit the hart,
/// - 10 (moved) if the exchange found another word.
///
/// The hart stays in its owner then.
#[unsafe(no_mangle)]
pub extern "C" fn lithe_hart_enter(hart: &mut LitheHart, site: u16) -> u32
    ensures { ReturnsEnter hart.old.lent site result hart.new.lent }
{
    status::of_enter(replace_with(hart, site, calls::entered))
}

/// Leaves the owner, in which the hart is a guest, for its parent. One subtraction.
///
/// Returns 2 (not guest) if the hart isn't a guest of its owner. Nothing changes then.
#[unsafe(no_mangle)]
pub extern "C" fn lithe_hart_yield(hart: &mut LitheHart) -> u32
    ensures { ReturnsYield hart.old.lent result hart.new.lent }
{
    status::of_call(replace_with(hart, (), calls::yielded))
}

/// Leaves the owner as `lithe_hart_yield` does, and writes into `last` whether the owner was closing and the hart its only guest:
/// 1 if so, else 0. With 1 the owner is empty, and no hart enters it. One subtraction.
///
/// Returns 2 (not guest) if the hart isn't a guest of its owner. Nothing changes then.
#[unsafe(no_mangle)]
pub extern "C" fn lithe_hart_yield_last(hart: &mut LitheHart, last: &mut u8) -> u32
    ensures { ReturnsYieldLast hart.old.lent last.old result last.new hart.new.lent }
{
    let made = replace_with(hart, (), calls::yielded_last);
    if let Ok(was_last) = made {
        *last = if was_last { 1 } else { 0 };
    }
    status::of_call(made)
}

/// Takes back `count` wishes of the owner that no hart has met. A load, and an exchange if the loaded word has so many.
///
/// Returns, in this order:
///
/// - 1 (not home) if the hart isn't the home of its owner,
/// - 15 (too few wishes) if the loaded word has fewer,
/// - 10 (moved) if the exchange found another word: a hart entered or left in between.
///
/// The wishes stay then.
#[unsafe(no_mangle)]
pub extern "C" fn lithe_hart_withdraw(hart: &mut LitheHart, count: u8) -> u32
    ensures { ReturnsWithdraw hart.old.lent count result hart.new.lent }
{
    status::of_withdraw(replace_with(hart, count, calls::withdrawn))
}

/// Writes the wishes and the guests of the owner, whose home the hart is. Until the hart's next entry their sum doesn't grow. A load.
///
/// Returns 1 (not home) if the hart isn't the home of its owner. Nothing is written then.
#[unsafe(no_mangle)]
pub extern "C" fn lithe_hart_read_home(
    hart: &mut LitheHart,
    wishes: &mut u8,
    guests: &mut u8,
) -> u32
    ensures { ReturnsReadHome hart.old.lent wishes.old guests.old result wishes.new guests.new hart.new.lent }
{
    let made = replace_with(hart, (), calls::home_read);
    if let Ok(counts) = made {
        *wishes = counts.wishes;
        *guests = counts.guests;
    }
    status::of_call(made)
}

/// Writes the wishes and the guests of the site at the moment of the load. Both are 0 for a site that isn't live. A load.
///
/// Returns 7 (no such site) if the number isn't 1 to harts times levels. Nothing is written then.
#[unsafe(no_mangle)]
pub extern "C" fn lithe_hart_read_site(
    hart: &mut LitheHart,
    site: u16,
    wishes: &mut u8,
    guests: &mut u8,
) -> u32
    ensures { ReturnsReadSite hart.old.lent site wishes.old guests.old result wishes.new guests.new hart.new.lent }
{
    let made = replace_with(hart, site, calls::site_read);
    if let Ok(counts) = made {
        *wishes = counts.wishes;
        *guests = counts.guests;
    }
    status::of_call(made)
}

/// Closes the owner: no further hart may enter it. A load and an addition.
///
/// Returns 1 (not home) if the hart isn't the home of its owner, else 4 (is closed) if it closed it already.
#[unsafe(no_mangle)]
pub extern "C" fn lithe_hart_close(hart: &mut LitheHart) -> u32
    ensures { ReturnsClose hart.old.lent result hart.new.lent }
{
    status::of_call(replace_with(hart, (), calls::closed))
}

/// Checks whether the owner, which the hart has closed, has no guest: 0 if so, 6 (not empty) if it has one. A guest in a site
/// below the owner is a guest of the owner too. Two loads.
///
/// Returns 1 (not home) if the hart isn't the home of its owner, else 5 (not closed) if it hasn't closed it.
#[unsafe(no_mangle)]
pub extern "C" fn lithe_hart_see_empty(hart: &mut LitheHart) -> u32
    ensures { ReturnsLook hart.old.lent result hart.new.lent }
{
    status::of_look(replace_with(hart, (), calls::looked))
}

/// Ends the owner, if it is closed and has no guest. Its parent is then the hart's owner. Two loads and a swap.
///
/// Returns, in this order:
///
/// - 1 (not home) if the hart isn't the home of its owner,
/// - 5 (not closed) if the hart hasn't closed it,
/// - 6 (not empty) if the second loaded word has a guest.
///
/// The site stays live then.
#[unsafe(no_mangle)]
pub extern "C" fn lithe_hart_unregister(hart: &mut LitheHart) -> u32
    ensures { ReturnsUnregister hart.old.lent result hart.new.lent }
{
    status::of_call(replace_with(hart, (), calls::unregistered))
}

/// Closes and ends the owner, if it has no guest. Its parent is then the hart's owner. A load, and an exchange if the loaded word
/// has no guest.
///
/// Returns, in this order:
///
/// - 1 (not home) if the hart isn't the home of its owner,
/// - 4 (is closed) if the hart closed it,
/// - 6 (not empty) if the loaded word has a guest,
/// - 10 (moved) if the exchange found another word: a hart entered in between.
///
/// The site stays open then.
#[unsafe(no_mangle)]
pub extern "C" fn lithe_hart_end_if_empty(hart: &mut LitheHart) -> u32
    ensures { ReturnsEnd hart.old.lent result hart.new.lent }
{
    status::of_end(replace_with(hart, (), calls::finished))
}

/// The site that the hart is in; 0 is the base. No step.
#[unsafe(no_mangle)]
pub extern "C" fn lithe_hart_owner(hart: &mut LitheHart) -> u16
    ensures same { hart.new.lent ≡ hart.old.lent }
    ensures owner { result ≡ owner_of (view_of hart.old.lent) }
{
    replace_with(hart, (), calls::owned)
}

/// Takes the hart away and frees its block. The last hart of a board frees the board.
///
/// Not checked: sites of the hart stay live, and a site in which it is a guest never becomes empty, so each hart should be at
/// the base. No later call may get the hart.
#[unsafe(no_mangle)]
pub extern "C" fn lithe_hart_drop(hart: LitheHart) {
    drop(hart.into_box());
}

/// Writes one line for the status into `text`, with a final 0. A line that doesn't fit is truncated. Returns the number of
/// bytes before the 0. Without room for the 0 nothing is written. 80 bytes are enough for each line.
#[unsafe(no_mangle)]
pub extern "C" fn lithe_status_text(status: u32, text: &mut [u8]) -> usize
    ensures { EndsText text.old result text.new }
{
    if text.len() == 0 {
        return 0;
    }
    let line = status::text(status).as_bytes();
    let room = text.len() - 1;
    let count = if line.len() < room { line.len() } else { room };
    text[..count].copy_from_slice(&line[..count]);
    text[count] = 0;
    count
}
