//! The statuses of calls for C: a number, and a text for each number.
ghost use Rattle.std.specs.Prelude.{◌≡◌};
ghost use Rattle.lithe_c.specs.Status.{refusal_status, plain_status, register_status, register_wishing_status, enter_status, look_status, end_status, withdraw_status};

use open_board::{Entered, Finish, NotRegistered, Refused, Seen, TooDeep, Withdrawn};

// `lithe.h` has the same numbers.
pub(crate) const DONE: u32 = 0;

const NOT_HOME: u32 = 1;

const NOT_GUEST: u32 = 2;

const TOO_MANY_WISHED: u32 = 3;

const IS_CLOSED: u32 = 4;

const NOT_CLOSED: u32 = 5;

const NOT_EMPTY: u32 = 6;

const NO_SUCH_SITE: u32 = 7;

const TOO_DEEP: u32 = 8;

const NOT_WANTED: u32 = 9;

const MOVED: u32 = 10;

pub(crate) const NO_MEMORY: u32 = 11;

pub(crate) const BAD_SIZE: u32 = 12;

const IN_SITE: u32 = 13;

const NO_HART: u32 = 14;

const TOO_FEW_WISHES: u32 = 15;

fn of_refused(refused: Refused) -> u32
    ensures { result ≡ refusal_status refused }
{
    match refused {
        Refused::NotHome => NOT_HOME,
        Refused::NotGuest => NOT_GUEST,
        Refused::TooManyWished => TOO_MANY_WISHED,
        Refused::IsClosed => IS_CLOSED,
        Refused::NotClosed => NOT_CLOSED,
        Refused::NotEmpty { .. } => NOT_EMPTY,
        Refused::NoSuchSite => NO_SUCH_SITE,
    }
}

pub(crate) fn of_call<T: Copy>(made: Result<T, Refused>) -> u32
    ensures { result ≡ plain_status made }
{
    match made {
        Ok(_) => DONE,
        Err(refused) => of_refused(refused),
    }
}

pub(crate) fn of_register(made: Result<u16, TooDeep>) -> u32
    ensures { result ≡ register_status made }
{
    match made {
        Ok(_) => DONE,
        Err(TooDeep) => TOO_DEEP,
    }
}

pub(crate) fn of_register_wishing(made: Result<u16, NotRegistered>) -> u32
    ensures { result ≡ register_wishing_status made }
{
    match made {
        Ok(_) => DONE,
        Err(NotRegistered::TooDeep) => TOO_DEEP,
        Err(NotRegistered::TooManyWished) => TOO_MANY_WISHED,
    }
}

pub(crate) fn of_enter(made: Result<Entered, Refused>) -> u32
    ensures { result ≡ enter_status made }
{
    match made {
        Ok(Entered::Inside) => DONE,
        Ok(Entered::NotWanted { .. }) => NOT_WANTED,
        Ok(Entered::Moved { .. }) => MOVED,
        Err(refused) => of_refused(refused),
    }
}

pub(crate) fn of_look(made: Result<Seen, Refused>) -> u32
    ensures { result ≡ look_status made }
{
    match made {
        Ok(Seen::Empty) => DONE,
        Ok(Seen::Busy { .. }) => NOT_EMPTY,
        Err(refused) => of_refused(refused),
    }
}

pub(crate) fn of_end(made: Result<Finish, Refused>) -> u32
    ensures { result ≡ end_status made }
{
    match made {
        Ok(Finish::Gone) => DONE,
        Ok(Finish::Busy { .. }) => NOT_EMPTY,
        Ok(Finish::Moved { .. }) => MOVED,
        Err(refused) => of_refused(refused),
    }
}

pub(crate) fn of_withdraw(made: Result<Withdrawn, Refused>) -> u32
    ensures { result ≡ withdraw_status made }
{
    match made {
        Ok(Withdrawn::Done) => DONE,
        Ok(Withdrawn::TooFew { .. }) => TOO_FEW_WISHES,
        Ok(Withdrawn::Moved { .. }) => MOVED,
        Err(refused) => of_refused(refused),
    }
}

/// One line for the status, at most 79 bytes.
pub(crate) fn text(status: u32) -> &'static str {
    match status {
        DONE => "done",
        NOT_HOME => "the hart isn't the home of the site that it is in",
        NOT_GUEST => "the hart isn't a guest of the site that it is in",
        TOO_MANY_WISHED => "the site's wishes and guests would be more than the other harts",
        IS_CLOSED => "the site is closed",
        NOT_CLOSED => "the site isn't closed",
        NOT_EMPTY => "the site has a guest",
        NO_SUCH_SITE => "no site of the board has that number",
        TOO_DEEP => "the hart is the home of as many sites as the board has levels",
        NOT_WANTED => "the site doesn't let the hart in: not live, closed, full or not a child",
        MOVED => "another hart changed the site's word during the call",
        NO_MEMORY => "out of memory",
        BAD_SIZE => "a board has 1 to 64 harts and 1 to 64 levels",
        IN_SITE => "a hart is in a site",
        NO_HART => "the hart has ended, or was never made",
        TOO_FEW_WISHES => "the site has fewer wishes that no hart has met",
        _ => "no status has that number",
    }
}
