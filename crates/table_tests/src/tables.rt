//! The table, by hand-made plans and tables of entries.
ghost use Rattle.std.specs.Prelude.{◌≡◌, [], ◌∷◌};

use std::alloc::{AllocError, Global};
use std::test::Fail;
use transfer_table::NotAdmitted::*;
use transfer_table::{
    Board, Entries, Entry, Fault, NotAdmitted, Plan, PlanFault, Stage, Why, first_fault,
};

pub(crate) const REGISTER: Entry = Entry::Register { hart: 0, site: 1 };

pub(crate) const REQUEST: Entry = Entry::Request {
    hart: 0,
    site: 1,
    count: 1,
};

const NONE_WANTED: Entry = Entry::Request {
    hart: 0,
    site: 1,
    count: 0,
};

pub(crate) const ENTER: Entry = Entry::Enter { hart: 1, site: 1 };

pub(crate) const YIELD: Entry = Entry::Yield { hart: 1, site: 1 };

pub(crate) const UNREGISTER: Entry = Entry::Unregister { hart: 0, site: 1 };

const SKIP: Entry = Entry::Skip { hart: 0, site: 1 };

const INNER_SKIP: Entry = Entry::Skip { hart: 1, site: 2 };

const REFUSALS: &[(Entry, Result<(), NotAdmitted>)] = &[
    (Entry::Register { hart: 2, site: 0 }, Err(NoSuchHart)),
    (Entry::Register { hart: 0, site: 3 }, Err(NoSuchSite)),
    (
        Entry::Register { hart: 0, site: 2 },
        Err(NotOwner { owner: 0 }),
    ),
    (ENTER, Err(NotLive)),
    (REGISTER, Ok(())),
    (Entry::Register { hart: 1, site: 1 }, Err(NotNew)),
    (ENTER, Err(NoWish)),
    (NONE_WANTED, Err(NoCount)),
    (REQUEST, Ok(())),
    (REQUEST, Err(TooManyWished { asked: 1 })),
    (NONE_WANTED, Err(NoCount)),
    (Entry::Yield { hart: 0, site: 1 }, Err(IsHome)),
    (UNREGISTER, Err(ChildLeft { site: 2 })),
    (ENTER, Ok(())),
    (
        Entry::Unregister { hart: 1, site: 1 },
        Err(NotHome { home: 0 }),
    ),
    (UNREGISTER, Err(HartInside { hart: 1 })),
];

const REFUSALS_OF_A_SKIP: &[(Entry, Result<(), NotAdmitted>)] = &[
    (Entry::Skip { hart: 2, site: 0 }, Err(NoSuchHart)),
    (Entry::Skip { hart: 0, site: 4 }, Err(NoSuchSite)),
    (INNER_SKIP, Err(NotOwner { owner: 0 })),
    (SKIP, Ok(())),
    (SKIP, Err(NotNew)),
    (INNER_SKIP, Err(NotOwner { owner: 0 })),
    (Entry::Register { hart: 1, site: 1 }, Err(NotNew)),
    (ENTER, Err(NotLive)),
    (UNREGISTER, Err(NotOwner { owner: 0 })),
];

// The first entry for which a new board of two harts returns something else, and what it returns.
fn first_wrong(
    alloc: Global,
    parents: &[u16],
    rows: &[(Entry, Result<(), NotAdmitted>)],
) -> Result<Option<(usize, Result<(), NotAdmitted>)>, Fail> {
    let plan = Plan::new(alloc, 2, parents)?;
    let mut board = Board::new(alloc, &plan)?;
    for (line, (entry, answer)) in rows.iter().enumerate() {
        let came = board.admit(*entry);
        if came != *answer {
            return Ok(Some((line, came)));
        }
    }
    Ok(None)
}

#[test]
fn refusals(rt: HostRuntime) -> Result<(), Fail> {
    assert_eq!(rt; first_wrong(rt.alloc(), &[0, 1], REFUSALS)?, None);
    Ok(())
}

#[test]
fn refusals_of_a_skip(rt: HostRuntime) -> Result<(), Fail> {
    assert_eq!(rt;
        first_wrong(rt.alloc(), &[0, 1, 0], REFUSALS_OF_A_SKIP)?,
        None
    );
    Ok(())
}

/// Lists of entries, and the fault of each under a plan of two harts and one site.
const FORGED: &[(&[Entry], Option<Fault>)] = &[
    (&[REGISTER, REQUEST, ENTER, YIELD, UNREGISTER], None),
    (
        &[REGISTER, REQUEST, ENTER, UNREGISTER],
        Some(Fault {
            place: 3,
            why: Why::Refused(HartInside { hart: 1 }),
        }),
    ),
    (
        &[REGISTER, ENTER],
        Some(Fault {
            place: 1,
            why: Why::Refused(NoWish),
        }),
    ),
    (
        &[REGISTER],
        Some(Fault {
            place: 1,
            why: Why::Unfinished { site: 1 },
        }),
    ),
];

// The fault of a list.
fn fault_in(alloc: Global, list: &[Entry]) -> Result<Option<Fault>, Fail> {
    if list.len() > 65_535 {
        return Err(Fail::new("a longer list than any run's"));
    }
    let plan = Plan::new(alloc, 2, &[0])?;
    Ok(first_fault(alloc, &plan, &[true], list)?)
}

// The first list with another fault.
fn first_missed(
    alloc: Global,
    lists: &[(&[Entry], Option<Fault>)],
) -> Result<Option<(usize, Option<Fault>)>, Fail> {
    for (line, (list, fault)) in lists.iter().enumerate() {
        let found = fault_in(alloc, list)?;
        if found != *fault {
            return Ok(Some((line, found)));
        }
    }
    Ok(None)
}

#[test]
fn forged_journals(rt: HostRuntime) -> Result<(), Fail> {
    assert_eq!(rt; first_missed(rt.alloc(), FORGED)?, None);
    Ok(())
}

/// Plans: harts, sites under the base, and the fault.
const FLAT: &[(u8, usize, Option<PlanFault>)] = &[
    (4, 4096, Some(PlanFault::TooManySites { found: 4096 })),
    (16, 1394, None),
    (16, 1395, Some(PlanFault::TooManySites { found: 1395 })),
];

// The first plan with another fault.
fn first_unlike(
    alloc: Global,
    plans: &[(u8, usize, Option<PlanFault>)],
) -> Result<Option<usize>, AllocError> {
    for (line, (harts, sites, fault)) in plans.iter().enumerate() {
        let parents = vec![in alloc; 0; *sites]?;
        if Plan::new(alloc, *harts, parents.as_slice()).err() != *fault {
            return Ok(Some(line));
        }
    }
    Ok(None)
}

#[test]
fn plans_of_many_sites(rt: HostRuntime) -> Result<(), Fail> {
    assert_eq!(rt; first_unlike(rt.alloc(), FLAT)?, None);
    Ok(())
}

// Whether a plan is one of two harts, with a site inside another.
fn is_nested(plan: &Plan) -> bool {
    plan.harts() == 2 && plan.sites() == 2 && plan.parent(2) == 1 && plan.parent(3) == 0
}

// The fault of a plan.
fn fault_of(alloc: Global, harts: u8, parents: &[u16]) -> Option<PlanFault> {
    Plan::new(alloc, harts, parents).err()
}

#[test]
fn plans(rt: HostRuntime) -> Result<(), Fail> {
    let alloc = rt.alloc();
    let too_many = Some(PlanFault::BadHarts { found: 17 });
    assert_eq!(rt; fault_of(alloc, 17, &[1]), too_many);
    let outside = Some(PlanFault::BadParent { site: 3 });
    assert_eq!(rt; fault_of(alloc, 1, &[0, 1, 3, 4]), outside);
    let plan = Plan::new(alloc, 2, &[0, 1])?.copy(alloc)?;
    assert!(rt; is_nested(&plan));
    Ok(())
}

// Whether a board has a site with its home, and the hart that the home requested.
fn shows_the_home(board: &Board) -> bool
    requires { board.now.plan ≡ record { harts = 2; parents = 0 ∷ [] } }
{
    (board.owner(0), board.owner(1)) == (1, 0)
        && (board.home(1), board.stage(1)) == (Some(0), Stage::Live)
        && (board.wishes(1), board.asked(1)) == (1, 1)
}

#[test]
fn one_site_with_a_guest(rt: HostRuntime) -> Result<(), Fail> {
    let plan = Plan::new(rt.alloc(), 2, &[0])?;
    let mut board = Board::new(rt.alloc(), &plan)?;
    assert_eq!(rt; (board.plan().harts(), board.plan().sites()), (2, 1));
    assert!(rt; board.admit(REGISTER) == Ok(()) && board.admit(REQUEST) == Ok(()));
    assert!(rt; shows_the_home(&board));
    for entry in [ENTER, YIELD, UNREGISTER] {
        assert_eq!(rt; board.admit(entry), Ok(()));
    }
    Ok(())
}

// Whether site 1 and site 2 inside it are gone and have no home, and both harts are in the base.
fn are_skipped(board: &Board) -> bool
    requires { board.now.plan ≡ record { harts = 2; parents = 0 ∷ 1 ∷ 0 ∷ [] } }
{
    (board.stage(1), board.stage(2), board.stage(3)) == (Stage::Gone, Stage::Gone, Stage::New)
        && (board.home(1), board.home(2)) == (None, None)
        && (board.owner(0), board.owner(1)) == (0, 0)
}

// Whether a skip of site 1 leaves that.
fn is_swept(alloc: Global) -> Result<bool, Fail> {
    let plan = Plan::new(alloc, 2, &[0, 1, 0])?;
    let mut board = Board::new(alloc, &plan)?;
    let is_admitted = board.admit(SKIP) == Ok(());
    Ok(is_admitted && are_skipped(&board))
}

#[test]
fn a_skip_takes_the_sites_inside(rt: HostRuntime) -> Result<(), Fail> {
    assert!(rt; is_swept(rt.alloc())?);
    Ok(())
}

#[test]
fn lists_of_entries(rt: HostRuntime) -> Result<(), Fail> {
    let list = vec![in rt.alloc(); Entry::Yield { hart: 1, site: 2 }]?;
    let entries = Entries::new(list);
    assert_eq!(rt;
        entries.as_slice(),
        [Entry::Yield { hart: 1, site: 2 }].as_slice()
    );
    assert_eq!(rt; entries.into_vec().len(), 1);
    Ok(())
}
