//! Ports and ledgers.
ghost use Rattle.std.specs.Prelude.{◌≡◌, true, false};
ghost use Rattle.transfer_table.specs.Plan.{IsSite, parent};
ghost use Rattle.hart_port.specs.PortView.{is_in, registered, closes, sees_empty};

use crate::tables::{ENTER, REGISTER, REQUEST, UNREGISTER, YIELD};
use hart_port::{Entered, Ledger, PlainPort, Port, Seen, Taken};
use std::alloc::Global;
use std::test::Fail;
use transfer_table::{Entry, NotAdmitted, Plan, first_fault};

// Whether the entries are complete, and those of a hart that goes into two sites and back.
fn is_there_and_back(alloc: Global, plan: &Plan, entries: &[Entry]) -> Result<bool, Fail> {
    let all = [
        Entry::Register { hart: 0, site: 1 },
        Entry::Register { hart: 0, site: 2 },
        Entry::Unregister { hart: 0, site: 2 },
        Entry::Unregister { hart: 0, site: 1 },
    ];
    if entries.len() != 4 || entries != all.as_slice() {
        return Ok(false);
    }
    let all = vec![in alloc; true; plan.sites() as usize]?;
    Ok(first_fault(alloc, plan, &all, entries)? == None)
}

// Whether the port is that of the single hart, in the base.
fn is_first(port: &PlainPort) -> bool {
    port.hart() == 0 && port.owner() == 0
}

// Whether the hart registers a site.
fn registers(port: &mut PlainPort, site: u16) -> bool
    requires known { IsSite port.old.view.plan site }
    requires child { port.old.view.owner ≡ parent port.old.view.plan site }
    ensures view { result ≡ true → port.new.view ≡ registered port.old.view site }
{
    port.register((), site).is_ok()
}

// Whether the site's word wants no hart.
fn is_unwanted(port: &mut PlainPort, site: u16) -> bool
    requires known { IsSite port.old.view.plan site }
    requires child { port.old.view.owner ≡ parent port.old.view.plan site }
    ensures view { port.new.view ≡ port.old.view }
{
    port.try_enter((), site) == Entered::NotWanted { shown: 0 }
}

// Whether the hart closes its site and sees it empty.
fn empties(port: &mut PlainPort) -> bool
    requires home { is_in port.old.view.homes port.old.view.owner ≡ true }
    requires open_yet { is_in port.old.view.closed port.old.view.owner ≡ false }
    ensures view { port.new.view ≡ sees_empty (closes port.old.view) }
{
    port.close_site(());
    port.see_empty(()) == Seen::Empty
}

#[test]
fn one_hart_in_two_sites(rt: HostRuntime) -> Result<(), Fail> {
    let plan = Plan::new(rt.alloc(), 1, &[0, 1])?;
    let mut port = PlainPort::new(rt.alloc(), &plan)?;
    assert!(rt; is_first(&port));
    assert!(rt; registers(&mut port, 1));
    assert!(rt; is_unwanted(&mut port, 2));
    assert!(rt; registers(&mut port, 2));
    assert!(rt; empties(&mut port));
    port.unregister(());
    assert!(rt; port.see_gone((), 2));
    assert!(rt; empties(&mut port));
    port.unregister(());
    assert_eq!(rt; port.register((), 1), Err(Taken { shown: 7 }));
    let entries = port.finish();
    assert!(rt; is_there_and_back(rt.alloc(), &plan, entries.as_slice())?);
    Ok(())
}

// The words of the board and of the site.
fn words(ledger: &Ledger) -> (u64, u64) {
    (ledger.board_word(), ledger.site_word(1))
}

// Whether the ledger admits an entry, and then has these words.
fn admits(ledger: &mut Ledger, entry: Entry, shown: (u64, u64)) -> bool {
    ledger.admit(entry) == Ok(()) && words(ledger) == shown
}

// Whether a new ledger admits a hart into a site, and not twice.
fn lets_in_once(ledger: &mut Ledger) -> bool {
    words(ledger) == (0, 0)
        && admits(ledger, REGISTER, (281474976710657, 1))
        && admits(ledger, REQUEST, (562949953421313, 257))
        && admits(ledger, ENTER, (844424930136065, 1))
        && ledger.admit(ENTER) == Err(NotAdmitted::NotOwner { owner: 1 })
}

// Whether it marks only the site, and admits that its home leaves after the guest.
fn lets_out_in_order(ledger: &mut Ledger) -> bool {
    ledger.mark(1);
    ledger.mark(2);
    (
        ledger.site_word(1),
        ledger.site_word(0),
        ledger.site_word(2),
    ) == (3, 0, 0)
        && ledger.admit(UNREGISTER) == Err(NotAdmitted::HartInside { hart: 1 })
        && ledger.admit(YIELD) == Ok(())
        && admits(ledger, UNREGISTER, (1407374883553280, 7))
}

#[test]
fn a_ledger_keeps_what_its_board_admits(rt: HostRuntime) -> Result<(), Fail> {
    let plan = Plan::new(rt.alloc(), 2, &[0])?;
    let mut ledger = Ledger::new(rt.alloc(), &plan)?;
    assert!(rt; lets_in_once(&mut ledger));
    assert!(rt; lets_out_in_order(&mut ledger));
    let entries = ledger.into_entries();
    assert_eq!(rt;
        entries.as_slice(),
        [REGISTER, REQUEST, ENTER, YIELD, UNREGISTER].as_slice()
    );
    Ok(())
}
