//! Stores, overlays and variables.
ghost use Rattle.std.specs.Prelude.{◌≡◌, IfOk, length};

use crate::programs::{are_sized, parsed};
use array_eval::{
    Layout, LoopVar, MarkedStore, NoCells, Overlay, Scope, Store, Vars, evaluate, run_assign,
    start_of_member,
};
use array_tree::{Name, Program, Stmt};
use std::alloc::{AllocError, Global};
use std::test::Fail;

// Whether a store of three cells, of which cell 1 is -7, and its copy differ once cell 1 is written again.
fn is_written_beside_its_copy(store: &mut Store) -> Result<bool, AllocError>
    requires { length store.old ≡ 3 }
{
    let copy = store.copy()?;
    store.put(1, 8)?;
    Ok(store.get(1) == 8 && copy.get(1) == -7 && copy.get(2) == 0)
}

#[test]
fn a_store_is_written_and_copied(rt: HostRuntime) -> Result<(), Fail> {
    let mut store = Store::zero(rt.alloc(), 3)?;
    store.put(1, -7)?;
    assert!(rt; is_written_beside_its_copy(&mut store)?);
    Ok(())
}

// A store of 130 cells, with 7 in the last of the first page, the first of the second and the first of the third.
fn store_of_three_pages(alloc: Global) -> Result<Store, AllocError>
    ensures { IfOk result (λ store. length store ≡ 130) }
{
    let mut store = Store::zero(alloc, 130)?;
    store.put(63, 7)?;
    store.put(64, 7)?;
    store.put(129, 7)?;
    Ok(store)
}

// Whether it has these in the cells 63, 64 and 129.
fn has_three(store: &Store, first: i64, second: i64, third: i64) -> bool
    requires { length store.now ≡ 130 }
{
    store.get(63) == first && store.get(64) == second && store.get(129) == third
}

// Whether a copy of that store, of which cell 64 is written, leaves the store.
fn copy_leaves(store: &Store) -> Result<bool, AllocError>
    requires { length store.now ≡ 130 }
{
    let mut copy = store.copy()?;
    copy.put(64, 9)?;
    Ok(has_three(store, 7, 7, 7) && has_three(&copy, 7, 9, 7))
}

#[test]
fn a_copy_that_is_written_leaves_the_store(rt: HostRuntime) -> Result<(), Fail> {
    let store = store_of_three_pages(rt.alloc())?;
    assert!(rt; copy_leaves(&store)?);
    Ok(())
}

// Whether that store with an overlay of the cells 63 and 129 leaves the store.
fn overlay_leaves(alloc: Global, store: &Store) -> Result<bool, AllocError>
    requires { length store.now ≡ 130 }
{
    let mut overlay = Overlay::roomy(alloc, 2)?;
    overlay.lay(63, 1);
    overlay.lay(129, 2);
    let other = store.with(&overlay)?;
    Ok(has_three(store, 7, 7, 7) && has_three(&other, 1, 7, 2))
}

#[test]
fn a_store_with_an_overlay_leaves_the_store(rt: HostRuntime) -> Result<(), Fail> {
    let store = store_of_three_pages(rt.alloc())?;
    assert!(rt; overlay_leaves(rt.alloc(), &store)?);
    Ok(())
}

// Whether an overlay has 20 in cell 2, 51 in cell 5, and no more.
fn has_two_pairs(overlay: &Overlay) -> bool {
    overlay.pairs() == [(2, 20), (5, 51)].as_slice()
        && overlay.get(5) == Some(51)
        && overlay.get(3) == None
}

#[test]
fn an_overlay_keeps_last_values_in_rising_order(rt: HostRuntime) -> Result<(), Fail> {
    let mut overlay = Overlay::empty(rt.alloc());
    overlay.put(5, 50)?;
    overlay.put(2, 20)?;
    overlay.put(5, 51)?;
    assert!(rt; has_two_pairs(&overlay));
    Ok(())
}

// Whether a store of three zeros gets 8 into cell 1 by a merge, and by an overlay that it is copied with.
fn is_merged(alloc: Global, store: &mut Store) -> Result<bool, AllocError>
    requires { length store.old ≡ 3 }
{
    let mut overlay = Overlay::roomy(alloc, 1)?;
    overlay.lay(1, 7);
    overlay.lay(1, 8);
    let other = store.with(&overlay)?;
    let before = store.get(1);
    store.merge(&overlay)?;
    Ok(before == 0 && other.get(1) == 8 && store.get(1) == 8)
}

#[test]
fn a_roomy_overlay_is_merged(rt: HostRuntime) -> Result<(), Fail> {
    let mut store = Store::zero(rt.alloc(), 3)?;
    assert!(rt; is_merged(rt.alloc(), &mut store)?);
    Ok(())
}

// Whether both names have their innermost values inside, where the other name is bound inside alone.
fn innermost_is_first(outer: &Vars, name: &Name, other: &Name) -> Result<bool, AllocError> {
    let between = outer.with(other, 2)?;
    let inner = between.with(name, 3)?;
    let copy = inner.copy()?;
    let is_none = outer.get(other) == None;
    Ok(is_none && copy.get(name) == Some(3) && copy.get(other) == Some(2))
}

#[test]
fn the_innermost_variable_is_found_first(rt: HostRuntime) -> Result<(), Fail> {
    let name = Name::new(rt.alloc(), "i".as_bytes())?;
    let other = Name::new(rt.alloc(), "j".as_bytes())?;
    let outer = Vars::empty(rt.alloc()).with(&name, 1)?;
    assert!(rt; innermost_is_first(&outer, &name, &other)?);
    Ok(())
}

// These variables, and inside them the first name as 1, the other as 2 and the first again as 3.
fn with_three(kept: &Vars, first: &Name, other: &Name) -> Result<Vars, AllocError> {
    let one = kept.with(first, 1)?;
    with_two(&one, first, other)
}

// These variables, and inside them the other name as 2 and the first as 3.
fn with_two(kept: &Vars, first: &Name, other: &Name) -> Result<Vars, AllocError> {
    let two = kept.with(other, 2)?;
    two.with(first, 3)
}

// Whether a stack of three variables, around which one is kept, has the innermost values, and all are kept in order.
fn stack_is_kept(
    alloc: Global,
    kept: &Vars,
    names: (&Name, &Name, &Name),
) -> Result<bool, AllocError> {
    let (i, j, k) = names;
    let outer = Scope::Kept(kept);
    let vars = [
        LoopVar { name: i, value: 1 },
        LoopVar { name: j, value: 2 },
        LoopVar { name: i, value: 3 },
    ];
    let scope = Scope::Stack {
        vars: &vars,
        outer: &outer,
    };
    let is_innermost = (scope.get(i), scope.get(j), scope.get(k)) == (3, 2, 7);
    let found = Vars::of_scope(alloc, &scope)?;
    let expected = with_three(kept, i, j)?;
    Ok(is_innermost && found == expected)
}

#[test]
fn a_stack_of_variables_is_kept(rt: HostRuntime) -> Result<(), Fail> {
    let alloc = rt.alloc();
    let i = Name::new(alloc, b"i")?;
    let j = Name::new(alloc, b"j")?;
    let k = Name::new(alloc, b"k")?;
    let kept = Vars::empty(alloc).with(&k, 7)?;
    assert!(rt; stack_is_kept(alloc, &kept, (&i, &j, &k))?);
    Ok(())
}

// Merges 0 into cell 0 and 5 into cell 2.
fn supply(alloc: Global, store: &mut MarkedStore) -> Result<(), AllocError> {
    let mut supply = Overlay::roomy(alloc, 2)?;
    supply.lay(2, 5);
    supply.lay(0, 0);
    store.merge(&supply);
    Ok(())
}

// Runs the program's first statement, an assignment.
fn assign(alloc: Global, program: &Program, store: &mut MarkedStore) -> Result<(), Fail> {
    if !are_sized(&program.arrays) {
        return Err(Fail::new("arrays of no size that a program may have"));
    }
    let layout = Layout::new(alloc, &program.arrays)?;
    match program.body.statements.first() {
        Some(
            Stmt::Assign {
                array,
                index,
                value,
                ..
            },
        ) => {
            run_assign(&layout, array, index, value, &Scope::Outermost, store);
            Ok(())
        }
        _ => Err(Fail::new("the text is no assignment")),
    }
}

// Whether a store of four cells has 5 in its last cell.
fn ends_with_five(alloc: Global, marked: &mut MarkedStore) -> Result<bool, AllocError>
    requires { length marked.old.cells ≡ 4 }
    ensures { marked.new ≡ marked.old }
{
    let store = marked.to_store(alloc)?;
    Ok(store.get(3) == 5)
}

// Whether these of four cells were written, by an overlay of its own and by one that has room.
fn has_written(
    alloc: Global,
    marked: &MarkedStore,
    expected: &[(u16, i64)],
) -> Result<bool, AllocError>
    requires { length marked.now.cells ≡ 4 }
{
    let written = marked.written(alloc)?;
    let mut room = Overlay::roomy(alloc, 4)?;
    marked.lay_written(&mut room);
    Ok(written.pairs() == expected && room.pairs() == expected)
}

// Whether the marks of a store of four cells show that 0, 5 and 5 were written into all cells but cell 1.
fn knows_what_was_written(alloc: Global, marked: &mut MarkedStore) -> Result<bool, AllocError> {
    if marked.count() != 4 {
        return Ok(false);
    }
    let has_five = ends_with_five(alloc, marked)?;
    let expected = [(0, 0), (2, 5), (3, 5)];
    Ok(has_written(alloc, marked, expected.as_slice())? && has_five)
}

#[test]
fn a_store_knows_what_was_written(rt: HostRuntime) -> Result<(), Fail> {
    let alloc = rt.alloc();
    let program = parsed(alloc, "array a[4]; a[3] = a[2];")?;
    let mut marked = MarkedStore::new(alloc, &Store::zero(alloc, 4)?)?;
    supply(alloc, &mut marked)?;
    assign(alloc, &program, &mut marked)?;
    assert!(rt; knows_what_was_written(alloc, &mut marked)?);
    Ok(())
}

// A store that was made from this one of 130 cells, with a cell written.
fn written_at(alloc: Global, start: &Store, cell: u16) -> Result<Store, Fail>
    ensures { IfOk result (λ store. length store ≡ 130) }
{
    let mut marked = MarkedStore::new(alloc, start)?;
    taken(alloc, &mut marked, cell)
}

// The store that is taken from this one, of 130 cells, once the cell is written.
fn taken(alloc: Global, marked: &mut MarkedStore, cell: u16) -> Result<Store, Fail>
    ensures { IfOk result (λ store. length store ≡ 130) }
{
    put_nine(alloc, marked, cell)?;
    if marked.count() != 130 {
        return Err(Fail::new("another number of cells"));
    }
    Ok(marked.to_store(alloc)?)
}

// Merges 9 into a cell.
fn put_nine(alloc: Global, marked: &mut MarkedStore, cell: u16) -> Result<(), AllocError> {
    let mut supply = Overlay::roomy(alloc, 1)?;
    supply.lay(cell, 9);
    marked.merge(&supply);
    Ok(())
}

// Whether a store with a written page, and the next store with one more, have both pages, and the earlier stores are unchanged.
fn have_both_pages(start: &Store, second: &Store, third: &Store) -> bool
    requires first { length start.now ≡ 130 }
    requires second { length second.now ≡ 130 }
    requires third { length third.now ≡ 130 }
{
    let is_second = has_three(second, 7, 7, 7) && second.get(65) == 9;
    let is_third = has_three(third, 7, 7, 7) && third.get(65) == 9 && third.get(128) == 9;
    is_second && is_third && start.get(65) == 0 && second.get(128) == 0
}

#[test]
fn a_store_that_is_taken_has_both_pages(rt: HostRuntime) -> Result<(), Fail> {
    let alloc = rt.alloc();
    let start = store_of_three_pages(alloc)?;
    let second = written_at(alloc, &start, 65)?;
    let third = written_at(alloc, &second, 128)?;
    assert!(rt; have_both_pages(&start, &second, &third));
    Ok(())
}

// Whether a store of 130 cells, made from that of three pages, with cell 65 written, is read right: on the written page, on
// another page, and after the last cell.
fn is_read_over_its_store(marked: &MarkedStore) -> bool {
    let is_written = marked.read(63) == 7 && marked.read(64) == 7 && marked.read(65) == 9;
    is_written && marked.read(129) == 7 && marked.read(130) == 0 && marked.count() == 130
}

#[test]
fn a_marked_store_is_read_over_its_store(rt: HostRuntime) -> Result<(), Fail> {
    let alloc = rt.alloc();
    let mut marked = MarkedStore::new(alloc, &store_of_three_pages(alloc)?)?;
    put_nine(alloc, &mut marked, 65)?;
    assert!(rt; is_read_over_its_store(&marked));
    Ok(())
}

// The value of the program's first assignment, with no cell to read, and with the cells of a store.
fn sums(alloc: Global, program: &Program, store: &MarkedStore) -> Result<(i64, i64), Fail> {
    if !are_sized(&program.arrays) {
        return Err(Fail::new("arrays of no size that a program may have"));
    }
    let layout = Layout::new(alloc, &program.arrays)?;
    match program.body.statements.first() {
        Some(Stmt::Assign { value, .. }) => Ok((
            evaluate(&layout, value, &Scope::Outermost, &NoCells),
            evaluate(&layout, value, &Scope::Outermost, store),
        )),
        _ => Err(Fail::new("the text is no assignment")),
    }
}

#[test]
fn an_expression_is_evaluated_without_cells(rt: HostRuntime) -> Result<(), Fail> {
    let alloc = rt.alloc();
    let program = parsed(alloc, "array a[4]; a[0] = 2 + a[3];")?;
    let mut marked = MarkedStore::new(alloc, &Store::zero(alloc, 4)?)?;
    put_nine(alloc, &mut marked, 3)?;
    let (without, with) = sums(alloc, &program, &marked)?;
    assert_eq!(rt; (without, with), (2, 11));
    Ok(())
}

#[test]
fn a_team_deals_its_iterations(rt: HostRuntime) -> Result<(), Fail> {
    let first = start_of_member(-1, 6, 3, 0);
    let second = start_of_member(-1, 6, 3, 1);
    let third = start_of_member(-1, 6, 3, 2);
    assert_eq!(rt;
        (first, second, third, start_of_member(-1, 6, 3, 3)),
        (-1, 1, 3, 6)
    );
    Ok(())
}
