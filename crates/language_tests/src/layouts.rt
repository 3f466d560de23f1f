//! The positions of arrays in layouts.

use crate::programs::{are_sized, parsed};
use array_eval::Layout;
use array_tree::{Arrays, Name};
use std::alloc::Global;
use std::test::Fail;

// The index, the first cell and the length of the array with a name.
fn place(alloc: Global, text: &str, name: &[u8]) -> Result<(usize, usize, usize), Fail> {
    let program = parsed(alloc, text)?;
    place_in(alloc, &program.arrays, name)
}

// The index, the first cell and the length of the array with a name among these.
fn place_in(alloc: Global, arrays: &Arrays, name: &[u8]) -> Result<(usize, usize, usize), Fail> {
    if !are_sized(arrays) {
        return Err(Fail::new("arrays of no size that a program may have"));
    }
    let layout = Layout::new(alloc, arrays)?;
    let place = layout.place_of(&Name::new(alloc, name)?);
    Ok((place.number, place.base, place.length))
}

// The digest of a name.
fn digest(alloc: Global, name: &[u8]) -> Result<u64, Fail> {
    let name = Name::new(alloc, name)?;
    Ok(name.digest())
}

#[test]
fn two_names_have_one_digest(rt: HostRuntime) -> Result<(), Fail> {
    assert_eq!(rt; digest(rt.alloc(), b"eO0J8aA2qbhs")?, 0xfcfa_c023_2a40_7ca1);
    assert_eq!(rt; digest(rt.alloc(), b"d92BRY10am9L")?, 0xfcfa_c023_2a40_7ca1);
    Ok(())
}

#[test]
fn arrays_of_one_digest_lie_apart(rt: HostRuntime) -> Result<(), Fail> {
    let text = "array first[5]; array eO0J8aA2qbhs[2]; array d92BRY10am9L[3];";
    let one = place(rt.alloc(), text, b"eO0J8aA2qbhs")?;
    let other = place(rt.alloc(), text, b"d92BRY10am9L")?;
    assert_eq!(rt; one, (1, 5, 2));
    assert_eq!(rt; other, (2, 7, 3));
    Ok(())
}

#[test]
fn no_array_is_one_cell_behind_the_others(rt: HostRuntime) -> Result<(), Fail> {
    let text = "array first[5]; array eO0J8aA2qbhs[2];";
    let none = place(rt.alloc(), text, b"d92BRY10am9L")?;
    assert_eq!(rt; none, (2, 7, 1));
    Ok(())
}

// The numbers of arrays and cells that a layout counts, and of declarations that it keeps.
fn counts(alloc: Global, arrays: &Arrays) -> Result<(usize, usize, usize), Fail> {
    if !are_sized(arrays) {
        return Err(Fail::new("arrays of no size that a program may have"));
    }
    let layout = Layout::new(alloc, arrays)?;
    Ok((
        layout.count(),
        layout.cells(),
        layout.arrays().declarations.len(),
    ))
}

#[test]
fn a_layout_counts_its_arrays(rt: HostRuntime) -> Result<(), Fail> {
    let alloc = rt.alloc();
    let program = parsed(alloc, "array a[3]; array b[4];")?;
    assert_eq!(rt; counts(alloc, &program.arrays)?, (2, 7, 2));
    Ok(())
}
