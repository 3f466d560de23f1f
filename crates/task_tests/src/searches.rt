//! A library that is generic over what it looks for, on four harts: `task_search`.
ghost use Rattle.std.specs.Prelude.{◌==◌, ◌%◌};

use std::alloc::{AllocError, Global};
use std::test::Fail;
use task_crew::run_on_eight_levels;
use task_search::{Search, Tree, Wanted};

/// The multiples of seven.
#[derive(Drop)]
pub(crate) struct Sevens;

impl Wanted<u64> for Sevens {
    ghost wants = { λ _ value. value % 7 == 0 };

    fn wants(&self, value: &u64) -> bool {
        *value % 7 == 0
    }
}

// A number, and below it the trees of its double and of the number after that.
pub(crate) fn doubles(alloc: Global, value: u64, levels: u8) -> Result<Tree<u64>, AllocError> {
    let mut children = Vec::new(alloc);
    if levels > 0 {
        let double = value.wrapping_mul(2);
        children.push(doubles(alloc, double, levels - 1)?)?;
        children.push(doubles(alloc, double.wrapping_add(1), levels - 1)?)?;
    }
    Ok(Tree { value, children })
}

// Why 2051: a program in another language finds it in the same tree. By levels the first multiple would be 7.
#[test]
fn the_first_in_preorder_is_found_on_four_harts(rt: HostRuntime) -> Result<(), Fail> {
    let tree = doubles(rt.alloc(), 1, 12)?;
    for levels in [0u8, 1, 5, 8] {
        let search = Search {
            tree: &tree,
            wanted: &Sevens,
            levels,
        };
        let found = run_on_eight_levels(&rt, rt.alloc(), 4, levels, search);
        assert_eq!(rt; found, Ok(Some(&2051)), "by {levels} levels");
    }
    Ok(())
}
