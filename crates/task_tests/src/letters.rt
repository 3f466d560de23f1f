//! A search in a tree of letters, on one hart.
ghost use Rattle.std.specs.Prelude.{◌==◌, ◌||◌};

use std::alloc::{AllocError, Global};
use std::test::Fail;
use task_search::{Search, Tree, Wanted, first_in};
use tasks::run_alone;

/// Either of two letters.
#[derive(Drop)]
struct Either(char, char);

impl Wanted<char> for Either {
    ghost wants = { λ either value. value == either.0 || value == either.1 };

    fn wants(&self, value: &char) -> bool {
        *value == self.0 || *value == self.1
    }
}

fn leaf(alloc: Global, value: char) -> Tree<char> {
    Tree {
        value,
        children: Vec::new(alloc),
    }
}

// Why this tree: it is the usual example of the orders in which a tree is visited. Its preorder is F B A D C E G I H, and by
// levels it is F B G A D I C E H.
fn letters(alloc: Global) -> Result<Tree<char>, AllocError> {
    let d = Tree {
        value: 'D',
        children: vec![in alloc; leaf(alloc, 'C'), leaf(alloc, 'E')]?,
    };
    let b = Tree {
        value: 'B',
        children: vec![in alloc; leaf(alloc, 'A'), d]?,
    };
    let i = Tree {
        value: 'I',
        children: vec![in alloc; leaf(alloc, 'H')]?,
    };
    let g = Tree {
        value: 'G',
        children: vec![in alloc; i]?,
    };
    Ok(Tree {
        value: 'F',
        children: vec![in alloc; b, g]?,
    })
}

#[test]
fn the_first_in_preorder_is_found(rt: HostRuntime) -> Result<(), Fail> {
    let tree = letters(rt.alloc())?;
    let wanted = Either('G', 'C');
    assert_eq!(rt; first_in(&tree, &wanted).copied(), Some('C'));
    for levels in 0..=16 {
        let search = Search {
            tree: &tree,
            wanted: &wanted,
            levels,
        };
        let found = run_alone(rt.alloc(), search)?;
        assert_eq!(rt; found.copied(), Some('C'), "by {levels} levels");
    }
    Ok(())
}

#[test]
fn the_root_comes_first_and_no_other_letter_is_found(rt: HostRuntime) -> Result<(), Fail> {
    let tree = letters(rt.alloc())?;
    assert_eq!(rt; first_in(&tree, &Either('A', 'F')).copied(), Some('F'));
    assert_eq!(rt; first_in(&tree, &Either('Y', 'Z')).copied(), None);
    let search = Search {
        tree: &tree,
        wanted: &Either('Y', 'Z'),
        levels: 2,
    };
    assert_eq!(rt; run_alone(rt.alloc(), search)?.copied(), None);
    Ok(())
}
