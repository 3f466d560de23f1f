//! Sorts on one hart and on four, compared with those of the standard library.
use std::alloc::{AllocError, Global};
use std::cmp::Reverse;
use std::test::Fail;
use task_crew::run_on_eight_levels;
use task_sort::{SHORTEST, Sort};
use tasks::run_alone;

// `count` numbers of a generator, each below the limit.
fn numbers(alloc: Global, count: u32, limit: u64) -> Result<Vec<u64>, AllocError> {
    let mut numbers = Vec::new(alloc);
    let mut state = 12345u64;
    for _ in 0..count {
        state = state
            .wrapping_mul(6364136223846793005)
            .wrapping_add(1442695040888963407);
        numbers.push((state >> 33).checked_rem(limit).unwrap_or(0))?;
    }
    Ok(numbers)
}

#[test]
fn sorts_as_std_does(rt: HostRuntime) -> Result<(), Fail> {
    for cuts in 0..6u8 {
        for limit in [1u64, 2, 3, 1_000_000] {
            for count in [0u32, 1, 2, 3, 500] {
                let items = numbers(rt.alloc(), count, limit)?;
                let mut expected = items.clone()?;
                expected.sort()?;
                let shortest = 0;
                let sorted = run_alone(
                    rt.alloc(),
                    Sort {
                        items,
                        cuts,
                        shortest,
                    },
                )?;
                assert!(rt;
                    sorted == expected,
                    "{count} numbers below {limit}, {cuts} cuts"
                );
            }
        }
    }
    Ok(())
}

#[test]
fn one_two_and_a_thousand_keys_are_sorted_on_four_harts(rt: HostRuntime) -> Result<(), Fail> {
    for keys in [1u64, 2, 1000] {
        let items = numbers(rt.alloc(), 20_000, keys)?;
        let mut expected = items.clone()?;
        expected.sort()?;
        let sort = Sort {
            items,
            cuts: 6,
            shortest: 100,
        };
        let sorted = run_on_eight_levels(&rt, rt.alloc(), 4, 6, sort).ok();
        assert!(rt; sorted == Some(expected), "{keys} keys");
    }
    Ok(())
}

#[test]
fn sorts_by_another_order(rt: HostRuntime) -> Result<(), Fail> {
    let items = vec![in rt.alloc();
        Reverse(3u8),
        Reverse(1),
        Reverse(2),
        Reverse(9),
        Reverse(1),
    ]?;
    let task = Sort {
        items,
        cuts: 2,
        shortest: 0,
    };
    let sorted = run_alone(rt.alloc(), task)?;
    assert_eq!(rt;
        sorted.as_slice(),
        [Reverse(9u8), Reverse(3), Reverse(2), Reverse(1), Reverse(1)].as_slice()
    );
    let short = Sort {
        items: vec![in rt.alloc(); 2u64, 1]?,
        cuts: 1,
        shortest: SHORTEST,
    };
    assert_eq!(rt;
        run_alone(rt.alloc(), short)?.as_slice(),
        [1u64, 2].as_slice()
    );
    Ok(())
}
