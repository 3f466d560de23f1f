//! One hart, with and without cuts.
use crate::Greatest;
use std::test::Fail;
use tasks::run_alone;

#[test]
fn the_greatest_number_is_found_in_each_half(rt: HostRuntime) -> Result<(), Fail> {
    let numbers = [3u32, 1, 4, 1, 5, 9, 2, 6];
    for cuts in [0u8, 1, 2, 3] {
        let task = Greatest {
            numbers: &numbers,
            cuts,
        };
        assert_eq!(rt; run_alone(rt.alloc(), task), Ok(9), "with {cuts} cuts");
    }
    Ok(())
}
