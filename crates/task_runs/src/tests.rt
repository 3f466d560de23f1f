//! The same result on any number of harts.
use crate::{count_on, greatest_on};
use std::test::Fail;
use task_crew::RunError;

#[test]
fn harts_do_not_change_the_count(rt: HostRuntime) -> Result<(), Fail> {
    for harts in [1u8, 2, 4, 16, 64] {
        let count = count_on(&rt, rt.alloc(), harts, b"to be or not to be");
        assert_eq!(rt; count, Ok(5), "on {harts} harts");
    }
    Ok(())
}

#[test]
fn harts_do_not_change_the_greatest_number(rt: HostRuntime) -> Result<(), Fail> {
    let mut numbers = Vec::from_elem(rt.alloc(), 7u32, 1000)?;
    numbers.as_mut_slice()[613] = 8;
    for harts in [1u8, 2, 4, 16, 64] {
        let greatest = greatest_on(&rt, rt.alloc(), harts, numbers.as_slice());
        assert_eq!(rt; greatest, Ok(8), "on {harts} harts");
    }
    assert_eq!(rt; greatest_on(&rt, rt.alloc(), 4, &[]), Ok(0));
    Ok(())
}

#[test]
fn no_hart_is_an_error(rt: HostRuntime) -> Result<(), Fail> {
    assert_eq!(rt;
        greatest_on(&rt, rt.alloc(), 0, &[1]),
        Err(RunError::HartCount(0))
    );
    Ok(())
}
