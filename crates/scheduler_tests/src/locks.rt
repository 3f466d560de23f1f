//! The lock of a scheduler that harts share.

use sched_api::take_lock;
use std::sync::Mutex;
use std::test::Fail;

#[test]
fn a_lock_is_free_again_after_its_guard(rt: HostRuntime) -> Result<(), Fail> {
    let lock = Mutex::new(3u64);
    *take_lock(&lock, &rt) = 4;
    assert_eq!(rt; *take_lock(&lock, &rt), 4);
    Ok(())
}
