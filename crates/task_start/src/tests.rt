//! Spaces that lie in different halves, and no text.
use crate::count_spaces;
use std::test::Fail;

#[test]
fn each_space_is_counted_once(rt: HostRuntime) -> Result<(), Fail> {
    assert_eq!(rt; count_spaces(rt.alloc(), b"to be or not to be")?, 5);
    assert_eq!(rt; count_spaces(rt.alloc(), b"   ")?, 3);
    assert_eq!(rt; count_spaces(rt.alloc(), b"")?, 0);
    Ok(())
}
