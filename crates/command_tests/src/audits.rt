//! The parts of an audit's input. `case_runs/data/audits.cases` and `forged.cases` have the audits.
use run_audit::parts_of;
use std::test::Fail;

#[test]
fn the_mark_is_a_whole_line(rt: HostRuntime) -> Result<(), Fail> {
    let (first, second) = parts_of(b"a %%\n%%%\n%%\nb\n%%\n").ok_or("a mark")?;
    assert_eq!(rt; first, b"a %%\n%%%\n".as_slice());
    assert_eq!(rt; second, b"b\n%%\n".as_slice());
    assert!(rt; parts_of(b"a\n%%").is_none());
    Ok(())
}
