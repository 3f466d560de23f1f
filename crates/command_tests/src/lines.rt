//! The lines that report faults.
use array_lang::{SyntaxFault, parse};
use array_tree::Program;
use disjoint_check::{CheckFault, Limit};
use error_text::{crossing_line, refusal_line, syntax_line, tally_line};
use pipe_walk::PipeFault;
use std::alloc::{AllocError, Global};
use std::test::Fail;
use tally_cells::TallyFault;

// Whether the line is this text.
fn is(line: Result<Vec<u8>, AllocError>, text: &[u8]) -> bool {
    match line {
        Ok(line) => line.as_slice() == text,
        Err(_) => false,
    }
}

// A program with an array of two cells and one of three.
fn program(alloc: Global) -> Result<Program, Fail> {
    let program = parse(alloc, b"array a[2]; array b[3];")
        .ok()
        .ok_or("no program")?;
    Ok(program)
}

#[test]
fn faults_of_texts_report_their_places(rt: HostRuntime) -> Result<(), Fail> {
    let line = syntax_line(rt.alloc(), SyntaxFault::Unexpected { at: 9 });
    assert!(rt; is(line, b"syntax: unexpected at byte 9\n"));
    let line = syntax_line(rt.alloc(), SyntaxFault::NotAscii { at: 6 });
    assert!(rt; is(line, b"syntax: byte 6 is not ASCII\n"));
    Ok(())
}

#[test]
fn faults_of_programs_report_what_was_found(rt: HostRuntime) -> Result<(), Fail> {
    let program = program(rt.alloc())?;
    let fault = CheckFault::Overlap { line: 1, cell: 4 };
    let line = refusal_line(rt.alloc(), &program, fault);
    assert!(rt; is(line, b"refused: overlap on b[2] at line 1\n"));
    let fault = CheckFault::BadRange {
        line: 2,
        what: Limit::Bounds,
        found: -3,
    };
    let line = refusal_line(rt.alloc(), &program, fault);
    assert!(rt; is(line, b"refused: bounds -3 at line 2\n"));
    let fault = CheckFault::OutOfRange {
        line: 1,
        index: 4,
        length: 4,
    };
    let line = refusal_line(rt.alloc(), &program, fault);
    assert!(rt; is(line, b"refused: index 4 outside 4 cells at line 1\n"));
    Ok(())
}

#[test]
fn faults_of_adds_report_their_lines(rt: HostRuntime) -> Result<(), Fail> {
    let line = tally_line(rt.alloc(), TallyFault::Unshaped { line: 3 });
    assert!(rt; is(line, b"refused: accumulation at line 3\n"));
    let line = tally_line(rt.alloc(), TallyFault::NameTaken { line: 1 });
    assert!(rt; is(line, b"refused: name taken at line 1\n"));
    Ok(())
}

#[test]
fn crossings_report_their_cells(rt: HostRuntime) -> Result<(), Fail> {
    let program = program(rt.alloc())?;
    let fault = PipeFault::Crossing { line: 2, cell: 3 };
    let line = crossing_line(rt.alloc(), &program, fault);
    assert!(rt; is(line, b"refused: crossing on b[1] at line 2\n"));
    Ok(())
}
