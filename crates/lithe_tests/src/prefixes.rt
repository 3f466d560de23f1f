//! Every prefix of a program of two phases.
use crate::serving::{RUN, Served, serve_by};
use lithe_call::Status;
use std::test::Fail;

const TWO_PHASES: &[u8] =
    b"array a[6]; array b[6]; team i in 0..6 by 3 { a[i] = i + 1; } barrier { b[i] = a[5 - i]; }";

// The output for a prefix of this length, if it is a program: one or two declarations, or a team of one phase, each also with
// the space after it.
fn output_of(length: usize) -> Option<&'static [u8]> {
    match length {
        11 | 12 => Some(b"a = 0 0 0 0 0 0\ntransfers 0\n"),
        23 | 24 => Some(b"a = 0 0 0 0 0 0\nb = 0 0 0 0 0 0\ntransfers 0\n"),
        61 | 62 => Some(
            b"a = 1 2 3 4 5 6\nb = 0 0 0 0 0 0\ntransfers 2\n0 h0 register s1 under s0\n1 h0 unregister s1\n",
        ),
        _ => None,
    }
}

// Whether a prefix with this output is served so, and any other is reported as a syntax error.
fn is_served(served: &Served, output: Option<&[u8]>) -> bool {
    match output {
        Some(output) => served.is(Status::Done, output, b""),
        None => is_syntax_fault(served),
    }
}

// Whether a syntax error is reported, and nothing is written.
fn is_syntax_fault(served: &Served) -> bool {
    let reported = served.err.bytes().starts_with(b"syntax: ");
    served.status == Status::Syntax && reported && served.out.bytes().is_empty()
}

#[test]
fn three_prefixes_are_programs(rt: HostRuntime) -> Result<(), Fail> {
    for length in 1..TWO_PHASES.len() {
        let (prefix, _) = TWO_PHASES.split_at(length);
        let served = serve_by(&rt, RUN, prefix, 8, 4096)?;
        assert!(rt; is_served(&served, output_of(length)));
    }
    Ok(())
}
