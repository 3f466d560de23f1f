//! The outputs of the examples' runs are legal.
use crate::serving::serve_by;
use lithe_call::Status;
use std::alloc::{AllocError, Global};
use std::process::Abort;
use std::sync::Wait;
use std::test::Fail;
use std::thread::Threads;

const TWO_BRANCHES: &[u8] = b"array a[4];
par {
  { a[0] = 1; }
  { a[1] = 2; }
}
";

const TWO_PHASES: &[u8] = b"array a[4];
array b[4];
team i in 0..4 by 2 {
  a[i] = i * i;
} barrier {
  b[i] = a[3 - i];
}
";

const NESTED_TEAM: &[u8] = b"array low[4];
array high[4];
par {
  {
    team i in 0..4 by 2 { low[i] = i + 1; }
  }
  {
    high[0] = 10;
    par {
      { high[1] = high[0] * 2; }
      { high[2] = high[0] * 3; }
    }
    high[3] = high[1] + high[2];
  }
}
";

const LOOP_OF_PARS: &[u8] = b"array even[1];
array odd[1];
for turn in 0..3 {
  par {
    { even[0] = even[0] + 2 * turn; }
    { odd[0] = odd[0] + 2 * turn + 1; }
  }
}
";

const SHARED_READS: &[u8] = b"array input[3];
array sum[1];
array product[1];
for i in 0..3 { input[i] = i + 2; }
par {
  { for i in 0..3 { sum[0] = sum[0] + input[i]; } }
  {
    product[0] = 1;
    for i in 0..3 { product[0] = product[0] * input[i]; }
  }
}
";

const DYNAMIC_INDEX: &[u8] = b"array a[4];
array at[1];
at[0] = -1;
a[at[0]] = 7;
if a[3] == 7 { a[0] = 9223372036854775807 + 1; } else { a[0] = 1; }
";

const CHOICE: &[u8] = b"array left[1];
array turns[8];
left[0] = 8;
for turn in 0..3 {
  if left[0] > 2 {
    team i in 0..8 by 2 { if i < left[0] { turns[i] = turns[i] + 1; } }
  } else {
    for i in 0..8 { if i < left[0] { turns[i] = turns[i] + 1; } }
  }
  left[0] = left[0] / 2;
}
";

// The numbers of harts with which the examples run.
const HARTS: [&str; 7] = [
    "--harts=1",
    "--harts=2",
    "--harts=3",
    "--harts=4",
    "--harts=5",
    "--harts=8",
    "--harts=16",
];

/// Runs the program on so many harts each, and audits the output of each run.
pub fn runs_are_legal<R: AllocGlobal + Abort + Threads + Wait + Sync>(
    rt: &R,
    program: &[u8],
) -> Result<(), Fail> {
    for harts in HARTS {
        let input = input_of_run(rt, harts, program)?;
        assert!(rt; is_legal(rt, harts, &input)?);
    }
    Ok(())
}

// Whether an audit on so many harts finds its input legal.
fn is_legal<R: AllocGlobal + Threads + Wait + Sync>(
    rt: &R,
    harts: &str,
    input: &[u8],
) -> Result<bool, Fail> {
    let served = serve_by(rt, &["audit", harts], input, 512, 512)?;
    let legal = served.out.bytes().starts_with(b"legal ");
    Ok(served.status == Status::Done && legal)
}

// The input of an audit of the output of a run on so many harts.
fn input_of_run<R: AllocGlobal + Threads + Wait + Sync>(
    rt: &R,
    harts: &str,
    program: &[u8],
) -> Result<Vec<u8>, Fail> {
    let served = serve_by(rt, &["run", harts], program, 512, 512)?;
    if served.status != Status::Done {
        return Err(Fail::new("it isn't done"));
    }
    Ok(input(rt.alloc(), program, served.out.bytes())?)
}

/// The input of an audit.
pub fn input(alloc: Global, program: &[u8], output: &[u8]) -> Result<Vec<u8>, AllocError> {
    let mut input = program.to_vec(alloc)?;
    input.extend_from_slice(b"%%\n")?;
    input.extend_from_slice(output)?;
    Ok(input)
}

#[test]
fn runs_of_the_examples_are_legal(rt: HostRuntime) -> Result<(), Fail> {
    runs_are_legal(&rt, TWO_BRANCHES)?;
    runs_are_legal(&rt, TWO_PHASES)?;
    runs_are_legal(&rt, NESTED_TEAM)?;
    runs_are_legal(&rt, LOOP_OF_PARS)?;
    runs_are_legal(&rt, SHARED_READS)?;
    runs_are_legal(&rt, DYNAMIC_INDEX)?;
    runs_are_legal(&rt, CHOICE)
}
