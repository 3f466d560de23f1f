//! The call of a case.
ghost use Rattle.std.specs.Prelude.{◌≤◌};

use crate::case::Case;
use crate::number::Number;
use lithe_call::lithe;
use outside_io::{MemSink, MemSource, OpenGate};
use picture_call::serve_picture;
use std::alloc::{AllocError, Global};
use std::sync::Wait;
use std::thread::Threads;

/// What a call writes and reports, and its status.
#[derive(Drop)]
pub struct Served {
    pub status: u8,
    pub out: Vec<u8>,
    pub err: Vec<u8>,
}

impl Served {
    /// Whether the case has all that at this number.
    pub fn is_of(&self, case: &Case, number: u32) -> bool {
        self.status == case.status
            && case.writes(number, &self.out)
            && case.reports(number, &self.err)
    }
}

// The most bytes of a call.
fn most(it: Number, number: u32) -> usize
    ensures { 1 ≤ result }
{
    match it.at(number) {
        0 => 1,
        most => most as usize,
    }
}

// A sink of these numbers. Call 0 never comes.
fn sink(alloc: Global, flow: [Number; 3], number: u32) -> Result<MemSink, AllocError> {
    let [room, size, call] = flow;
    MemSink::new(
        alloc,
        room.at(number) as usize,
        most(size, number),
        &[call.at(number)],
    )
}

// Calls with the words of the case.
fn status_of<R: Threads + Wait + Sync>(
    rt: &R,
    alloc: Global,
    case: &Case,
    source: &mut MemSource,
    out: &mut MemSink,
    err: &mut MemSink,
) -> u8 {
    if case.is_picture {
        return serve_picture(alloc, &case.words, source, out, err).number();
    }
    lithe(rt, alloc, &case.words, source, out, err, &OpenGate).number()
}

/// Makes the call of the case at this number.
pub fn make_call<R: Threads + Wait + Sync>(
    rt: &R,
    alloc: Global,
    case: &Case,
    number: u32,
) -> Result<Served, AllocError> {
    let [size, call, _] = case.source;
    let mut source = MemSource::new(alloc, &case.input, most(size, number), &[call.at(number)])?;
    let mut out = sink(alloc, case.out_flow, number)?;
    let mut err = sink(alloc, case.err_flow, number)?;
    let status = status_of(rt, alloc, case, &mut source, &mut out, &mut err);
    Ok(Served {
        status,
        out: out.bytes().to_vec(alloc)?,
        err: err.bytes().to_vec(alloc)?,
    })
}
