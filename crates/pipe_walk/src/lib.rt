//! The check for pipelines: which cells the pieces of a construct touch, phase after phase, and whether two pieces cross. If
//! two cross, the members must wait for one another, and a pipeline would be wrong.
//!
//! If the text shows that no two pieces cross, by the stretches of cells that each member can touch, there is no walk.
//! Otherwise a walk marks for each cell the lowest and the highest member that reads it in a phase, and those that change it.
//! So each phase costs its walk, and one pass over the touched cells, or over all cells if a dynamic index touches an array.
//!
//! `lithe pipe` calls `pipe_check` before a run, and a home calls `uncrossed` before it opens a pipe. Begin with `pipe_check`
//! in `check.rt`; the tests of `scheduler_tests` check programs that cross and programs that don't.
#![tactic(auto)]

mod cells;
mod check;
mod construct;
mod crossing;
mod fault;
mod mark;
mod members;
mod owners;
mod past;
mod seek;
mod stretches;
mod table;
mod touch;

pub use check::pipe_check;
pub use construct::uncrossed;
pub use crossing::crossing_of;
pub use fault::PipeFault;
