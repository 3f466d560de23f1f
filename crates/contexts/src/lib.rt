//! Contexts: stored computations, and the states that they go through.
//!
//! A context holds one machine in a box. A fresh context runs; a running context may be paused and resumed, or blocked,
//! unblocked and resumed; a running context that is done is ended. Each state is a type, and each change keeps the machine. A
//! paused or blocked context may be dropped with its machine; a context in another state must be passed to the next call.
//! `table_tests` and `scheduler_tests` have examples.
#![tactic(auto)]

mod context;
mod machine;

pub use context::{
    Blocked, Ended, Fresh, InitRefused, Paused, Running, ctx_block, ctx_fini, ctx_init, ctx_pause,
    ctx_resume, ctx_run, ctx_unblock,
};
pub use machine::{Machine, Step};
