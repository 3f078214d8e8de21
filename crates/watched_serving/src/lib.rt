//! Threads of any machine on the shared heap, each call tested by the discipline first: what each leaves is a share that its machine
//! asks for, and a call that would break the discipline is told and never made.
#![tactic(auto)]

mod beside;
mod breach;
mod calls;
mod closing;
mod pieces;
mod root_lists;
mod watching;

pub use beside::{WatchedJob, serve_beside};
pub use breach::Breach;
pub use closing::close_after;
pub use watching::{WatchedEnd, serve};
