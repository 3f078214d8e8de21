//! Threads of a machine on the shared heap: what each leaves is a share that its machine asks for.
#![tactic(auto)]

mod beside;
mod calls;
mod closing;
mod collecting;
mod root_cells;
mod serving;

pub use beside::{Job, Limits, Service, serve_beside};
pub use calls::{alloc_for, read_for, safepoint_for, store_plain_for, write_for};
pub use closing::close_after;
pub use collecting::collect;
pub use root_cells::RootCells;
pub use serving::{ServingEnd, serve};
