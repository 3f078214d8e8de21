//! The slots of a function: which local names name which slot, what each slot holds, and which slots are roots.
#![tactic(auto)]

mod draft;
mod hops;
mod slot_id;
mod slots;

pub use slot_id::SlotId;
pub use slots::{Slots, slots_of};
