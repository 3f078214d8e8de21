//! The tables of which facts are made: a row for each value and for each slot, few of them filled, and values that are tied.
//! They are built, changed, copied and kept in place.
#![tactic(auto)]

mod chains;
mod class_id;
mod kept;
mod known;
mod numbered;
mod owners;
mod refill;
mod row;
pub mod rows;
mod sheet;
mod slot_rows;
mod slot_sweeps;
mod sweeps;
mod ties;
mod uses;
mod values;

pub use chains::Chains;
pub use class_id::ClassId;
pub use kept::KeptValues;
pub use known::{Class, Known, SlotFact, Test};
pub use slot_rows::SlotRows;
pub use ties::Ties;
pub use values::Values;
