//! Where the collector may be after the steps that it made, by the order of its steps. A look may be read as in turn or as out of
//! turn, so there may be several places.
#![tactic(auto)]

mod places;
mod spot;

pub use places::CollectorPlaces;
