//! Laws of migration: certificates that fit a module fit its opaque text once they are migrated, a migrated module has the same cells, and an
//! opaque text can be printed where the module's could.
#![tactic(auto)]

mod cells_law;
mod fits_law;
mod printed_law;

pub use cells_law::same_cells_law;
pub use fits_law::migrated_law;
pub use printed_law::opaque_printed_law;
