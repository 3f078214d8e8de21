//! Laws of printing and of edits: a module that was read from bytes can be printed, and its printed text is read as that module again, if that text is
//! within the limit. Where the text of a function stands in a whole text that is read, it is read alone too.
#![tactic(auto)]

mod alone_laws;
mod print_laws;
mod printable_laws;
mod reading_laws;
mod replaced_laws;
mod table_laws;

pub use alone_laws::{counted_law, read_alone_law};
pub use print_laws::{print_law, printed_again_law};
pub use printable_laws::{named_law, printable_law};
pub use reading_laws::{constant_law, core_law, end_law, integer_type_law, name_law, star_law};
pub use replaced_laws::{grown_law, replaced_law, whole_law};
pub use table_laws::{one_type_law, within_law};
