//! What mends a refusal or a fault, as changes of the two texts: the section of a function in its certificate, a barrier in place of a
//! plain store, and a declaration that is missing. All this is found in texts: no contract says more than that it is found, and what a
//! text is with a change.
#![tactic(auto)]

mod barrier;
mod changed;
mod declares;
mod places;
mod sections;
mod words;

pub use barrier::barrier_changes;
pub use changed::changed_text;
pub use declares::missing_declare;
pub use places::offset_of;
pub use sections::{section_change, section_name, whole_change};
pub use words::put_words;
