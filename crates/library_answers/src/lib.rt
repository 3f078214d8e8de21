//! What a caller of the library is told: a status, a code, where it is in the text, and the line that the program prints, copied into the
//! caller's room. Of a check, of certificates that are made, of explanations, and of sessions under edits.
#![tactic(auto)]

mod answer;
mod checked;
mod code;
mod explained;
mod made;
mod place;
mod room;
mod sessions;
mod texts;

pub use answer::Answer;
pub use checked::check_texts;
pub use explained::{explain_check, explain_make};
pub use made::make_texts;
pub use place::Place;
pub use room::copy_into;
pub use sessions::{apply_edits, begin_session, first_answer, no_session};
