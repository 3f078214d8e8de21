//! What is told besides its line of a command that does not accept its files: an explainer sees why, and explains the first fault, the
//! first refusal, or that of each block. For a caller that let none see it, files are read and checked again.
#![tactic(auto)]

mod answering;
mod checked;
mod collector;
mod edited;
mod explained;
mod explainer;
mod explaining;
mod hunted;
mod made;
mod refusals;
mod traced;

pub use answering::{AnswerForm, Ended, answer_text};
pub use explainer::{Explainer, Topic};
pub use explaining::{Question, explain};
pub use hunted::explain_hunt;
pub use messages::Look;
