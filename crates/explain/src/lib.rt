//! What is told of each code that is printed of a refusal or a fault: one page of text, and a list of all codes.
#![tactic(auto)]

mod certificate_texts;
mod code;
mod layout_texts;
mod list_texts;
mod module_texts;
mod record_texts_from_1;
mod record_texts_from_11;
mod rule_texts_from_1;
mod rule_texts_from_11;
mod trace_texts;

pub use code::Code;
pub use list_texts::LIST;
