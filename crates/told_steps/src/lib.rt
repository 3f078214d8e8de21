//! The steps of a run in words: what each does, the place of the thread in the module's text, the life of a cell that is gone, and the
//! path that still leads to it. Also as JSON, a line for each, for programs that show them; docs/STEPS.md has the members. These are
//! texts: no contract says more than that they are made.
#![tactic(auto)]

mod events;
mod going;
mod heap_view;
mod json_frames;
mod json_heads;
mod json_lines;
mod json_state;
mod json_steps;
mod json_texts;
mod life;
mod lines;
mod listing;
mod paths;
mod put_event;
mod shade;
mod slot_changes;
mod told;

pub use json_heads::path_of_break;
pub use json_steps::put_json;
pub use told::{Steps, Told, put_told};
