//! The commands, from a command and its files to the printed lines and the status: `replay`, `run`, `watch` and `conform`, and those of the crates below.
#![tactic(auto)]

mod command;
mod conforming;
mod files;
mod inputs;
mod listing;
mod no_file;
mod record_told;
mod record_words;
mod replaying;
mod running;
mod saving;
mod steps_told;
mod watching;
mod written;

pub use command::work;
pub use explained_checks::Look;
pub use files::Contents;
pub use inputs::is_ended;
pub use listing::{Listed, Outside, check_list};
pub use messages::Pen;
pub use no_file::{NoFile, explain_no_file};
pub use reports::{
    File, Files, Outputs, Results, STATUS_MEMORY, STATUS_NO, STATUS_UNREADABLE, STATUS_USAGE,
    STATUS_YES, memory, no_layouts, replayed, status_of,
};
pub use search_commands::{Nobody, Onlooker, SoFar};
