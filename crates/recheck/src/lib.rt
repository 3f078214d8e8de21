//! Sessions: a module with its certificates, changed by edits, and the answer to it after each of them. Edits are texts of functions and
//! sections that are to stand in the place of others, and are read from their frame.
#![tactic(auto)]

mod code;
mod edit;
mod edit_fault;
mod edit_input;
mod edits;
mod frame_fault;
mod interface;
mod kept;
mod laws;
mod lines;
mod named;
mod part;
mod put;
mod reader;
mod roots;
mod session;
mod tables;
mod texts;

pub use certificate::CertFault;
pub use edit::Edit;
pub use edit_fault::EditFault;
pub use laws::fitting_law;
pub use reader::read_edits;
pub use session::Session;
