//! How messages are written: what stands out by colour, where something is, and a line of a text with a caret under a part of it. Also
//! where the instructions of a function begin in the text of a module, which is at their first tokens, as the reader reads them; and the
//! lines of a certificate. And lines that are offered to write into a module, in the kind of pointers that the module has: how the functions of the
//! runtime are declared, how a slot is made a root, and names that are not taken. A message may be kept
//! in its parts, with the changes of files that it offers. Of the texts no contract says more than that they are made.
#![tactic(auto)]

mod cert_lines;
mod declares;
mod excerpts;
mod guesses;
mod instructions;
mod line_starts;
mod lines;
mod look;
mod marks;
mod message;
mod new_names;
mod parts;
mod paths;
mod pointers;
mod roots;
mod written_types;

pub use cert_lines::{CertLine, cert_place};
pub use declares::{declare_change, is_declared, put_declare_of, put_wanted_declare};
pub use excerpts::{put_line_of_token, put_position_line, put_token_line};
pub use guesses::Starts;
pub use instructions::{Numbers, Places, first_token, places_from};
pub use line_starts::LineStarts;
pub use lines::{Line, line_at, line_numbered};
pub use look::{Ink, Look, Pen};
pub use marks::put_mark;
pub use message::Message;
pub use new_names::put_new_name;
pub use parts::{Change, ChangedFile, Fix, Marked, Part, Parts};
pub use paths::{NamedText, put_path_at, put_position};
pub use pointers::Pointers;
pub use roots::{CODE_MARGIN, Slot, Unheld, put_new_root_lines, put_root_lines, put_slot_name};
pub use written_types::put_type;
