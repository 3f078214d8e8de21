//! The words of a text, where they are, and what they are: decimal numbers, and names with a sign before them. How names
//! and numbers are printed, plain or in quotes, and that names are read again. A reader that goes through a text word by word.
#![tactic(auto)]

mod blank;
mod found;
mod laws;
mod names;
mod naming;
mod numbers;
mod places;
mod printed;
mod quoted;
mod reader;
mod words;

pub use blank::Blank;
pub use found::WordFault;
pub use laws::name_law;
pub use names::{is_plain, put_name, put_quoted, quoted_byte};
pub use naming::{Sigil, layout_name_in, name_in};
pub use numbers::{decimal, is_digit, is_number, number_of_word};
pub use places::place;
pub use printed::{put_global, put_key, put_layout, put_local, put_number};
pub use quoted::QuotedByte;
pub use reader::{Reader, Rest};
pub use words::{ends_line, past_blanks, past_lines, past_word, word};
