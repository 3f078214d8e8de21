//! Prints diagnoses: the words of each case in one table, and one printer for all of them. A message that is kept in its parts has the
//! changes of the files that mend what is refused. These are texts: no contract says more than that they are made.
#![tactic(auto)]

mod barrier_lines;
mod cases;
mod cert_lines;
mod claims;
mod groups;
mod layout_numbers;
mod mends;
mod offers;
mod places;
mod printer;
mod seen;
mod spans;
mod texts;
mod told;

pub use printer::Printer;
pub use texts::ReadText;
