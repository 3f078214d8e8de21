//! What is told of faults of texts and layouts besides their line: the file, what is found there, the line with a caret, what was expected,
//! and how to go on.
//! These are texts: no contract says more than that they are made.
#![tactic(auto)]

mod cert_faults;
mod cert_sentences;
mod cert_site;
mod ends;
mod faults;
mod forms;
mod layout_faults;
mod left_out;
mod misfits;
mod near;
mod numbering;
mod offers;
mod sentences;
mod site;
mod sorts;
mod structs;
mod traces;
mod unrooted;

pub use cert_faults::{CheckedTexts, put_cert_fault, put_edits_fault};
pub use faults::{put_fault_of, put_read_fault, put_whole_fault};
pub use layout_faults::put_layout_fault;
pub use traces::{TracedTexts, put_trace_fault};
