//! What the files of a command are read as, and the lines that are printed of faults in them, of verdicts, of the outcomes of traces and
//! of runs on real threads.
#![tactic(auto)]

mod faults;
mod files;
mod findings;
mod found;
mod name;
mod outcomes;
mod outputs;
mod run_report;
mod status;
mod trusts;
mod unreadable;
mod verdicts;

pub use faults::{address_given, memory, no_certificate, no_layouts};
pub use files::{
    Certified, File, Files, ModuleFile, Traced, Unread, bytes_of, edits_in, file_of, is_wide,
    kept_files, module_in, path_of, program_in, read_certified, read_traced, shaped_in, trace_in,
};
pub use findings::{Findings, show_accepted, show_layouts};
pub use outcomes::{no_threads, replayed, write_break};
pub use outputs::{Outputs, Results};
pub use run_report::ran;
pub use status::{
    STATUS_MEMORY, STATUS_NO, STATUS_UNREADABLE, STATUS_USAGE, STATUS_YES, status_of,
};
pub use trusts::{accepted_again, report_accepted};
pub use unreadable::unread;
pub use verdicts::{line_of_refusal, not_laid_out, refused, report_verdict, write_block};
