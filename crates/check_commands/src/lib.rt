//! The commands on a module and its certificate: `check`, `make`, `recheck`, `migrate` and `lower`; and `explain`.
#![tactic(auto)]

mod checking;
mod explaining;
mod lower;
mod making;
mod migrating;
mod rechecking;
mod refusing;

pub use checking::check_files;
pub use explaining::explain_code;
pub use lower::lower_files;
pub use making::{make_file, print_made, print_unmade};
pub use migrating::migrate_files;
pub use rechecking::{recheck_files, write_edits, write_verdict};
