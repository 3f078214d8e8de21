//! The answers to the functions of a program, and which of them stay where one function or its certificate is replaced.
//! What the blocks of the other functions begin with stays too.
#![tactic(auto)]

mod again;
mod answers;
mod callers;
mod kept_functions;
mod kept_rows;
mod laws;
mod locality;

pub use again::answers_again;
pub use answers::{answers_to, first_refusal};
pub use callers::{Callers, touched_by};
pub use kept_functions::KeptFunctions;
pub use kept_rows::KeptRows;
pub use laws::rows_law;
pub use locality::{fit_law, locality_law};
