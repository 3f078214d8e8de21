//! Who sees what is refused.
use block_rules::Refusal;
use certs::Certs;
use layout::Program;

/// Sees what is refused of a program while program and certificates stand.
pub trait Witness {
    /// These are refused, in the order of the program.
    fn refused(&mut self, program: &Program, certs: &Certs, refusals: &[Refusal]);
}

/// Nobody sees it.
#[derive(Clone, Copy)]
pub struct Unseen;

impl Witness for Unseen {
    fn refused(&mut self, _program: &Program, _certs: &Certs, _refusals: &[Refusal]) {}
}
