//! Where functions seem to begin among the tokens of a text, by counting. What is found is a guess: no contract says more than that it is
//! made. It is told only where the reader reads the function from there on.
use ir_tokens::{Kind, Token};
use std::alloc::{AllocError, Global};

/// Where the function with this number seems to begin, from 0: at the word `define` for the time of this number.
pub(crate) fn guess_start(tokens: &[Token], function: usize) -> Option<usize> {
    let mut left = function;
    for at in 0..tokens.len() {
        if matches!(tokens[at].kind, Kind::Define) {
            if left == 0 {
                return Some(at);
            }
            left -= 1;
        }
    }
    None
}

/// Where each function seems to begin among the tokens of a text, found by one walk over them.
#[derive(Drop)]
pub struct Starts {
    tokens: Vec<usize>,
}

impl Starts {
    pub fn of(alloc: Global, tokens: &[Token]) -> Result<Starts, AllocError> {
        let mut starts = Vec::new(alloc);
        for at in 0..tokens.len() {
            if matches!(tokens[at].kind, Kind::Define) {
                starts.push(at)?;
            }
        }
        Ok(Starts { tokens: starts })
    }

    /// The number of the token at which the function with this number seems to begin, each from 0.
    pub fn get(&self, function: usize) -> Option<usize> {
        self.tokens.get(function).copied()
    }
}
