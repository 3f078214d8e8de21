//! The words of a shared heap and the tokens of its actors: one operation on one word at a time, each of them a step of one run.
#![tactic(auto)]

mod closed_words;
mod ending;
mod opening;
mod token;
mod words;

pub use closed_words::ClosedWords;
pub use ending::ReturningWords;
pub use token::ActorToken;
pub use words::SharedWords;
