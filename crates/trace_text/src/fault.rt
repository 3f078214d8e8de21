use ir_tokens::Position;
use thiserror::Error;

/// The first fault of a trace's text, with its place.
#[derive(Clone, Copy, Debug, PartialEq, Eq, Error)]
pub enum TraceFault {
    /// The fault P1: no form continues with this word or line end. The program has nothing of this name, it is listed twice, or
    /// a thread too many begins here.
    #[error("trace syntax at {}:{}", .0.line, .0.column)]
    Syntax(Position),
    /// The fault P2.
    #[error("no such thread at {}:{}", .0.line, .0.column)]
    NoThread(Position),
    /// The fault P3: with this count there are more steps than the limit.
    #[error("too many steps at {}:{}", .0.line, .0.column)]
    TooManySteps(Position),
    /// The fault Y4: the cells of all pools are past the limit.
    #[error("the cells are past the limit")]
    TooManyCells,
    #[error("out of memory")]
    Memory,
}
