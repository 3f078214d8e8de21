//! The text of LLVM IR as tokens: what each one is, and where it is.
#![tactic(auto)]

mod bytes;
mod class;
mod keyword;
mod lex;
mod lexed;
mod name;
mod position;
mod token;

pub use bytes::{digit, digit_len};
pub use class::is_name;
pub use lex::{TEXT_LIMIT, read_tokens};
pub use lexed::Lexed;
pub use name::{plain_name, unescaped};
pub use position::Position;
pub use token::{Kind, Token};
