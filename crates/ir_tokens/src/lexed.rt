use crate::token::Token;
use items::Items;

/// The tokens of a text, and the first place at which the bytes begin no token, if there is one; then the tokens are
/// those before it.
#[derive(Drop)]
pub struct Lexed {
    pub tokens: Items<Token>,
    pub bad: Option<u32>,
}
