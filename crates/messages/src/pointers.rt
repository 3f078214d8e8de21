use certs::is_opaque_text;
use ir_ast::Module;
use ir_tokens::{Kind, Token};

/// The kind of pointers that a text has.
#[derive(Clone, Copy)]
pub enum Pointers {
    /// `T*`.
    Typed,
    /// `ptr`.
    Opaque,
}

fn is_ptr(token: &Token) -> bool {
    matches!(token.kind, Kind::Ptr)
}

fn is_star(token: &Token) -> bool {
    matches!(token.kind, Kind::Star)
}

impl Pointers {
    /// Those of a module.
    pub fn of_module(of_module: &Module) -> Pointers {
        if is_opaque_text(of_module) {
            Pointers::Opaque
        } else {
            Pointers::Typed
        }
    }

    /// Those of a text that need not be a module, by its tokens. A text without a pointer type is of either kind.
    pub fn of_tokens(tokens: &[Token]) -> Pointers {
        if tokens.iter().any(is_star) && !tokens.iter().any(is_ptr) {
            Pointers::Typed
        } else {
            Pointers::Opaque
        }
    }
}
