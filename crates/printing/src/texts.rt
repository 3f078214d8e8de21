//! The texts of a module and its certificate, and where the instructions of a function are in them.
use crate::places::FunctionPlaces;
use certs::Certs;
use diagnosis::Spot;
use ir_ast::{FuncId, Function};
use ir_tokens::{Lexed, TEXT_LIMIT, Token, read_tokens};
use layout::Program;
use messages::{LineStarts, NamedText, Pen, Starts};
use std::alloc::{AllocError, Global};

/// The text of a module that is read for its tokens and its lines.
#[derive(Drop)]
pub struct ReadText<'a> {
    named: NamedText<'a>,
    lexed: Lexed,
    starts: Starts,
    lines: LineStarts,
}

impl<'a> ReadText<'a> {
    /// Reads a text, unless it is too long to be a module.
    pub fn of(alloc: Global, named: NamedText<'a>) -> Result<Option<ReadText<'a>>, AllocError> {
        if named.text.len() > TEXT_LIMIT {
            return Ok(None);
        }
        let lexed = read_tokens(alloc, named.text)?;
        let starts = Starts::of(alloc, lexed.tokens.as_slice())?;
        Ok(Some(ReadText {
            named,
            lexed,
            starts,
            lines: LineStarts::of(alloc, named.text)?,
        }))
    }

    pub(crate) fn source(&self) -> Source<'_> {
        Source {
            path: self.named.path,
            text: self.named.text,
            tokens: self.lexed.tokens.as_slice(),
            starts: &self.starts,
            lines: &self.lines,
        }
    }
}

/// The text of a module, with its tokens, where its functions seem to begin, its lines and the path of its file.
#[derive(Clone, Copy)]
pub(crate) struct Source<'a> {
    pub(crate) path: &'a str,
    pub(crate) text: &'a [u8],
    pub(crate) tokens: &'a [Token],
    pub(crate) starts: &'a Starts,
    pub(crate) lines: &'a LineStarts,
}

/// The texts of a module and its certificate, with what they say.
#[derive(Clone, Copy)]
pub(crate) struct Texts<'a> {
    pub(crate) pen: Pen,
    pub(crate) source: Source<'a>,
    pub(crate) certificate: NamedText<'a>,
    pub(crate) program: &'a Program,
    pub(crate) certs: &'a Certs,
    /// Where the instructions of the refused function are.
    pub(crate) places: &'a FunctionPlaces,
    /// Where the instructions of another function are, of which something is seen.
    pub(crate) others: &'a FunctionPlaces,
}

impl<'a> Texts<'a> {
    /// The function with this number.
    pub(crate) fn function(&self, func: FuncId) -> Option<&'a Function> {
        let functions = self.program.module().functions.as_slice();
        functions.get(func.number() as usize)
    }

    /// The number among the tokens of the first one of an instruction of a function.
    pub(crate) fn token_number(&self, func: FuncId, spot: &Spot) -> Option<usize> {
        if self.places.is_of(func) {
            self.places.token_at(&self.source, spot)
        } else if self.others.is_of(func) {
            self.others.token_at(&self.source, spot)
        } else {
            None
        }
    }
}
