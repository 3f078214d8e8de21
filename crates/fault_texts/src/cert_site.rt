//! A position in the text of a certificate: its line, its word, and what the line and the section name.
use ir_ast::{Function, LocalSort, Module, SymbolSort, ValueId};
use ir_tokens::Position;
use messages::{NamedText, line_numbered};
use name_text::{Sigil, name_in, past_blanks, past_word, word};
use std::alloc::{AllocError, Global};

/// A position in the text of a certificate or of shapes.
#[derive(Clone, Copy)]
pub(crate) struct CertSite<'a> {
    pub(crate) text: &'a [u8],
    pub(crate) position: Position,
}

impl<'a> CertSite<'a> {
    pub(crate) fn of(named: NamedText<'a>, position: Position) -> CertSite<'a> {
        CertSite {
            text: named.text,
            position,
        }
    }

    /// The line of the position.
    pub(crate) fn line(&self) -> &'a [u8] {
        line_numbered(self.text, self.position.line.saturating_sub(1))
    }

    /// The line from the position on.
    fn rest(&self) -> &'a [u8] {
        let line = self.line();
        line.get(self.position.column.saturating_sub(1)..)
            .unwrap_or(&[])
    }

    /// The word at the position, empty at the end of a line.
    pub(crate) fn word(&self) -> &'a [u8] {
        word(self.rest())
    }

    /// The word after that of the position.
    pub(crate) fn after(&self) -> &'a [u8] {
        second_word(self.rest())
    }

    /// The first word of the line.
    pub(crate) fn first(&self) -> &'a [u8] {
        word(past_blanks(self.line()))
    }

    /// The second word of the line.
    pub(crate) fn second(&self) -> &'a [u8] {
        second_word(self.line())
    }

    /// The last word of the line before the position, empty if there is none.
    pub(crate) fn before(&self) -> &'a [u8] {
        let line = self.line();
        let mut rest = past_blanks(line);
        let mut last: &'a [u8] = &[];
        for _word in 0..line.len() {
            let start = line.len().saturating_sub(rest.len());
            if rest.is_empty() || start.saturating_add(1) >= self.position.column {
                return last;
            }
            last = word(rest);
            rest = past_blanks(past_word(rest));
        }
        last
    }

    /// Whether nothing but blanks and line ends comes after the position.
    pub(crate) fn is_at_end(&self) -> bool {
        let mut line: usize = 1;
        for byte in self.text {
            if line > self.position.line && !matches!(*byte, b' ' | b'\n' | b'\r') {
                return false;
            }
            if *byte == b'\n' {
                line = line.saturating_add(1);
            }
        }
        self.word().is_empty()
    }

    /// The function of the section in which the position is, as its line names it.
    pub(crate) fn section(&self) -> &'a [u8] {
        second_word(section_before(self.text, self.position.line))
    }

    /// The function of a root slot or of a value that the line names.
    pub(crate) fn function(&self) -> &'a [u8] {
        match self.first() {
            b"root" => self.second(),
            _ => self.section(),
        }
    }
}

/// The second word of a line.
fn second_word(line: &[u8]) -> &[u8] {
    word(past_blanks(past_word(past_blanks(line))))
}

/// The text from the last line on that begins a section, up to a line of this number.
fn section_before(text: &[u8], line: usize) -> &[u8] {
    let mut found: &[u8] = &[];
    let mut number: usize = 1;
    let mut begins = true;
    for (place, byte) in text.iter().enumerate() {
        if number >= line {
            return found;
        }
        if begins {
            found = section_at(text, place, found);
        }
        begins = *byte == b'\n';
        if begins {
            number = number.saturating_add(1);
        }
    }
    found
}

/// The text from a line on, if it begins a section, and what was found otherwise.
fn section_at<'a>(text: &'a [u8], place: usize, found: &'a [u8]) -> &'a [u8] {
    let rest = text.get(place..).unwrap_or(&[]);
    if word(past_blanks(rest)) == b"function".as_slice() {
        rest
    } else {
        found
    }
}

/// The function of this name.
pub(crate) fn function_named<'a>(
    alloc: Global,
    of_module: &'a Module,
    name: &[u8],
) -> Result<Option<&'a Function>, AllocError> {
    match name_in(alloc, Sigil::Global, name)? {
        Some(name) => Ok(function_of(of_module, name.as_slice())),
        None => Ok(None),
    }
}

fn function_of<'a>(of_module: &'a Module, name: &[u8]) -> Option<&'a Function> {
    let symbol = of_module.symbols.find(name)?;
    match of_module.sorts.get(symbol) {
        Some(SymbolSort::Defined(func)) => of_module.functions.get(func.number() as usize),
        _ => None,
    }
}

/// What a local name of a function means, and its number.
fn local_of(function: &Function, key: &[u8]) -> Option<(ValueId, LocalSort)> {
    let number = function.locals.find(key)?;
    match (function.sorts.get(number), u32::try_from(number)) {
        (Some(sort), Ok(number)) => Some((ValueId::new(number), *sort)),
        _ => None,
    }
}

/// What the local of this name means in a function, and its number.
pub(crate) fn local_named(
    alloc: Global,
    function: &Function,
    name: &[u8],
) -> Result<Option<(ValueId, LocalSort)>, AllocError> {
    match name_in(alloc, Sigil::Local, name)? {
        Some(key) => Ok(local_of(function, key.as_slice())),
        None => Ok(None),
    }
}
