//! A token of a text, with those around it, and how words of a text are shown.
use crate::near::spelled;
use ir_tokens::{Kind, Token};
use messages::Message;
use std::str;

/// The most bytes of a word that are shown.
const SHOWN: usize = 60;

/// A text with its tokens, and the number of one of these.
#[derive(Clone, Copy)]
pub(crate) struct Site<'a> {
    pub(crate) text: &'a [u8],
    pub(crate) tokens: &'a [Token],
    pub(crate) at: usize,
}

impl<'a> Site<'a> {
    /// The token that begins after this many bytes.
    pub(crate) fn of(text: &'a [u8], tokens: &'a [Token], place: usize) -> Option<Site<'a>> {
        let at = tokens
            .iter()
            .position(|token| token.start as usize == place)?;
        Some(Site { text, tokens, at })
    }

    /// What the token with this number is.
    pub(crate) fn kind_of(&self, at: usize) -> Kind {
        match self.tokens.get(at) {
            Some(token) => token.kind,
            None => Kind::End,
        }
    }

    /// What the token is.
    pub(crate) fn kind(&self) -> Kind {
        self.kind_of(self.at)
    }

    /// What the token after it is.
    pub(crate) fn kind_after(&self) -> Kind {
        self.kind_of(self.at.saturating_add(1))
    }

    /// What the token before it is.
    pub(crate) fn kind_before(&self) -> Kind {
        match self.at.checked_sub(1) {
            Some(before) => self.kind_of(before),
            None => Kind::End,
        }
    }

    /// The bytes of the token with this number.
    pub(crate) fn spelled_of(&self, at: usize) -> &'a [u8] {
        match self.tokens.get(at) {
            Some(token) => spelled(self.text, token),
            None => &[],
        }
    }

    /// The bytes of the token.
    pub(crate) fn spelled(&self) -> &'a [u8] {
        self.spelled_of(self.at)
    }

    /// The number of the word `define` of the function in which the token stands.
    pub(crate) fn define(&self) -> Option<usize> {
        for at in (0..self.at).rev() {
            if matches!(self.kind_of(at), Kind::Define) {
                return Some(at);
            }
        }
        None
    }

    /// The name of the function of this word `define`.
    pub(crate) fn name_after(&self, define: usize) -> &'a [u8] {
        for at in define..self.tokens.len() {
            if matches!(self.kind_of(at), Kind::GlobalName) {
                return self.spelled_of(at);
            }
        }
        &[]
    }
}

/// The byte that is shown for one of a text.
fn shown(byte: u8, is_text: bool) -> u8 {
    if byte < 0x20 || byte == 0x7f || (byte >= 0x80 && !is_text) {
        b'?'
    } else {
        byte
    }
}

/// A word of a text. What a terminal would obey is `?`, and a long word is cut.
pub(crate) fn put_word(out: &mut Message, word: &[u8]) {
    let is_text = str::from_utf8(word).is_ok() && word.len() <= SHOWN;
    for byte in word.iter().take(SHOWN) {
        out.put_byte(shown(*byte, is_text));
    }
    if word.len() > SHOWN {
        out.put("..")
    }
}

/// A word of a text between signs of quotation.
pub(crate) fn put_quoted(out: &mut Message, word: &[u8]) {
    out.put("`");
    put_word(out, word);
    out.put("`")
}
