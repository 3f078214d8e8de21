//! A text that is read word by word.
ghost use Rattle.std.specs.Prelude.{◌≡◌, ◌<◌, ◌^◌, false};
ghost use Rattle.name_text.specs.Words as words;
ghost use Rattle.name_text.specs.Reader as spec;
ghost use Rattle.name_text.specs.Reader.{Reads};
ghost use Rattle.name_text.specs.Forms as form;

use crate::found::WordFault;
use crate::words::{ends_line, past_blanks, past_lines, past_word, word};
use std::marker::Model;

/// The bytes of a text that are left.
#[derive(Drop)]
pub struct Rest<'a> {
    bytes: &'a [u8],
}

impl<'a> Model for Rest<'a> {
    ghost use Rattle.std.specs.Prelude.{List, ℕ};

    ghost Value = { List ℕ };

    ghost view = { λ rest. rest.bytes.now };
}

impl<'a> Rest<'a> {
    fn new(bytes: &'a [u8]) -> Rest<'a>
        ensures { result ≡ bytes.now }
    {
        Rest { bytes }
    }

    fn bytes(&self) -> &'a [u8]
        ensures { result.now ≡ self.now }
    {
        self.bytes
    }
}

/// What is left of a text, and what is read of it so far.
#[derive(Drop)]
pub struct Reader<'a, D> {
    pub rest: Rest<'a>,
    pub read: D,
}

impl<'a, D> Reader<'a, D> {
    /// Before the first word of a text.
    pub fn new(bytes: &'a [u8], read: D) -> Reader<'a, D>
        ensures { result ≡ record { rest = words.past_lines false bytes.now; read = read } }
    {
        Reader {
            rest: Rest::new(past_lines(bytes)),
            read,
        }
    }

    /// How much of the text is left.
    pub fn left(&self) -> usize
        ensures left { result ≡ spec.left self.now }
        ensures limit { result < 2 ^ 63 }
    {
        self.rest.bytes().len()
    }

    /// Whether the text ends here.
    pub fn ended(&self) -> bool
        ensures { result ≡ spec.ended self.now }
    {
        self.rest.bytes().is_empty()
    }

    /// The next word; none where a line or the text ends.
    pub fn word(&self) -> &[u8]
        ensures { result.now ≡ spec.word self.now }
    {
        word(self.rest.bytes())
    }

    /// Whether this is the next word.
    pub fn begins(&self, wanted: &[u8]) -> bool
        ensures { result ≡ spec.begins wanted.now self.now }
    {
        self.word() == wanted
    }

    /// Goes on after the next word.
    #[tactic(auto, unfolding(crate::specs::Reader::after))]
    pub fn skip(&mut self)
        ensures { self.new ≡ spec.after self.old }
    {
        self.rest = Rest::new(past_blanks(past_word(self.rest.bytes())));
    }

    /// Reads this word.
    #[tactic(auto, unfolding(crate::specs::Forms::expect, crate::specs::Forms::skip))]
    pub fn expect<M>(&mut self, wanted: &[u8]) -> Result<(), WordFault<M>>
        ensures { Reads ((form.expect wanted.now).read self.old) result self.new }
    {
        if !self.begins(wanted) {
            return Err(WordFault::Syntax(self.left()));
        }
        self.skip();
        Ok(())
    }

    /// Whether a line ends here, or the text.
    pub fn line_ends(&self) -> bool
        ensures { result ≡ spec.line_ends self.now }
    {
        self.rest.bytes().is_empty() || ends_line(self.rest.bytes())
    }

    #[tactic(auto, unfolding(crate::specs::Reader::next_line))]
    fn go_to_next_line(&mut self)
        ensures { self.new ≡ spec.next_line self.old }
    {
        self.rest = Rest::new(past_lines(self.rest.bytes()));
    }

    /// Reads the end of a line or of the text, and empty lines.
    #[tactic(auto, unfolding(crate::specs::Forms::line_end))]
    pub fn line_end<M>(&mut self) -> Result<(), WordFault<M>>
        ensures { Reads (form.line_end.read self.old) result self.new }
    {
        if !self.line_ends() {
            return Err(WordFault::Syntax(self.left()));
        }
        self.go_to_next_line();
        Ok(())
    }
}
