//! What edits are read from.
ghost use Rattle.std.specs.Prelude.{◌≡◌, ◌<◌, ◌^◌, false};
ghost use Rattle.name_text.specs.Falls as falls;
ghost use Rattle.name_text.specs.Numbers.{is_nil};
ghost use Rattle.name_text.specs.Words as words;
ghost use Rattle.recheck.specs.Lines as lines;
ghost use Rattle.recheck.specs.Forms as form;
ghost use Rattle.recheck.specs.Forms.{Reads};

use crate::frame_fault::FrameFault;
use crate::lines::{is_dot, line_ends, past_line};
use name_text::{past_blanks, past_lines, past_word, word};
use std::marker::Model;

/// The bytes of a text that are left.
#[derive(Drop)]
pub struct EditInput<'a> {
    rest: &'a [u8],
}

impl<'a> Model for EditInput<'a> {
    ghost use Rattle.std.specs.Prelude.{List, ℕ};

    ghost Value = { List ℕ };

    ghost view = { λ input. input.rest.now };
}

impl<'a> EditInput<'a> {
    pub fn new(bytes: &'a [u8]) -> EditInput<'a>
        ensures { result ≡ bytes.now }
    {
        EditInput { rest: bytes }
    }

    /// What is left of the text.
    pub fn rest(&self) -> &'a [u8]
        ensures { result.now ≡ self.now }
    {
        self.rest
    }

    /// How much of the text is left.
    pub fn left(&self) -> usize
        ensures left { result ≡ form.left self.now }
        ensures limit { result < 2 ^ 63 }
    {
        self.rest.len()
    }

    /// Whether the text ends here.
    pub fn ended(&self) -> bool
        ensures { result ≡ is_nil self.now }
    {
        self.rest.is_empty()
    }

    /// The next word; none where a line or the text ends.
    pub fn word(&self) -> &[u8]
        ensures { result.now ≡ words.word_at self.now }
    {
        word(self.rest)
    }

    /// Whether `.` stands alone on the line that begins here.
    pub fn is_dot(&self) -> bool
        ensures { result ≡ lines.is_dot self.now }
    {
        is_dot(self.rest)
    }

    /// Goes on after the next word.
    pub fn skip(&mut self)
        ensures { self.new ≡ falls.after_word self.old }
    {
        self.rest = past_blanks(past_word(self.rest));
    }

    /// Goes on after this line.
    pub fn skip_line(&mut self)
        ensures { self.new ≡ lines.past_line self.old }
    {
        self.rest = past_line(self.rest);
    }

    /// Goes on after blanks, comments and line ends.
    pub fn skip_gap(&mut self)
        ensures { self.new ≡ words.past_lines false self.old }
    {
        self.rest = past_lines(self.rest);
    }

    /// Reads this word.
    #[tactic(auto, unfolding(crate::specs::Forms::expect, crate::specs::Forms::skip))]
    pub fn expect(&mut self, wanted: &[u8]) -> Result<(), FrameFault>
        ensures { Reads ((form.expect wanted.now).read self.old) result self.new }
    {
        if self.word() != wanted {
            return Err(FrameFault::Syntax(self.left()));
        }
        self.skip();
        Ok(())
    }

    /// Reads the end of a line or of the text.
    #[tactic(auto, unfolding(crate::specs::Forms::line_end))]
    pub fn line_end(&mut self) -> Result<(), FrameFault>
        ensures { Reads (form.line_end.read self.old) result self.new }
    {
        if !line_ends(self.rest) {
            return Err(FrameFault::Syntax(self.left()));
        }
        self.skip_line();
        Ok(())
    }
}
