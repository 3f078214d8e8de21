//! What an edit replaces.
ghost use Rattle.std.specs.Prelude.{◌≡◌};
ghost use Rattle.recheck.specs.Forms as form;

/// What an edit replaces.
#[derive(Clone, Copy)]
pub enum Part {
    Code,
    Cert,
    Both,
}

/// The part that a word is.
pub fn part_of_word(word: &[u8]) -> Option<Part>
    ensures { result ≡ form.part_of_word word.now }
{
    if word == b"code".as_slice() {
        Some(Part::Code)
    } else if word == b"cert".as_slice() {
        Some(Part::Cert)
    } else if word == b"both".as_slice() {
        Some(Part::Both)
    } else {
        None
    }
}
