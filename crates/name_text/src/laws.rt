//! What is printed of names is read again.
ghost use Rattle.name_text.specs.Readings.{GlobalsAreRead, LocalsAreRead, NumbersAreRead, NamesAreWords};

/// A printed name of bytes is one word, and after its sign one token, which spells that name. So is a number after `%`.
pub fn name_law()
    ensures globals { GlobalsAreRead }
    ensures locals { LocalsAreRead }
    ensures numbers { NumbersAreRead }
    ensures words { NamesAreWords }
{}
