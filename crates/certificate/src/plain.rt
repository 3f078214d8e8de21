//! Names that a word has as they are: letters and digits, with nothing to take out and no mark to add.
ghost use Rattle.std.specs.Prelude.{◌≡◌, ◌∷◌, ◌&&◌, Some, IfSome, nat_lt, length};
ghost use Rattle.name_text.specs.Naming.{name_in};
ghost use Rattle.name_text.specs.Names.{is_plain as is_plain_name};
ghost use Rattle.name_text.specs.Numbers.{is_number as is_digits};
ghost use Rattle.name_text.specs.declared.naming.Sigil.TheVariants as sigil;

use ir_ast::key_of_digits;
use name_text::{is_number, is_plain};

/// How long a name is at most that is looked for in the text: with its sign it is no longer than a text of the IR may be.
const PLAIN_LIMIT: usize = 1 << 24;

fn is_plain_text(name: &[u8]) -> bool
    ensures { result ≡ (is_plain_name name.now && nat_lt (length name.now) 16777216) }
{
    is_plain(name) && name.len() < PLAIN_LIMIT
}

fn is_number_text(digits: &[u8]) -> bool
    ensures { result ≡ (is_digits digits.now && nat_lt (length digits.now) 16777216) }
{
    is_number(digits) && digits.len() < PLAIN_LIMIT
}

/// The global name that a word is, where it is plain.
pub fn plain_global(word: &[u8]) -> Option<&[u8]>
    ensures { IfSome result (λ name. name_in sigil.Global word.now ≡ Some name.now) }
{
    match word {
        [b'@', name @ ..] => {
            if is_plain_text(name) {
                Some(name)
            } else {
                None
            }
        }
        _ => None,
    }
}

/// The key of the local name that a word is, where it is plain or a number.
pub fn plain_key(word: &[u8]) -> Option<&[u8]>
    ensures { IfSome result (λ key. name_in sigil.Local word.now ≡ Some key.now) }
{
    match word {
        [b'%', name @ ..] => {
            if is_plain_text(name) {
                Some(name)
            } else if is_number_text(name) {
                Some(key_of_digits(name))
            } else {
                None
            }
        }
        _ => None,
    }
}

/// The name of a type that a word is without its sign, where it is plain.
pub fn plain_layout(word: &[u8]) -> Option<&[u8]>
    ensures { IfSome result (λ name. name_in sigil.Layout (37 ∷ word.now) ≡ Some name.now) }
{
    if is_plain_text(word) {
        Some(word)
    } else {
        None
    }
}
