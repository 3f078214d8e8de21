//! The keys of local names, by which the names of a function are told apart.
ghost use Rattle.std.specs.Prelude.{◌≡◌, ◌∷◌, IfOk};
ghost use Rattle.std.specs.Fmt.{decimal};
ghost use Rattle.ir_ast.specs.LocalKeys as spec;

use std::alloc::{AllocError, Global};

/// Whether the key of this name has a mark before the name.
pub fn needs_mark(name: &[u8]) -> bool
    ensures { result ≡ spec.needs_mark name.now }
{
    match name {
        [first, ..] => (*first >= b'0' && *first <= b'9') || *first == b'"',
        [] => false,
    }
}

/// A name with the mark before it.
pub fn marked(alloc: Global, name: &[u8]) -> Result<Vec<u8>, AllocError>
    ensures { IfOk result (λ key. key.items ≡ 34 ∷ name.now) }
{
    let mut key = Vec::new(alloc);
    key.push(b'"')?;
    key.extend_from_slice(name)?;
    Ok(key)
}

/// The key of a number as it is written: its digits without zeros before them.
pub fn key_of_digits(digits: &[u8]) -> &[u8]
    ensures { result.now ≡ spec.key_of_digits digits.now }
{
    let mut left = digits;
    while let [first, rest @ ..] = left {
        if *first != b'0' || rest.is_empty() {
            return left;
        }
        left = rest;
    }
    left
}

/// The key of a value or a block that has no name.
pub fn key_of_number(alloc: Global, number: u32) -> Result<Vec<u8>, AllocError>
    ensures { IfOk result (λ key. key.items ≡ decimal number) }
{
    let digits = number.to_string(alloc)?;
    Vec::from_slice(alloc, digits.as_bytes())
}
