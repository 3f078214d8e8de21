//! From the keys of local names back to the names.
ghost use Rattle.std.specs.Prelude.{◌≡◌};
ghost use Rattle.ir_ast.specs.KeyNames as spec;

/// Whether the key is one of a value or a block without a name.
pub fn is_number_key(key: &[u8]) -> bool
    ensures { result ≡ spec.is_number_key key.now }
{
    match key {
        [first, ..] => *first >= b'0' && *first <= b'9',
        [] => false,
    }
}

/// The name that has this key.
pub fn name_of_key(key: &[u8]) -> &[u8]
    ensures { result.now ≡ spec.name_of_key key.now }
{
    match key {
        [b'"', name @ ..] => name,
        name => name,
    }
}
