ghost use Rattle.std.specs.Prelude.{◌≡◌};
ghost use Rattle.std.specs.Hash.DefaultHasher as sip;
ghost use Rattle.ir_ast.specs.KeyedHash as spec;

use crate::keyed_hasher::KeyedHasher;
use std::hash::{BuildHasher, DefaultHasher, Hasher};

/// What the hashes of a table depend on. It comes from the text whose names the table holds, so that nobody knows it before he has
/// written that text: names that collide can be found for a key, but they would have to stand in a text that has this key.
#[derive(Clone, Copy)]
pub struct HashKey {
    point: u64,
    factor: u64,
    offset: u64,
}

/// The key that a state of this hash gives after a text.
fn key_after(state: DefaultHasher, text: &[u8]) -> HashKey
    ensures { result ≡ spec.key_after sip.write sip.finish state text.now }
{
    let mut state = state;
    state.write(text);
    let point = state.finish() >> 4;
    state.write_u8(1);
    let factor = state.finish() >> 3;
    state.write_u8(2);
    let offset = state.finish() >> 3;
    HashKey {
        point,
        factor,
        offset,
    }
}

impl HashKey {
    /// The key of the tables that a text fills.
    pub fn of(text: &[u8]) -> HashKey
        ensures { result ≡ spec.key_of text.now }
    {
        key_after(DefaultHasher::new(), text)
    }

    /// The key of tables with this key to which a further text adds.
    pub fn with(&self, text: &[u8]) -> HashKey
        ensures { result ≡ spec.key_with self.now text.now }
    {
        let mut state = DefaultHasher::new();
        state.write_u64(self.point);
        state.write_u64(self.factor);
        state.write_u64(self.offset);
        key_after(state, text)
    }
}

impl BuildHasher for HashKey {
    type Hasher = KeyedHasher;

    ghost build_hasher = { spec.start };

    #[inline(always)]
    fn build_hasher(&self) -> KeyedHasher {
        KeyedHasher {
            sum: 1,
            point: self.point,
            factor: self.factor,
            offset: self.offset,
        }
    }
}
