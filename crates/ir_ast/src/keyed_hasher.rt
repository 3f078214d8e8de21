ghost use Rattle.std.specs.Prelude.{◌≡◌};
ghost use Rattle.ir_ast.specs.KeyedHash as spec;

use std::hash::Hasher;

/// The 61 low bits. They are the number 2 to the 61 less 1, which is prime.
const LOW_BITS: u128 = 0x1fff_ffff_ffff_ffff;

const WORD_BITS: u128 = 0xffff_ffff_ffff_ffff;

/// What is hashed so far: the value of a polynomial whose coefficients are what was written, four bytes in each or one.
///
/// It is the value at `point`, modulo the prime 2 to the 61 less 1. `finish` takes it times `factor`, and adds `offset`. Values of one
/// type that differ have polynomials that differ. If these have n coefficients at most, they agree at n points at most, of the 2 to
/// the 60 that a key draws from. Where they do not, m bits of the two hashes are equal for about one in 2 to the m of the factors and
/// offsets. So for two names that are given before the key is, m bits of their hashes are equal for a share of the keys of about
/// 1 in 2 to the m, and n in 2 to the 60 more.
#[derive(Clone, Copy)]
pub struct KeyedHasher {
    pub(crate) sum: u64,
    pub(crate) point: u64,
    pub(crate) factor: u64,
    pub(crate) offset: u64,
}

/// A number below 2 to the 64 that is the same modulo 2 to the 61 less 1, where this one is below 2 to the 124.
#[inline(always)]
#[tactic(auto, unfolding(crate::specs::KeyedHash::folded))]
fn folded(wide: u128) -> u64
    ensures { result ≡ spec.folded wide }
{
    let low = (wide & LOW_BITS) as u64;
    let high = ((wide >> 61) & WORD_BITS) as u64;
    low.wrapping_add(high)
}

impl KeyedHasher {
    /// With one more coefficient.
    #[inline(always)]
    #[tactic(auto, unfolding(crate::specs::KeyedHash::step))]
    fn step(&mut self, coefficient: u64)
        ensures { self.new ≡ spec.step self.old coefficient }
    {
        let product = self.sum as u128 * self.point as u128;
        self.sum = folded(product).wrapping_add(coefficient);
    }
}

impl Hasher for KeyedHasher {
    ghost write = { spec.write };

    ghost finish = { spec.finish };

    #[inline(always)]
    fn write(&mut self, bytes: &[u8]) {
        let mut rest = bytes;
        while let [a, b, c, d, after @ ..] = rest {
            self.step(u64::from(u32::from_le_bytes([*a, *b, *c, *d])));
            rest = after;
        }
        while let [byte, after @ ..] = rest {
            self.step(u64::from(*byte));
            rest = after;
        }
    }

    #[inline(always)]
    #[tactic(auto, unfolding(crate::specs::KeyedHash::finish))]
    fn finish(&self) -> u64 {
        let product = self.sum as u128 * self.factor as u128;
        let value = folded(product).wrapping_add(self.offset);
        folded(value as u128)
    }
}
