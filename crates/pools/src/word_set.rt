ghost use Rattle.std.specs.Prelude.{◌≡◌, ◌<◌, ◌≤◌, ◌-◌, IfSome, length};
ghost use Rattle.std.specs.List.{find, range_with_len};
ghost use Rattle.pools.specs.WordSets.{no_words, has_word, has_all, adds_word};

use std::marker::Model;

/// How many words a cell has at most.
pub const CELL_WORDS: usize = 64;

/// A set of words of a cell, which are numbered from 0 to 63.
#[derive(Clone, Copy, Debug, PartialEq, Eq)]
pub struct WordSet {
    /// The bit of each word of the set.
    bits: u64,
}

impl Model for WordSet {
    ghost use Rattle.std.specs.Prelude.{Bool, List, ◌<◌, ◌^◌};

    ghost Value = { List Bool };

    ghost use Rattle.pools.specs.WordBits.{set_of_bits, bits_of_set, bits_again};

    ghost view = { λ set. set_of_bits set.bits };

    ghost invariant = { λ set. set.bits < 2 ^ 64 };

    ghost inverse = { λ set. record { bits = bits_of_set set } };

    ghost inverse_ok = { λ set within i. record { bits = bits_again set.bits within i } };
}

impl WordSet {
    /// The set without a word.
    #[tactic(auto, using(crate::proofs::WordBits::none_set))]
    pub fn new() -> Self
        ensures { result ≡ no_words }
    {
        WordSet { bits: 0 }
    }

    /// Whether the word is of the set; a word past 63 never is.
    pub fn has(&self, word: u32) -> bool
        ensures { result ≡ has_word self.now word }
    {
        match self.bits.checked_shr(word) {
            Some(rest) => rest & 1 == 1,
            None => false,
        }
    }

    /// The set with this word too; a word past 63 is ignored.
    pub fn add(&mut self, word: u32)
        ensures { self.new ≡ adds_word self.old word }
    {
        if word < u64::BITS {
            self.bits |= 1 << word;
        }
    }

    /// Whether each word of the set is one of the other.
    pub fn is_within(&self, other: &WordSet) -> bool
        ensures { result ≡ has_all other.now self.now }
    {
        self.bits & !other.bits == 0
    }

    /// The least word of the set from this one on. The set has a place for each word of a cell.
    pub fn next_from(&self, word: u32) -> Option<u32>
        ensures next { result ≡ find (has_word self.now) (range_with_len word (64 - word)) }
        ensures bounds { IfSome result (λ next. (word ≤ next) × (next < 64)) }
        ensures places { length self.now ≡ 64 }
    {
        let rest = self.bits.checked_shr(word)?;
        if rest == 0 {
            None
        } else {
            Some(word + rest.trailing_zeros())
        }
    }
}
