ghost use Rattle.std.specs.Prelude.{◌≡◌, [], ◌∷◌, ◌++◌, length, unwrap_or, slice_get, OnOk, OnErr};
ghost use Rattle.pools.specs.Layouts.{words_of, is_reference_word};

use crate::layout_id::LayoutId;
use crate::word_kind::WordKind;
use items::Items;
use std::alloc::{AllocError, Global};
use std::marker::Model;

/// The words of each layout, by its number.
#[derive(Drop)]
pub struct Layouts {
    each: Items<Items<WordKind>>,
}

impl Model for Layouts {
    ghost use Rattle.std.specs.Prelude.{List};
    ghost use Rattle.pools.specs.declared.word_kind.WordKind.{WordKind};

    ghost Value = { List (List WordKind) };

    ghost view = { λ layouts. layouts.each };
}

impl Layouts {
    /// No layout.
    pub fn new(alloc: Global) -> Self
        ensures { result ≡ [] }
    {
        Layouts {
            each: Items::new(alloc),
        }
    }

    /// One layout more, with these words.
    pub fn push(&mut self, words: Items<WordKind>) -> Result<(), AllocError>
        ensures ok { OnOk result (self.new ≡ self.old ++ words ∷ []) }
        ensures err { OnErr result (self.new ≡ self.old) }
    {
        self.each.push(words)
    }

    /// How many layouts there are.
    pub fn count(&self) -> usize
        ensures { result ≡ length self.now }
    {
        self.each.len()
    }

    /// The words of a layout; none where there is no such layout.
    pub fn words(&self, layout: LayoutId) -> &[WordKind]
        ensures { result.now ≡ words_of self.now layout }
    {
        match self.each.get(layout.number() as usize) {
            Some(words) => words.as_slice(),
            None => &[],
        }
    }

    /// Whether this word of the layout holds a reference.
    pub fn is_ref_word(&self, layout: LayoutId, word: u32) -> bool
        ensures { result ≡ is_reference_word self.now layout word }
    {
        matches!(
            self.words(layout).get(word as usize),
            Some(WordKind::Reference(_))
        )
    }
}
