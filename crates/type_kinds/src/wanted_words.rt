//! Which words of a cell, or of a global, may be loaded or stored under a type.
ghost use Rattle.std.specs.Prelude.{◌≡◌, Some};
ghost use Rattle.pools.specs.Layouts.{kind_of_word};
ghost use Rattle.type_kinds.specs.WantedWords.{holds_wanted, layout_of_word, cell_words, each_word, first_layout, one_reference, wanted_by_load, loads_words, loads_word, wanted_by_store};

use crate::type_kind::TypeKind;
use crate::wanted_word::WantedWord;
use pools::{LayoutId, Layouts, WordKind, WordSet};

fn kind_is_wanted(wanted: WantedWord, kind: WordKind) -> bool
    ensures { result ≡ holds_wanted wanted (Some kind) }
{
    match kind {
        WordKind::Integer(bits) => matches!(wanted, WantedWord::Integer(other) if bits == other),
        WordKind::Reference(layout) => match wanted {
            WantedWord::Reference(other) => layout == other,
            WantedWord::AnyReference => true,
            _ => false,
        },
    }
}

/// Whether a word that is there holds what is wanted.
pub fn holds_wanted(wanted: WantedWord, kind: Option<WordKind>) -> bool
    ensures { result ≡ holds_wanted wanted kind }
{
    match kind {
        Some(kind) => kind_is_wanted(wanted, kind),
        None => false,
    }
}

fn kind_of_word(layouts: &Layouts, layout: LayoutId, word: u32) -> Option<WordKind>
    ensures { result ≡ kind_of_word layouts.now layout word }
{
    layouts.words(layout).get(word as usize).copied()
}

/// Whether each word of a set holds what is wanted, in a layout.
pub fn each_word(wanted: &WantedWord, layouts: &Layouts, layout: LayoutId, words: &WordSet) -> bool
    ensures { result ≡ each_word wanted.now layouts.now layout words.now }
{
    let mut from = 0;
    while let Some(word) = words.next_from(from) {
        if !holds_wanted(*wanted, kind_of_word(layouts, layout, word)) {
            return false;
        }
        from = word + 1;
    }
    true
}

/// The layout to which a word refers.
pub fn layout_of_word(kind: Option<WordKind>) -> Option<LayoutId>
    ensures { result ≡ layout_of_word kind }
{
    match kind? {
        WordKind::Reference(layout) => Some(layout),
        WordKind::Integer(_) => None,
    }
}

/// The layout to which the first word of a set refers.
pub fn first_layout(layouts: &Layouts, layout: LayoutId, words: &WordSet) -> Option<LayoutId>
    ensures { result ≡ first_layout layouts.now layout words.now cell_words }
{
    let word = words.next_from(0)?;
    layout_of_word(kind_of_word(layouts, layout, word))
}

/// What a load under a type of this kind wants of words, the first of which refers to this layout.
fn wanted_by_load(kind: TypeKind, first: Option<LayoutId>) -> WantedWord
    ensures { result ≡ wanted_by_load kind first }
{
    match kind {
        TypeKind::Bits(bits) => WantedWord::Integer(bits),
        TypeKind::Reference(layout) => WantedWord::Reference(layout),
        TypeKind::AnyReference => match first {
            Some(layout) => WantedWord::Reference(layout),
            None => WantedWord::Nothing,
        },
        _ => WantedWord::Nothing,
    }
}

/// Whether words of a layout may be loaded under a type of this kind.
pub fn loads_words(layouts: &Layouts, layout: LayoutId, words: &WordSet, kind: TypeKind) -> bool
    ensures { result ≡ loads_words layouts.now layout words.now kind }
{
    let first = first_layout(layouts, layout, words);
    each_word(&wanted_by_load(kind, first), layouts, layout, words)
}

/// Whether the word of a global may be loaded under a type of this kind.
pub fn loads_word(kind: TypeKind, word: &Option<WordKind>) -> bool
    ensures { result ≡ loads_word kind word.now }
{
    let first = layout_of_word(*word);
    holds_wanted(wanted_by_load(kind, first), *word)
}

/// What a store under a type of this kind wants of words.
pub fn wanted_by_store(kind: TypeKind) -> WantedWord
    ensures { result ≡ wanted_by_store kind }
{
    match kind {
        TypeKind::Bits(bits) => WantedWord::Integer(bits),
        TypeKind::Reference(layout) => WantedWord::Reference(layout),
        TypeKind::AnyReference => WantedWord::AnyReference,
        _ => WantedWord::Nothing,
    }
}
