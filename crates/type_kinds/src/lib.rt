//! What a written type is to the rules, and which words of a cell or of a global may be loaded or stored under it.
#![tactic(auto)]

mod type_kind;
mod wanted_word;
mod wanted_words;

pub use type_kind::TypeKind;
pub use wanted_word::WantedWord;
pub use wanted_words::{
    each_word, first_layout, holds_wanted, layout_of_word, loads_word, loads_words, wanted_by_store,
};
