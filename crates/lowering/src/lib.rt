//! The text that LLVM gets of a module, beside a concurrent collector (docs/LOWERING.md): words of 64 bits that are read and stored
//! atomically, calls of the runtime, and tables of what the runtime has to know.
#![tactic(auto)]

mod calls;
mod elements;
mod ends;
mod instructions;
mod items_of_text;
mod memory;
mod outside;
mod printer;
mod rows;
mod scope;
mod starts;
mod strings;
mod tables;
mod word_types;
mod words;

pub use outside::address_giver;
pub use printer::lower;
