//! What is known at a place of a function, how it changes, and what it implies of a certificate's claims.
//!
//! The lattice of what is known of a value, by what it implies (specs/Claims.antt), and how it changes (specs/Facts.antt). There is no
//! join: where edges meet, the certificate says what is known, and each edge has to imply that.
//!
//! | `Known` | Means | Implies more | At a safepoint | After a store that publishes it | After a call of a defined function |
//! |---|---|---|---|---|---|
//! | `Nothing` | no instruction may use it | the least: it implies no claim | stays | stays | stays |
//! | `Number` | an integer of `bits` bits, below `below` | with a lower `below` | stays | stays | stays |
//! | `Cell` | null or a cell of `layout`, equal to all of its `class` | if it is not `stale`; if its class is `nonnull`, or `fresh` | `stale`, alone in a class that is as `nonnull` as the old one, and not `fresh` | its class is not `fresh` | an argument: its class is not `fresh`; if the callee may reach a safepoint: as at one |
//! | `Null` | null, of each layout | than a `Cell` alone in a class that is neither `nonnull` nor `fresh` | stays | stays | stays |
//! | `Address` | one of `words` of the cell of `base` | with fewer `words` | stays; no instruction may use it while `base` is stale | stays | stays |
//! | `GlobalAddress` | the address of a global | | stays | stays | stays |
//!
//! A slot holds a class or none. At a safepoint it holds none, and is `nonnull` if it or its class was.
#![tactic(auto)]

mod claims;
mod contents;
mod covered;
mod edges;
mod entry;
mod facts;
mod given;
mod implied;
mod kept;
mod laws;
mod spare_rows;
mod taken_back;

pub use entry::Entry;
pub use fact_tables::{Class, ClassId, Known, SlotFact, Test, Values};
pub use facts::Facts;
pub use given::Given;
pub use kept::KeptFacts;
pub use laws::{forget_law, learn_law, publish_law, safepoint_law, show_law};
pub use spare_rows::SpareRows;
