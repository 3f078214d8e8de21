//! Lists of pairs: on each line the path of a module and that of its certificate, as `dgc check-list` reads them.
#![tactic(auto)]

mod fault;
mod pair;
mod reader;

pub use fault::ListFault;
pub use pair::Pair;
pub use reader::read_pairs;
