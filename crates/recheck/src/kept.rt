use answers::KeptFunctions;
use copies::Tables;

/// What a session keeps beside its program and its certificates.
#[derive(Drop)]
pub struct KeptWork {
    /// The answer to each function, and what the blocks of some begin with.
    pub functions: KeptFunctions,
    /// Tables of the module, ready for the reader of the next code. There are none before the first code, nor after code that is
    /// refused or adds to the tables.
    pub tables: Option<Tables>,
}
