use fact_tables::Known;
use ir_ast::ValueId;

/// A phi, and what is known of the entry that it takes.
#[derive(Clone, Copy)]
pub struct Entry {
    pub phi: ValueId,
    pub known: Known,
}
