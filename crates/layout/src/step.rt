use ir_ast::TypeId;

/// How an index of a getelementptr leads from a type to a part of it.
#[derive(Clone, Copy)]
pub enum Step {
    /// To a field, after this number of words.
    Field {
        words: u32,
        part: TypeId,
    },
    /// To an element of an array of this length: this number of words for each element before it.
    Elements {
        length: u64,
        words: u32,
        part: TypeId,
    },
}
