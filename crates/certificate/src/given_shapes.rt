use ir_ast::{LayoutNumber, Shapes};
use items::Items;

/// What a text of shapes says.
#[derive(Drop)]
pub struct GivenShapes {
    pub shapes: Shapes,
    /// The numbers of layouts.
    pub numbers: Items<LayoutNumber>,
}
