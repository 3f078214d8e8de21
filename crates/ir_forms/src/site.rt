ghost use Rattle.std.specs.Prelude.{◌≡◌};
ghost use Rattle.ir_forms.specs.Sites as spec;

use ir_ast::BlockId;

/// Where an instruction is.
#[derive(Clone, Copy)]
pub struct Site {
    pub block: BlockId,
    /// How many instructions of its block's body are before it.
    pub place: u32,
}

impl Site {
    /// Before the first instruction of a block's body.
    pub fn first_of(block: BlockId) -> Site
        ensures { result ≡ spec.first_of block }
    {
        Site { block, place: 0 }
    }
}
