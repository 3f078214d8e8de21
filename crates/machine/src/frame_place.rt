use ir_ast::FuncId;

/// Where a frame is: its function, the block there, and the place in the block's body; past the body it is at the block's end.
#[derive(Clone, Copy)]
pub struct FramePlace {
    pub function: FuncId,
    pub block: usize,
    pub place: usize,
}
