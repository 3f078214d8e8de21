/// What an index leads past: `size` words for each of the numbers that it may be.
#[derive(Clone, Copy)]
pub struct Stride {
    pub size: u32,
    /// The least number that it may be.
    pub first: u64,
    /// How many numbers it may be.
    pub count: u64,
}
