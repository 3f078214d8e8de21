/// Who makes a step.
#[derive(Clone, Copy)]
pub enum Actor {
    /// The thread with this number, from 0.
    Thread(u32),
    Collector,
}
