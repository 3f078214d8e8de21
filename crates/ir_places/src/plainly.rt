//! What is read with places is read by the reader's own form.
ghost use Rattle.ir_places.specs.Plainly.{IsReadPlainly};

/// A body that is read with its places is read by the reader as the body of a function, whatever its head: as blocks that have as many
/// phis and instructions as have places, up to the same brace.
pub fn is_read_plainly()
    ensures { IsReadPlainly }
{}
