//! When what the rules know at a place holds of a thread that is there, and how it stays so.
ghost use Rattle.soundness.specs.Edges.{ImpliedHolds};

/// Where what is known at the end of a block is true, what the block implies of its targets holds after each edge to one, when the
/// phis there have taken their entries.
pub fn edge_law()
    ensures { ImpliedHolds }
{}
