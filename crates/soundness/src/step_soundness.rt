//! Why each instruction that the rules allow keeps what they know true.
ghost use Rattle.std.specs.Prelude.{ℕ, List};
ghost use Rattle.std.specs.List.{Contains};
ghost use Rattle.soundness.specs.Goes.{InstructionsGo, MembersStay};

/// Each instruction that the rules allow, and that calls no defined function, obeys the discipline, where what the rules know
/// before it is true and as `members_law` says. What they know after it is then true, whatever cells frames below it know to be
/// fresh.
pub fn step_law()
    ensures { (known : List ℕ) → InstructionsGo (Contains known) }
{}

/// After each instruction a slot still holds a fresh class only while some value is of it, and each value has a class for
/// itself, if both were so before.
pub fn members_law()
    ensures { MembersStay }
{}
