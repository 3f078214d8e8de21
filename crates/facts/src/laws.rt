//! What the changes of facts are as changes of a set of statements.
ghost use Rattle.facts.specs.Implied.{ImpliesWhatIsSaid};
ghost use Rattle.facts.specs.Statements.{ForgetEndsNames, PublishEndsFresh, LearnAddsNonnull, SafepointEndsCurrent};

/// A definition ends exactly the statements that name its value.
pub fn forget_law()
    ensures { ForgetEndsNames }
{}

/// A value that is published loses fresh with all that is the same, and nothing else changes.
pub fn publish_law()
    ensures { PublishEndsFresh }
{}

/// A value that is found to be no null is said to be none with all that is the same and with the slots that hold it, if its
/// class is one of those that there are. Nothing else changes.
pub fn learn_law()
    ensures { LearnAddsNonnull }
{}

/// Where each value has a class for itself, a safepoint ends exactly what says that a reference is current or fresh, but for
/// null, which stays current, and what says that it is the same as another value or as what a slot holds.
pub fn safepoint_law()
    ensures { SafepointEndsCurrent }
{}

/// Exactly the claims are implied of which all is said.
pub fn show_law()
    ensures { ImpliesWhatIsSaid }
{}
