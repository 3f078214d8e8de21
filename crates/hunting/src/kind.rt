ghost use Rattle.std.specs.Prelude.{◌≡◌};
ghost use Rattle.hunting.specs.Shorter.{kind_of};

use moves::Cause;
use replay::BreakCause;
use stepping::Gone;

/// Of what kind the cause of a break is.
#[derive(Clone, Copy, PartialEq, Eq)]
pub enum Kind {
    Wrong,
    TouchBlue,
    TouchBirth,
    ReachBlue,
    ReachBirth,
}

/// The kind of a cause.
pub fn kind_of(cause: &BreakCause) -> Kind
    ensures { result ≡ kind_of cause.now }
{
    match cause {
        BreakCause::OfStep(Cause::Wrong) => Kind::Wrong,
        BreakCause::OfStep(Cause::TouchBlue(_)) => Kind::TouchBlue,
        BreakCause::OfStep(Cause::TouchBirth(_)) => Kind::TouchBirth,
        BreakCause::OfReach(Gone::Blue(_)) => Kind::ReachBlue,
        BreakCause::OfReach(Gone::Reborn(_)) => Kind::ReachBirth,
    }
}
