ghost use Rattle.std.specs.Prelude.{◌≡◌, OnOk, OnErr};
ghost use Rattle.safepoints.specs.Marks.{is_may, marks_agree, after_mark, EndsOthers};

use certs::Mark;
use facts::{Facts, safepoint_law};
use std::alloc::AllocError;

/// Whether a function may reach a safepoint.
pub fn is_may(mark: Mark) -> bool
    ensures { result ≡ is_may mark }
{
    matches!(mark, Mark::May)
}

/// Whether a function that is marked so may call one with the other mark.
pub fn marks_agree(own: Mark, called: Mark) -> bool
    ensures { result ≡ marks_agree own called }
{
    is_may(own) || !is_may(called)
}

/// Goes on to the facts after a call of a function that is marked so.
pub fn after_call(facts: &mut Facts, mark: Mark) -> Result<(), AllocError>
    ensures facts { OnOk result (facts.new ≡ after_mark mark facts.old) }
    ensures statements { OnOk result (EndsOthers mark facts.old facts.new) }
    ensures err { OnErr result (facts.new ≡ facts.old) }
{
    facts.classes_law();
    safepoint_law();
    match mark {
        Mark::May => facts.make_stale(),
        Mark::None => Ok(()),
    }
}
