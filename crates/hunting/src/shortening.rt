//! The search for a shorter trace.
ghost use Rattle.std.specs.Prelude.{◌≡◌, ◌<◌, ◌≤◌, ◌+◌, IfOk, OnOk};
ghost use Rattle.hunting.specs.Shorter.{IsBreaking, kind_of};

use crate::breaking::BrokenTrace;
use crate::judging::judged;
use crate::kind::{Kind, kind_of};
use crate::shorter_trace::Change;
use layout::Program;
use std::alloc::{AllocError, Global};

/// What came of the search for a shorter trace.
#[derive(Drop)]
pub struct ShorterTrace {
    pub found: BrokenTrace,
    /// How many traces were replayed for it.
    pub tries: u32,
}

impl ShorterTrace {
    /// This was found from now on.
    fn put_found(&mut self, found: BrokenTrace)
        ensures found { self.new.found ≡ found }
        ensures tries { self.new.tries ≡ self.old.tries }
    {
        self.found = found;
    }

    /// Leaves something out of the trace, if it then breaks its run by this kind of cause. Says whether it is left out.
    fn leave_out(
        &mut self,
        alloc: Global,
        program: &Program,
        kind: Kind,
        change: Change,
    ) -> Result<bool, AllocError>
        requires breaking { IsBreaking program.now self.old.found.trace self.old.found.broken }
        requires kind { kind_of self.old.found.broken.cause ≡ kind }
        requires room { self.old.tries < 4294967295 }
        ensures breaking { OnOk result (IsBreaking program.now self.new.found.trace self.new.found.broken) }
        ensures kind { OnOk result (kind_of self.new.found.broken.cause ≡ kind) }
        ensures tries { OnOk result (self.new.tries ≤ self.old.tries + 1) }
    {
        let Some(candidate) = change.made(alloc, program, &self.found.trace)? else {
            return Ok(false);
        };
        self.tries += 1;
        let judged = judged(alloc, program, kind, &candidate);
        drop(candidate);
        match judged {
            Ok(Some(found)) => {
                self.put_found(found);
                Ok(true)
            }
            Ok(None) => Ok(false),
            Err(_refused) => Err(AllocError),
        }
    }
}

/// What comes after a change, where a round begins anew as long as the one before left something out.
#[derive(Clone, Copy)]
struct Course {
    change: Change,
    /// Whether this round left something out.
    is_shorter: bool,
}

impl Course {
    /// The next change, if there is one.
    fn next(self, program: &Program, found: &BrokenTrace, is_left_out: bool) -> Option<Course> {
        let is_shorter = self.is_shorter || is_left_out;
        match self.change.next(program, &found.trace, is_left_out) {
            Some(change) => Some(Course { change, is_shorter }),
            None if is_shorter => Some(Course {
                change: Change::Cell(0),
                is_shorter: false,
            }),
            None => None,
        }
    }
}

/// A shorter trace that breaks its run by the same kind of cause: with fewer threads, cells, lines or steps, as far as leaving out one
/// thing after the other leads within this number of tries. Each trace on the way was replayed.
pub fn shortened(
    alloc: Global,
    program: &Program,
    found: BrokenTrace,
    limit: u32,
) -> Result<ShorterTrace, AllocError>
    requires { IsBreaking program.now found.trace found.broken }
    ensures breaking { IfOk result (λ shorter. IsBreaking program.now shorter.found.trace shorter.found.broken) }
    ensures kind { IfOk result (λ shorter. kind_of shorter.found.broken.cause ≡ kind_of found.broken.cause) }
    ensures tries { IfOk result (λ shorter. shorter.tries ≤ limit) }
{
    let kind = kind_of(&found.broken.cause);
    let mut course = Course {
        change: Change::first(&found.trace),
        is_shorter: false,
    };
    let mut shorter = ShorterTrace { found, tries: 0 };
    for _turn in 0..u64::MAX {
        if shorter.tries >= limit {
            return Ok(shorter);
        }
        let is_left_out = match shorter.leave_out(alloc, program, kind, course.change) {
            Ok(is_left_out) => is_left_out,
            Err(refused) => {
                drop(shorter);
                return Err(refused);
            }
        };
        let Some(next) = course.next(program, &shorter.found, is_left_out) else {
            return Ok(shorter);
        };
        course = next;
    }
    Ok(shorter)
}
