ghost use Rattle.std.specs.Prelude.{◌≡◌, List, IfOk, OnOk, OnErr};
ghost use Rattle.pools.specs.Heap.{Setup};
ghost use Rattle.runs.specs.Machine.{WordValue as AWordValue, Answer as AnAnswer};
ghost use Rattle.moves.specs.Calls.{action_of, answer_in};
ghost use Rattle.moves.specs.Kinds.{KeepsKinds, MayAnswer};
ghost use Rattle.moves.specs.RootsAfter.{IsToldOfRoots, AddsNewest};

use crate::call::{Answer, Call};
use crate::roots_after::RootsAfter;
use crate::word_value::WordValue;
use runs::Machine;
use std::alloc::AllocError;

/// A thread's machine that runs. Over a heap whose words it fits it asks for words that are there, and puts into each what fits
/// its kind.
pub trait Runner: Machine {
    /// Each reference that the state holds is to a cell of its layout.
    ghost fits: { Setup → Self → Type 0 };

    /// What the root slots of the newest frames hold, the oldest of these frames first.
    ghost newest: { Self → List AWordValue };

    /// What the thread asks for.
    fn call(&self) -> Call
        ensures { action_of result ≡ Self.action self.now };

    /// What the root slots of all frames hold, the oldest frame's first.
    fn root_references(&self) -> Result<Vec<WordValue>, AllocError>
        ensures { IfOk result (λ roots. roots.items ≡ Self.roots self.now) };

    /// What those of the newest frames hold. It takes no time in the number of frames.
    fn newest_roots(&self) -> Result<Vec<WordValue>, AllocError>
        ensures { IfOk result (λ roots. roots.items ≡ Self.newest self.now) };

    /// The thread goes on with the answer, which fits what it asked for. Returns what its roots are to those before. Without
    /// memory it stays as it was.
    fn answer(&mut self, answer: Answer) -> Result<RootsAfter, AllocError>
        requires { (s : Setup) × MayAnswer s (Self.fits s) Self.action self.old (answer_in answer) }
        ensures ok { OnOk result (self.new ≡ Self.after_answer self.old (answer_in answer)) }
        ensures roots { IfOk result (λ after. IsToldOfRoots after (Self.roots self.old) (Self.roots self.new)) }
        ensures err { OnErr result (self.new ≡ self.old) };

    ghost keeps_kinds: { (s : Setup) (state : Self) → fits s state → KeepsKinds s Self.action Self.after_answer Self.roots (fits s) state };

    ghost keeps_roots: { (state : Self) (given : AnAnswer) → AddsNewest (Self.roots state) (Self.roots (Self.after_answer state given)) (newest (Self.after_answer state given)) };
}
