ghost use Rattle.std.specs.Prelude.{List};
ghost use Rattle.pools.specs.Heap.{Setup};
ghost use Rattle.runs.specs.Machine.{WordValue, Action, Answer};
ghost use Rattle.runs.specs.Moves.{Move};

/// A thread's machine. Its values are the thread's states.
pub trait Machine {
    /// What the thread's current instruction asks for.
    ghost action: { Self → Action };

    /// The state after the answer.
    ghost after_answer: { Self → Answer → Self };

    /// What the root slots of all frames hold, the oldest frame's first.
    ghost roots: { Self → List WordValue };
}

/// A machine with a predicate of shares and the states after them, as facts about a program are.
pub trait Judged: Machine {
    /// What holds of a share and the state after it, in the heap that is set up so.
    ghost sound: { Setup → List Move → Self → Type 0 };
}
