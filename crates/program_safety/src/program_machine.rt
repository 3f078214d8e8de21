use layout::Program;
use runs::{Judged, Machine};
use std::marker::Model;

/// The machine of the threads of programs, for the laws of runs. They speak of all threads; a value of this type is
/// one that has ended.
#[derive(Drop)]
pub struct ProgramMachine {
    program: Program,
}

impl Model for ProgramMachine {
    ghost use Rattle.program_safety.specs.Threads.{ProgramThread, ended};

    ghost Value = { ProgramThread };

    ghost view = { λ machine. ended machine.program };
}

impl Machine for ProgramMachine {
    ghost use Rattle.program_safety.specs.Threads.{asks, goes_on, names};

    ghost action = { asks };

    ghost after_answer = { goes_on };

    ghost roots = { names };
}

impl Judged for ProgramMachine {
    ghost use Rattle.program_safety.specs.Sound.{Sound};

    ghost sound = { Sound };
}
