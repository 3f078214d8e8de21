ghost use Rattle.std.specs.Prelude.{ℕ, List, slice_get};
ghost use Rattle.layout.specs.Layouts.{LaidOut};
ghost use Rattle.machine.specs.Machine.{start};
ghost use Rattle.machine.specs.Start.{argument_values, StartsByReference, StartsWrongly};
ghost use Rattle.trace_text.specs.declared.trace.Setup.{Setup};
ghost use Rattle.program_runner.specs.Heaps.{heap_of};
ghost use Rattle.program_runner.specs.Kinds.{FitsThread};
ghost use Rattle.program_runner.specs.Setups.{CertifiedSetupIsSafe};

use program_safety::program_law;

/// The law of begun threads: a thread that begins with numbers that its function takes, whatever it gets from outside, fits the heap of each setup.
pub fn begun_law()
    ensures { (p : LaidOut) (setup : Setup) (function : ℕ) (arguments values : List ℕ) → (StartsByReference p function → ⊥) → (StartsWrongly p function arguments → ⊥)
        → FitsThread (heap_of p setup) (record { heap = heap_of p setup; program = p; state = start p.of_module (slice_get p.of_module.functions function) function (argument_values arguments); values = values }) }
{}

/// The safety theorem of setups: where a program is certified, and the threads of a setup may begin with arguments that meet
/// what is promised of the parameters, no run of these threads and the collector is broken.
pub fn setup_law()
    ensures { CertifiedSetupIsSafe }
{
    program_law();
}
