ghost use Rattle.program_safety.specs.Safety.{CertifiedIsCareful, CertifiedIsSafe};

use crate::program_machine::ProgramMachine;
use runs::soundness_law;
use soundness::discipline_law;

/// The safety theorem of certified programs. Where each function of a program is certified, then over every heap of it, for
/// every number of threads that begin at its functions, with arguments that fit their types and meet what is promised of the
/// parameters, and with any numbers from outside, and every list of atomic steps of these threads and the collector: no thread goes wrong, none touches a cell that is free or was claimed again, and no such cell is reachable from the globals
/// or a root. Each thread obeys the discipline at each of its moves, as long as each answer is possible.
pub fn program_law()
    ensures careful { CertifiedIsCareful }
    ensures safe { CertifiedIsSafe }
{
    discipline_law();
    soundness_law::<ProgramMachine>();
}
