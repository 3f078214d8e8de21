//! Law of soundness: why a thread of a certified program obeys the discipline, where it starts with arguments that fit and meet
//! what is promised.
#![tactic(auto)]

mod fact_meaning;
mod step_soundness;

ghost use Rattle.soundness.specs.Discipline.{CertifiedIsNeverWrong};

pub use fact_meaning::edge_law;
pub use step_soundness::{members_law, step_law};

/// A thread of a program all of whose functions are certified starts at one of them, with arguments that it takes and that meet what is promised of its parameters. In every such run, whatever possible answers it gets and through all the calls that it makes, it is never wrong, the roots of all its frames are null or held, and each of its steps on the heap obeys the discipline.
pub fn discipline_law()
    ensures { CertifiedIsNeverWrong }
{}
