//! Which operands are addresses outside of a module: a name that it only declares and that is no function of the runtime, or a constant bitcast of one.
#![tactic(auto)]

mod operand;

pub use operand::is_outside_operand;
