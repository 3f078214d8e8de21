//! Copies of a module and of its parts; and a module once more with opaque pointers in the place of its typed ones: each pointer type is
//! `ptr`, and each bitcast of a global is the global.
#![tactic(auto)]

mod copied;
mod function;
mod made_opaque;
mod of_module;
mod op;
mod opaque_function;
mod opaque_module;
mod tables;
mod type_numbers;

pub use function::{copy_collector, copy_function};
pub use of_module::{
    Certified, Defined, copy_certified, copy_module, copy_outside, copy_shapes, joined,
};
pub use opaque_module::opaque;
pub use tables::{Tables, copy_names, copy_tables};
