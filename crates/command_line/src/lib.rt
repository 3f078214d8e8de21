//! The command line: its grammar, and what a line asks for.
#![tactic(auto)]

mod command;
mod fault;
mod given;
mod grammar;
mod options;
mod reader;
mod table;

pub use command::{Command, Explained, Forms, INPUT, Paths, Written};
pub use fault::LineFault;
pub use options::{
    CheckOptions, Draws, ExplainOptions, HuntOptions, LowerOptions, MakeOptions, Refusals,
    ReplayOptions, RunOptions, Search, Shrink, SoakOptions, StepsTold, What, Why,
};
pub use reader::{explained_by, read_command};
