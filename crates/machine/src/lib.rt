//! One thread: its frames, what operands evaluate to, what it asks for at each instruction, and how it goes on with the answer.
#![tactic(auto)]

mod action;
mod answer;
mod asks;
mod calls;
mod casts;
mod choices;
mod elements;
mod ending;
mod ends;
mod entered;
mod entry;
mod float_words;
mod floats;
mod foreign;
mod frame;
mod frame_code;
mod frame_context;
mod frame_place;
mod frame_roots;
mod frames;
mod integer_functions;
mod integers;
mod jumps;
mod kinds;
mod memory;
mod numbers;
mod operands;
mod outside;
mod thread;
mod value;
mod waiting_frame;

pub use action::Action;
pub use answer::Answer;
pub use ending::Ending;
pub use float_words::float_number;
pub use frame_place::FramePlace;
pub use frame_roots::FrameRoots;
pub use integers::wrapped;
pub use thread::{StartFault, Thread};
pub use value::{Pointee, Reference, Value};
