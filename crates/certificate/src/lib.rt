//! Certificates as text: the reader, the printer, and when what is printed is read as them again.
#![tactic(auto)]

mod anew;
mod draft;
mod facts;
mod fault;
mod foreign_forms;
mod forms;
mod given_shapes;
mod input;
mod laws;
mod migrated;
mod mistake;
mod naming;
mod number_forms;
mod numbers;
mod plain;
mod print;
mod print_foreign;
mod print_numbers;
mod print_sections;
mod print_shapes;
mod progress;
mod promises;
mod reader;
mod replaced;
mod shape_draft;
mod shape_forms;
mod shape_text;
mod starts;
mod typed_shapes;

pub use anew::read_section;
pub use certs::{Age, Certs, Claim, Fact, Family, Mark, Promise, Section};
pub use draft::root_names;
pub use fault::CertFault;
pub use given_shapes::GivenShapes;
pub use laws::cert_law;
pub use migrated::{is_typed_text, migrate};
pub use print::print_line;
pub use print_sections::{print_cert, print_section};
pub use reader::read_cert;
pub use replaced::replace_section;
pub use shape_text::read_shapes;
