//! The text of a certificate that is made of a module.
use cert_maker::{MakeFault, NotMade, make, make_with};
use certificate::{GivenShapes, print_cert, read_shapes};
use ir_ast::{Module, Shapes};
use layout::wants_shapes;
use messages::Message;
use module_check::Accepted;
use name_text::{past_blanks, word};
use std::alloc::{AllocError, Global};

/// The first line of a text of shapes.
const HEAD: &str = "shapes 1\n";

/// The text of certificates that are made of a module.
#[derive(Drop)]
pub(crate) struct MadeText {
    pub text: Vec<u8>,
    /// Whether the module is accepted with them. Otherwise they are the boldest that were tried.
    pub accepted: bool,
}

/// The text of certificates with which a module is accepted.
fn text_of_accepted(alloc: Global, accepted: &Accepted) -> Result<Option<MadeText>, AllocError> {
    let text = print_cert(alloc, accepted.certs(), accepted.program().module())?;
    Ok(Some(MadeText {
        text,
        accepted: true,
    }))
}

/// The text of the boldest certificates that were tried, if there are some.
fn text_of_tried(alloc: Global, unmade: &NotMade) -> Result<Option<MadeText>, AllocError> {
    match (&unmade.fault, &unmade.refused) {
        (MakeFault::Memory, _) => Err(AllocError),
        (_, Some(tried)) => Ok(Some(MadeText {
            text: print_cert(alloc, &tried.certs, &unmade.of_module)?,
            accepted: false,
        })),
        _ => Ok(None),
    }
}

/// Makes certificates of a module with these shapes, and with its numbers of layouts.
pub(crate) fn made_text(
    alloc: Global,
    of_module: Module,
    shapes: Option<Shapes>,
) -> Result<Option<MadeText>, AllocError> {
    let made = match shapes {
        Some(shapes) => make_with(alloc, of_module, shapes),
        None => make(alloc, of_module),
    };
    match made {
        Ok(accepted) => {
            let text = text_of_accepted(alloc, &accepted);
            drop(accepted);
            text
        }
        Err(unmade) => {
            let text = text_of_tried(alloc, &unmade);
            drop(unmade);
            text
        }
    }
}

/// Whether a line of a certificate says a shape.
fn is_shape(line: &[u8]) -> bool {
    let first = word(past_blanks(line));
    first == b"layout".as_slice() || first == b"global".as_slice() || first == b"root".as_slice()
}

/// Whether a line of a certificate says the number of a layout.
fn is_number(line: &[u8]) -> bool {
    word(past_blanks(line)) == b"number".as_slice()
}

/// The numbers of layouts in a certificate's text, and its shapes if they are asked for, as a text of their own.
fn shape_text(alloc: Global, certificate: &[u8], shaped: bool) -> Result<Vec<u8>, AllocError> {
    let mut out = Message::new(alloc);
    out.put(HEAD);
    let mut begins = true;
    let mut is_taken = false;
    for (place, byte) in certificate.iter().enumerate() {
        if begins {
            let line = certificate.get(place..).unwrap_or(&[]);
            is_taken = is_number(line) || (shaped && is_shape(line));
        }
        if is_taken {
            out.put_byte(*byte);
        }
        begins = *byte == b'\n';
    }
    out.finish()
}

/// Makes certificates of a module with what is given. The shapes count where it writes `ptr`.
fn made_with(
    alloc: Global,
    of_module: Module,
    given: GivenShapes,
) -> Result<Option<MadeText>, AllocError> {
    let mut of_module = of_module;
    of_module.trusted.numbers = given.numbers;
    if wants_shapes(&of_module) {
        return made_text(alloc, of_module, Some(given.shapes));
    }
    drop(given.shapes);
    made_text(alloc, of_module, None)
}

/// Makes certificates of a module with the shapes and the numbers of layouts that a certificate's text has, of which nothing else is read.
/// Nothing where they are not all there.
pub(crate) fn made_beside(
    alloc: Global,
    of_module: Module,
    certificate: &[u8],
) -> Result<Option<MadeText>, AllocError> {
    let shaped = wants_shapes(&of_module);
    let text = shape_text(alloc, certificate, shaped)?;
    if !shaped && text.len() == HEAD.len() {
        return made_text(alloc, of_module, None);
    }
    match read_shapes(alloc, text.as_slice(), &of_module) {
        Ok(given) => made_with(alloc, of_module, given),
        Err(_fault) => {
            drop(of_module);
            Ok(None)
        }
    }
}
