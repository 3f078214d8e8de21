//! What is told of modules without layouts: the struct that is at fault, or the shapes that are wanted.
use crate::cert_faults::put_shape_of;
use crate::cert_sentences::put_struct;
use crate::faults::{begin_fault_at, begin_whole_fault, end_fault_at, put_told};
use crate::forms::lexed_of;
use crate::site::put_word;
use crate::structs::{struct_name, struct_position};
use certificate::{CertFault, read_shapes};
use explain::Code;
use ir_ast::Module;
use ir_text::{ReadFault, read_in};
use ir_tokens::{Position, Token};
use layout::LayoutFault;
use messages::{
    CODE_MARGIN, Ink, Message, NamedText, Part, Pen, put_mark, put_path_at, put_position_line,
};
use name_text::Blank;
use pools::LayoutId;
use std::alloc::{AllocError, Global};

/// How many lines of shapes are written at most.
const LINES: usize = 8;

/// A struct at fault, with the code, what is found, and what mends it.
#[derive(Clone, Copy)]
struct StructFault {
    number: usize,
    code: Code,
    /// What comes after the name of the struct, and what comes before it.
    found: &'static str,
    before: &'static str,
    mend: &'static str,
}

fn struct_fault_of(fault: LayoutFault) -> Option<StructFault> {
    match fault {
        LayoutFault::HoldsItself(number) => Some(StructFault {
            number,
            code: Code::Y1,
            before: "",
            found: " holds itself",
            mend: "let a field point to the struct in place of holding it",
        }),
        LayoutFault::TooManyWords(number) => Some(StructFault {
            number,
            code: Code::Y2,
            before: "",
            found: " has more than 64 words",
            mend: "put some of its fields into a further struct, and let a field point to that",
        }),
        LayoutFault::NoSuchLayout(number) => Some(StructFault {
            number,
            code: Code::Y3,
            before: "a word of ",
            found: " points to no named struct",
            mend: "let each pointer among its fields point to a named struct",
        }),
        _ => None,
    }
}

/// What is found of a struct of this name.
fn put_found(out: &mut Message, name: &[u8], fault: &StructFault) {
    out.put(fault.before);
    put_word(out, name);
    out.put(fault.found)
}

/// What is found of a struct that is defined at a position of a text.
fn put_struct_at(
    pen: Pen,
    out: &mut Message,
    named: NamedText,
    fault: &StructFault,
    position: Position,
    name: &[u8],
) {
    begin_fault_at(pen, out, named.path, position, fault.code);
    put_found(out, name, fault);
    end_fault_at(pen, out, named, position)
}

/// The same among the tokens of the text.
fn put_struct_among(
    pen: Pen,
    out: &mut Message,
    named: NamedText,
    fault: &StructFault,
    tokens: &[Token],
) {
    let name = struct_name(named.text, tokens, fault.number);
    match struct_position(named.text, tokens, fault.number) {
        Some(position) => put_struct_at(pen, out, named, fault, position, name),
        None => {
            begin_whole_fault(pen, out, named.path, fault.code);
            put_found(out, name, fault);
            out.put("\n")
        }
    }
}

/// What is told of a struct that is at fault.
fn put_struct_fault(pen: Pen, out: &mut Message, named: NamedText, fault: &StructFault) {
    match lexed_of(pen.alloc, named) {
        Ok(Some(lexed)) => {
            put_struct_among(pen, out, named, fault, lexed.tokens.as_slice());
            drop(lexed)
        }
        Ok(None) => put_struct_among(pen, out, named, fault, &[]),
        Err(_) => return out.refuse(),
    }
    put_told(out, pen, Part::Mend, fault.mend)
}

/// Where a struct is defined in the text.
fn position_of_struct(
    alloc: Global,
    named: NamedText,
    number: usize,
) -> Result<Option<Position>, AllocError> {
    let Some(lexed) = lexed_of(alloc, named)? else {
        return Ok(None);
    };
    let position = struct_position(named.text, lexed.tokens.as_slice(), number);
    drop(lexed);
    Ok(position)
}

/// A note that says of a struct why it has no words, and what mends it.
fn put_noted(
    pen: Pen,
    out: &mut Message,
    named: NamedText,
    of_module: &Module,
    fault: &StructFault,
    position: Position,
) {
    out.begin_ink(pen.look, Ink::Place);
    put_path_at(out, named.path, position);
    out.end_ink(pen.look);
    out.put_inked(pen.look, Ink::Note, ": note: ");
    out.begin_part(Part::Note);
    out.put(fault.code.name());
    out.put(": %");
    put_struct(out, of_module, fault.number);
    out.put(fault.found);
    out.put("\n");
    put_position_line(out, pen, Ink::Note, named.text, position);
    out.put("\n")
}

/// Why a struct has no words, as a note, and what mends it.
pub(crate) fn put_struct_note(
    pen: Pen,
    out: &mut Message,
    named: NamedText,
    of_module: &Module,
    fault: LayoutFault,
) {
    let of_struct = struct_fault_of(fault);
    let Some(of_struct) = &of_struct else {
        return;
    };
    match position_of_struct(pen.alloc, named, of_struct.number) {
        Ok(Some(position)) => put_noted(pen, out, named, of_module, of_struct, position),
        Ok(None) => {}
        Err(_) => return out.refuse(),
    }
    put_told(out, pen, Part::Mend, of_struct.mend)
}

/// The shape that a text of shapes lacks, if it has no other fault.
fn missing_in(
    alloc: Global,
    shapes: &[u8],
    of_module: &Module,
) -> Result<Option<CertFault>, AllocError> {
    match read_shapes(alloc, shapes, of_module) {
        Ok(shapes) => {
            drop(shapes);
            Ok(None)
        }
        Err(CertFault::Memory) => Err(AllocError),
        Err(
            fault @ (CertFault::MissingWord(..)
            | CertFault::MissingGlobal(_)
            | CertFault::MissingRoot(..)),
        ) => Ok(Some(fault)),
        Err(_) => Ok(None),
    }
}

/// Appends a shape of what has none to a text of shapes: a reference to the first struct.
fn add_shape(
    alloc: Global,
    shapes: &mut Vec<u8>,
    of_module: &Module,
    fault: CertFault,
) -> Result<(), AllocError> {
    let mut line = Message::new(alloc);
    put_shape_of(&mut line, of_module, fault);
    line.put(" ref ");
    line.put_layout(of_module, LayoutId::new(0), Blank::Kept);
    line.put("\n");
    let line = line.finish()?;
    shapes.extend_from_slice(line.as_slice())?;
    Ok(())
}

/// A line for the shape of what has none.
fn put_wanted(out: &mut Message, of_module: &Module, fault: CertFault) {
    out.put(CODE_MARGIN);
    put_shape_of(out, of_module, fault);
    out.put(" ref L\n")
}

/// The lines of the shapes that a module wants. Returns whether these are all.
fn put_wanted_lines(
    alloc: Global,
    out: &mut Message,
    of_module: &Module,
) -> Result<bool, AllocError> {
    let mut shapes = Vec::from_slice(alloc, b"shapes 1\n")?;
    for _line in 0..LINES {
        let Some(fault) = missing_in(alloc, shapes.as_slice(), of_module)? else {
            return Ok(true);
        };
        put_wanted(out, of_module, fault);
        add_shape(alloc, &mut shapes, of_module, fault)?;
    }
    let last = missing_in(alloc, shapes.as_slice(), of_module)?;
    Ok(last.is_none())
}

/// The text of the shapes that a module wants.
fn put_wanted_text(alloc: Global, out: &mut Message, of_module: &Module) {
    out.put("         with these lines, where L is the layout to which each refers:\n");
    out.put(CODE_MARGIN);
    out.put("shapes 1\n");
    match put_wanted_lines(alloc, out, of_module) {
        Ok(true) => {}
        Ok(false) => {
            out.put(CODE_MARGIN);
            out.put("..\n")
        }
        Err(_) => out.refuse(),
    }
}

/// What is told of a module that has `ptr` and no shapes.
fn put_unshaped(pen: Pen, out: &mut Message, named: NamedText, wide: bool) {
    begin_whole_fault(pen, out, named.path, Code::Y5);
    out.put("the module has `ptr`, and no shapes are given\n");
    put_mark(out, pen.look, Part::Mend);
    out.put(
        "--shapes FILE gives them: a text that begins with `shapes 1` (docs/CERTIFICATES.md)\n",
    );
    match read_in(pen.alloc, named.text, wide) {
        Ok(of_module) => {
            put_wanted_text(pen.alloc, out, &of_module);
            drop(of_module)
        }
        Err(ReadFault::Memory) => out.refuse(),
        Err(_) => {}
    }
}

/// What is told of a module that has no layouts. The wide forms may stand in its text or not.
pub fn put_layout_fault(
    pen: Pen,
    out: &mut Message,
    named: NamedText,
    wide: bool,
    fault: LayoutFault,
) {
    let of_struct = struct_fault_of(fault);
    if let Some(of_struct) = &of_struct {
        return put_struct_fault(pen, out, named, of_struct);
    }
    match fault {
        LayoutFault::ShapesWanted => put_unshaped(pen, out, named, wide),
        LayoutFault::Memory => out.refuse(),
        _ => {}
    }
}
