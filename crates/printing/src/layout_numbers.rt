//! The numbers by which dg_alloc means layouts.
use crate::mends::MARGIN;
use crate::told::Told;
use ir_ast::{Constant, LayoutNumber, Module, Operand};
use messages::Message;
use name_text::Blank;
use pools::LayoutId;

/// What stands before the numbers of the layouts.
pub(crate) const NUMBERS: &str = "the numbers that dg_alloc takes: ";

/// A number and its layout: `0 Node`.
fn put_one(out: &mut Message, module: &Module, place: usize, line: LayoutNumber) {
    out.put(if place == 0 { "" } else { ", " });
    out.put_number(line.number);
    out.put(" ");
    out.put_layout(module, line.layout, Blank::Kept)
}

/// The structs by their places in the text.
fn put_places(out: &mut Message, module: &Module) {
    for place in 0..module.structs.len() {
        if let Ok(number) = u32::try_from(place) {
            let layout = LayoutId::new(number);
            let number = number as u64;
            put_one(out, module, place, LayoutNumber { layout, number });
        }
    }
}

/// The numbers of the layouts: `0 Node, 1 Tree`.
pub(crate) fn put_numbers(out: &mut Message, module: &Module) {
    match module.trusted.numbers.as_slice() {
        [] => put_places(out, module),
        lines => {
            for (place, line) in lines.iter().enumerate() {
                put_one(out, module, place, *line);
            }
        }
    }
    out.put("\n")
}

/// The struct at this place of the text, if it has no number so far.
fn unlisted_at(module: &Module, lines: &[LayoutNumber], place: u64) -> Option<LayoutId> {
    let number = u32::try_from(place).ok()?;
    let named = lines.iter().any(|line| line.layout.number() == number);
    if named || place >= module.structs.len() as u64 {
        return None;
    }
    Some(LayoutId::new(number))
}

/// The line that lists a number: of the struct at its place in the text, where that has none.
fn put_line_wanted(out: &mut Message, module: &Module, lines: &[LayoutNumber], number: u64) {
    out.put(", or list this one in the certificate: `number ");
    match unlisted_at(module, lines, number) {
        Some(layout) => out.put_layout(module, layout, Blank::Kept),
        None => out.put("L"),
    }
    out.put(" ");
    out.put_number(number);
    out.put("`")
}

/// What mends a number that is not listed.
fn put_unlisted(out: &mut Message, told: &Told, lines: &[LayoutNumber]) {
    out.put("write a number that is listed");
    if let Some(Operand::Constant(Constant::Number(number))) = told.holes.it {
        put_line_wanted(out, told.module(), lines, number);
    }
    out.put("\n");
    out.put(MARGIN);
    out.put(NUMBERS);
    put_numbers(out, told.module())
}

/// The numbers that an allocation may write.
pub(crate) fn put_numbered(out: &mut Message, told: &Told) {
    let module = told.module();
    match module.trusted.numbers.as_slice() {
        [] => {
            out.put(
                "write the number of a layout, which are the named structs in the order of the text:\n",
            );
            out.put(MARGIN);
            put_numbers(out, module)
        }
        lines => put_unlisted(out, told, lines),
    }
}
