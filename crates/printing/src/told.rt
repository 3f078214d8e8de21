//! Words whose holes are filled by names of a function: `{it} is stored into {place}`.
use crate::texts::Texts;
use diagnosis::{Holes, Spot, local};
use ir_ast::{BlockId, Constant, Function, LocalSort, Module, Operand, SymbolId, TypeId, ValueId};
use ir_print::put_bits;
use messages::{Message, put_type};
use name_text::Blank;

/// What fills holes, with the texts and the function that has the names.
#[derive(Clone, Copy)]
pub(crate) struct Told<'a> {
    pub(crate) texts: Texts<'a>,
    pub(crate) function: &'a Function,
    pub(crate) holes: Holes,
}

impl<'a> Told<'a> {
    /// What fills these holes, if their function is there.
    pub(crate) fn of(texts: &Texts<'a>, holes: Holes) -> Option<Told<'a>> {
        Some(Told {
            texts: *texts,
            function: texts.function(holes.func)?,
            holes,
        })
    }

    /// The number of the first token of an instruction of the function.
    pub(crate) fn token_number(&self, spot: &Spot) -> Option<usize> {
        self.texts.token_number(self.holes.func, spot)
    }

    /// The module.
    pub(crate) fn module(&self) -> &'a Module {
        self.texts.program.module()
    }
}

/// The name of a value, a slot or a block of a function.
pub(crate) fn put_value(out: &mut Message, function: &Function, value: ValueId) {
    out.put_local(&function.locals, value, Blank::Kept)
}

/// The name of a function or a global.
pub(crate) fn put_symbol(out: &mut Message, of_module: &Module, symbol: SymbolId) {
    out.put_global(of_module, symbol, Blank::Kept)
}

/// The name of a block of a function.
pub(crate) fn put_block(out: &mut Message, function: &Function, block: BlockId) {
    if let Some(block) = function.blocks.get(block.number() as usize) {
        put_value(out, function, block.label);
    }
}

/// A floating point number, by its bits.
fn put_float(out: &mut Message, told: &Told, number: u64) {
    let mut text = Vec::new(told.texts.pen.alloc);
    match put_bits(&mut text, number) {
        Ok(()) => out.put_bytes(text.as_slice()),
        Err(_) => out.refuse(),
    }
}

fn put_constant(out: &mut Message, told: &Told, constant: Constant) {
    match constant {
        Constant::Number(number) => out.put_number(number),
        Constant::Float(number) => put_float(out, told, number),
        Constant::Null => out.put("null"),
        Constant::Truth(truth) => out.put(if truth { "true" } else { "false" }),
    }
}

/// What an instruction reads, as it is named.
pub(crate) fn put_operand(out: &mut Message, told: &Told, operand: Operand) {
    match operand {
        Operand::Constant(constant) => put_constant(out, told, constant),
        Operand::Local(value) => put_value(out, told.function, value),
        Operand::Global(symbol) => put_symbol(out, told.module(), symbol),
        Operand::CastGlobal { global, .. } => put_symbol(out, told.module(), global),
    }
}

fn put_named(out: &mut Message, told: &Told, operand: Option<Operand>, otherwise: &str) {
    match operand {
        Some(operand) => put_operand(out, told, operand),
        None => out.put(otherwise),
    }
}

fn put_block_or(out: &mut Message, told: &Told, block: Option<BlockId>) {
    match block {
        Some(block) => put_block(out, told.function, block),
        None => out.put("the block"),
    }
}

/// The type of the value that an operand names.
pub(crate) fn type_of(told: &Told, operand: Option<Operand>) -> Option<TypeId> {
    let value = local(operand?)?;
    match told.function.sorts.get(value.number() as usize) {
        Some(LocalSort::Value(written)) => Some(*written),
        _ => None,
    }
}

/// A type, or `T` where it is not known.
pub(crate) fn put_type_or(out: &mut Message, told: &Told, written: Option<TypeId>) {
    match written {
        Some(written) => put_type(told.texts.pen.alloc, out, told.module(), written),
        None => out.put("T"),
    }
}

/// What stands at a hole.
fn put_hole(out: &mut Message, told: &Told, hole: &str) {
    let holes = &told.holes;
    match hole {
        "it" => put_named(out, told, holes.it, "it"),
        "type" => put_type_or(out, told, type_of(told, holes.it)),
        "place" => put_named(out, told, holes.place, "the place"),
        "base" => put_named(out, told, holes.base, "the object"),
        "object" => put_named(out, told, holes.base, "null"),
        "here" => put_block(out, told.function, holes.here),
        "to" => put_block_or(out, told, holes.other),
        "definer" => put_block_or(out, told, holes.by),
        "function" => put_symbol(out, told.module(), told.function.symbol),
        "callee" => match holes.callee {
            Some(callee) => put_symbol(out, told.module(), callee),
            None => out.put("the function"),
        },
        "number" => out.put_number(holes.number),
        _ => out.put("?"),
    }
}

/// Words whose holes are filled.
pub(crate) fn put_text(out: &mut Message, told: &Told, text: &str) {
    for piece in text.split('{') {
        match piece.split_once('}') {
            Some((hole, words)) => {
                put_hole(out, told, hole);
                out.put(words);
            }
            None => out.put(piece),
        }
    }
}
