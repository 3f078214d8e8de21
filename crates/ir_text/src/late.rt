//! Names that are checked after the whole text.
ghost use Rattle.std.specs.Prelude.{◌≡◌};
ghost use Rattle.ir_text.specs.Late as spec;

use ir_ast::{Runtime, SymbolSort};
use ir_forms::{Fault, Input, StructUse, SymbolUse};
use pools::LayoutId;

/// Whether a name of this sort may be called, or else be an operand.
fn is_right(is_call: bool, sort: Option<SymbolSort>) -> bool
    ensures { result ≡ spec.is_right is_call sort }
{
    match sort {
        Some(SymbolSort::Global(_)) => !is_call,
        Some(SymbolSort::Declared(_)) | Some(SymbolSort::Defined(_)) => is_call,
        _ => false,
    }
}

/// Whether a name that means this may be used so: what is outside is an operand, too, where the wide forms may stand.
fn may_use(wide: bool, is_call: bool, sort: Option<SymbolSort>, name: &[u8]) -> bool
    ensures { result ≡ spec.may_use wide is_call sort name.now }
{
    match sort {
        Some(SymbolSort::Declared(_)) => {
            (Runtime::of(name).is_none() && wide && !is_call) || is_call
        }
        _ => is_right(is_call, sort),
    }
}

/// Whether the use is one of a name of the right sort.
fn is_right_symbol(input: &Input<'_>, used: &SymbolUse) -> bool
    ensures { result ≡ spec.is_right_symbol input.now used.now }
{
    let number = used.symbol.number() as usize;
    let sort = input.symbols.sort(number);
    may_use(
        input.wide,
        used.is_call,
        sort,
        input.symbols.names.name_at(number),
    )
}

/// Whether the use is one of a function, which is not outside, as an operand.
fn is_function_operand(input: &Input<'_>, used: &SymbolUse) -> bool
    ensures { result ≡ spec.is_function_operand input.now used.now }
{
    let sort = input.symbols.sort(used.symbol.number() as usize);
    !used.is_call && is_right(true, sort) && !is_right_symbol(input, used)
}

fn is_struct(sort: Option<Option<LayoutId>>) -> bool
    ensures { result ≡ spec.is_struct sort }
{
    matches!(sort, Some(Some(_)))
}

/// Whether the use is one of a struct that is defined.
fn is_right_struct(input: &Input<'_>, used: &StructUse) -> bool
    ensures { result ≡ spec.is_right_struct input.now used.now }
{
    is_struct(input.struct_names.sort(used.name.number() as usize))
}

fn function_operand(input: &Input<'_>) -> Option<Fault>
    ensures { result ≡ spec.function_operand input.now }
{
    let uses = input.symbol_uses.as_slice();
    let found = uses.iter().find(|used| is_function_operand(input, used))?;
    Some(Fault::LeftOut {
        start: found.start,
        length: found.length,
    })
}

fn wrong_symbol(input: &Input<'_>) -> Option<u32>
    ensures { result ≡ spec.wrong_symbol input.now }
{
    let uses = input.symbol_uses.as_slice();
    let found = uses.iter().find(|used| !is_right_symbol(input, used))?;
    Some(found.start)
}

fn wrong_struct(input: &Input<'_>) -> Option<u32>
    ensures { result ≡ spec.wrong_struct input.now }
{
    let uses = input.struct_uses.as_slice();
    let found = uses.iter().find(|used| !is_right_struct(input, used))?;
    Some(found.start)
}

fn earliest(a: Option<u32>, b: Option<u32>) -> Option<u32>
    ensures { result ≡ spec.earliest a b }
{
    match (a, b) {
        (None, place) | (place, None) => place,
        (Some(a), Some(b)) => Some(a.min(b)),
    }
}

/// The first fault of a text that has no other fault than those of names.
pub fn late_fault(input: &Input<'_>) -> Option<Fault>
    ensures { result ≡ spec.late_fault input.now }
{
    if let Some(fault) = function_operand(input) {
        return Some(fault);
    }
    let symbol = earliest(input.missing, wrong_symbol(input));
    let place = earliest(symbol, wrong_struct(input))?;
    Some(Fault::NotDefined(place))
}
