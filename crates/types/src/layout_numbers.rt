//! Which layout a call of dg_alloc means.
ghost use Rattle.std.specs.Prelude.{◌≡◌};
ghost use Rattle.types.specs.LayoutNumbers as spec;

use ir_ast::{Constant, LayoutNumber, Module, Operand};
use pools::LayoutId;

/// Whether dg_alloc takes a number: one of 32 bits.
pub fn is_layout_number(number: u64) -> bool
    ensures { result ≡ spec.is_layout_number number }
{
    number < 4_294_967_296
}

fn layout_at(count: usize, number: u64) -> Option<LayoutId>
    ensures { result ≡ spec.layout_at count number }
{
    if number < count as u64 && is_layout_number(number) {
        Some(LayoutId::new(number as u32))
    } else {
        None
    }
}

fn layout_listed(numbers: &[LayoutNumber], number: u64) -> Option<LayoutId>
    ensures { result ≡ spec.layout_listed numbers.now number }
{
    let mut left = numbers;
    while let [line, rest @ ..] = left {
        if line.number == number {
            return Some(line.layout);
        }
        left = rest;
    }
    None
}

/// The layout that dg_alloc means by a number, in a module of so many structs where these numbers are listed.
fn layout_numbered(count: usize, numbers: &[LayoutNumber], number: u64) -> Option<LayoutId>
    ensures { result ≡ spec.layout_numbered count numbers.now number }
{
    match numbers {
        [] => layout_at(count, number),
        [_, ..] => layout_listed(numbers, number),
    }
}

/// The layout that dg_alloc means by an operand.
pub fn layout_meant(module: &Module, operand: &Operand) -> Option<LayoutId>
    ensures { result ≡ spec.layout_meant «module».now operand.now }
{
    match operand {
        Operand::Constant(Constant::Number(number)) => {
            let numbers = module.trusted.numbers.as_slice();
            layout_numbered(module.structs.len(), numbers, *number)
        }
        _ => None,
    }
}
