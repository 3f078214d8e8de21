//! Which numbers of layouts may be listed.
ghost use Rattle.std.specs.Prelude.{◌≡◌};
ghost use Rattle.std.specs.List.{list_all};
ghost use Rattle.certs.specs.NumbersFit as spec;

use crate::fits::is_layout;
use ir_ast::{LayoutNumber, Module};
use pools::LayoutId;
use types::is_layout_number;

/// Whether a layout is listed.
pub fn has_layout(numbers: &[LayoutNumber], layout: LayoutId) -> bool
    ensures { result ≡ spec.has_layout numbers.now layout }
{
    numbers.iter().any(|line| line.layout == layout)
}

/// Whether a number is listed.
pub fn has_number(numbers: &[LayoutNumber], number: u64) -> bool
    ensures { result ≡ spec.has_number numbers.now number }
{
    numbers.iter().any(|line| line.number == number)
}

/// Whether no layout and no number stands twice.
fn are_numbered_once(numbers: &[LayoutNumber]) -> bool
    ensures { result ≡ spec.are_numbered_once numbers.now }
{
    let mut left = numbers;
    while let [line, rest @ ..] = left {
        if has_layout(rest, line.layout) || has_number(rest, line.number) {
            return false;
        }
        left = rest;
    }
    true
}

fn may_number(module: &Module, line: LayoutNumber) -> bool
    ensures { result ≡ spec.may_number «module».now line }
{
    is_layout(module, line.layout) && is_layout_number(line.number)
}

fn are_numbers(module: &Module, numbers: &[LayoutNumber]) -> bool
    ensures { result ≡ list_all (spec.may_number «module».now) numbers.now }
{
    numbers.iter().all(|line| may_number(module, *line))
}

/// Whether they are numbers of layouts of a module of the wide forms, each layout and each number once.
pub fn numbers_fit(module: &Module, numbers: &[LayoutNumber]) -> bool
    ensures { result ≡ spec.numbers_fit «module».now numbers.now }
{
    match numbers {
        [] => true,
        [_, ..] => { module.wide && are_numbers(module, numbers) && are_numbered_once(numbers) }
    }
}
