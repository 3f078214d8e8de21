//! The text of the ends of blocks.
ghost use Rattle.std.specs.Prelude.{◌≡◌, ◌++◌, ◌∷◌, OnOk};
ghost use Rattle.std.specs.List.{flat_map};
ghost use Rattle.ir_ast.specs.declared.ends.End.TheVariants as end;
ghost use Rattle.ir_print.specs.Ends as spec;

use crate::operands::{put_argument, put_constant};
use crate::parts::typed;
use crate::types::put_type;
use ir_ast::{Argument, Case, End, Module, Names, TypeId, ValueId};
use name_text::{Blank, put_local};
use std::alloc::{AllocError, Global};

/// Where the names of a text stand: those of the module, and those of the function.
#[derive(Clone, Copy)]
struct Scope<'a> {
    of_module: &'a Module,
    locals: &'a Names,
}

/// `label %b`.
fn put_target(out: &mut Vec<u8>, locals: &Names, label: ValueId) -> Result<(), AllocError>
    ensures { OnOk result (out.new.items ≡ out.old.items ++ spec.target_text locals.now label) }
{
    out.extend_from_slice(b"label ")?;
    put_local(out, locals, label, Blank::Kept)
}

/// `T c, label %b`, after a blank.
fn put_case(
    alloc: Global,
    out: &mut Vec<u8>,
    scope: &Scope,
    written: TypeId,
    case: &Case,
) -> Result<(), AllocError>
    ensures { OnOk result (out.new.items ≡ out.old.items ++ spec.case_text scope.now.of_module.now scope.now.locals.now written case.now) }
{
    out.push(b' ')?;
    put_type(alloc, out, scope.of_module, written)?;
    out.push(b' ')?;
    put_constant(alloc, out, scope.of_module, written, case.constant)?;
    out.extend_from_slice(b", ")?;
    put_target(out, scope.locals, case.target)
}

/// The cases of a switch.
fn put_cases(
    alloc: Global,
    out: &mut Vec<u8>,
    scope: &Scope,
    written: TypeId,
    cases: &[Case],
) -> Result<(), AllocError>
    ensures { OnOk result (out.new.items ≡ out.old.items ++ flat_map (spec.case_text scope.now.of_module.now scope.now.locals.now written) cases.now) }
{
    for case in cases {
        put_case(alloc, out, scope, written, case)?;
    }
    Ok(())
}

/// A br that has a condition.
fn put_branch(
    alloc: Global,
    out: &mut Vec<u8>,
    scope: &Scope,
    condition: &Argument,
    taken: ValueId,
    other: ValueId,
) -> Result<(), AllocError>
    ensures { OnOk result (out.new.items ≡ out.old.items ++ spec.end_text scope.now.of_module.now scope.now.locals.now (end.Branch condition.now.written condition.now.operand taken other)) }
{
    out.extend_from_slice(b"br ")?;
    put_argument(alloc, out, scope.of_module, scope.locals, condition)?;
    out.extend_from_slice(b", ")?;
    put_target(out, scope.locals, taken)?;
    out.extend_from_slice(b", ")?;
    put_target(out, scope.locals, other)
}

/// A switch.
fn put_switch(
    alloc: Global,
    out: &mut Vec<u8>,
    scope: &Scope,
    value: &Argument,
    otherwise: ValueId,
    cases: &[Case],
) -> Result<(), AllocError>
    ensures { OnOk result (out.new.items ≡ out.old.items ++ spec.end_text scope.now.of_module.now scope.now.locals.now (end.Switch value.now.written value.now.operand otherwise cases.now)) }
{
    out.extend_from_slice(b"switch ")?;
    put_argument(alloc, out, scope.of_module, scope.locals, value)?;
    out.extend_from_slice(b", ")?;
    put_target(out, scope.locals, otherwise)?;
    out.extend_from_slice(b" [")?;
    put_cases(alloc, out, scope, value.written, cases)?;
    out.extend_from_slice(b" ]")
}

/// How a block ends.
fn put_end(alloc: Global, out: &mut Vec<u8>, scope: &Scope, end: &End) -> Result<(), AllocError>
    ensures { OnOk result (out.new.items ≡ out.old.items ++ spec.end_text scope.now.of_module.now scope.now.locals.now end.now) }
{
    match end {
        End::Jump(target) => {
            out.extend_from_slice(b"br ")?;
            put_target(out, scope.locals, *target)
        }
        End::Branch {
            condition_type,
            condition,
            taken,
            other,
        } => {
            let condition = typed(*condition_type, *condition);
            put_branch(alloc, out, scope, &condition, *taken, *other)
        }
        End::Switch {
            written,
            value,
            otherwise,
            cases,
        } => {
            let value = typed(*written, *value);
            let cases = cases.as_slice();
            put_switch(alloc, out, scope, &value, *otherwise, cases)
        }
        End::Unreachable => out.extend_from_slice(b"unreachable"),
        End::ReturnVoid => out.extend_from_slice(b"ret void"),
        End::Return(value) => {
            out.extend_from_slice(b"ret ")?;
            put_argument(alloc, out, scope.of_module, scope.locals, value)
        }
    }
}

/// The line of the end of a block.
pub fn put_end_line(
    alloc: Global,
    out: &mut Vec<u8>,
    module: &Module,
    locals: &Names,
    end: &End,
) -> Result<(), AllocError>
    ensures { OnOk result (out.new.items ≡ out.old.items ++ spec.end_line «module».now locals.now end.now) }
{
    out.extend_from_slice(b"  ")?;
    let scope = Scope {
        of_module: module,
        locals,
    };
    put_end(alloc, out, &scope, end)?;
    out.extend_from_slice(b"\n")
}
