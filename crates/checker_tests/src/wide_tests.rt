//! Modules with the wide forms: what is printed of them, and edits of them.
use crate::faults::{Told, told_of_module};
use ir_ast::{FuncId, Module};
use ir_print::print;
use ir_text::{read_in, replace};
use std::alloc::{AllocError, Global};

/// A function without a wide form.
const PLAIN: &str = "define i64 @f(i64 %a, i64 %b) {\nentry:\n  ret i64 %a\n}\n";

/// The same function with each of them.
const EACH: &str =
    "define i64 @f(i64 %a, i64 %b) {\nentry:\n  %c = shl nuw nsw i64 %a, %b\n  %d = lshr exact i64 %c, 3\n  %e = ashr i64 %d, %b\n  %g = udiv exact i64 %e, 7\n  %h = sdiv i64 %g, %b\n  %i = urem i64 %h, 31\n  %j = srem i64 %i, -1\n  %k = freeze i64 %j\n  ret i64 %k\n}\n";

/// What is printed of it.
const EACH_AS_PRINTED: &str =
    "define i64 @f(i64 %a, i64 %b) {\nentry:\n  %c = shl i64 %a, %b\n  %d = lshr i64 %c, 3\n  %e = ashr i64 %d, %b\n  %g = udiv i64 %e, 7\n  %h = sdiv i64 %g, %b\n  %i = urem i64 %h, 31\n  %j = srem i64 %i, 18446744073709551615\n  %k = bitcast i64 %j to i64\n  ret i64 %k\n}\n";

/// What comes of a text and of an edit of its first function.
#[derive(Drop)]
enum Edited {
    Printed(Vec<u8>),
    Refused(Told),
    NoModule,
}

/// What comes of an edit of the first function of a module.
fn after_edit(alloc: Global, of_module: &Module, edit: &str) -> Result<Edited, AllocError> {
    if of_module.functions.is_empty() {
        return Ok(Edited::NoModule);
    }
    match replace(alloc, of_module, FuncId::new(0), edit.as_bytes()) {
        Ok(edited) => {
            let printed = print(alloc, &edited);
            drop(edited);
            Ok(Edited::Printed(printed?))
        }
        Err(fault) => {
            let told = told_of_module(&fault);
            drop(fault);
            Ok(Edited::Refused(told))
        }
    }
}

/// What comes of the function with each wide form in the place of the plain one, where the wide forms may stand or not.
fn plain_edited(alloc: Global, wide: bool) -> Result<Edited, AllocError> {
    match read_in(alloc, PLAIN.as_bytes(), wide) {
        Ok(of_module) => {
            let edited = after_edit(alloc, &of_module, EACH);
            drop(of_module);
            edited
        }
        Err(_) => Ok(Edited::NoModule),
    }
}

/// Whether it is read where they may stand, and printed so.
fn is_printed(alloc: Global) -> Result<bool, AllocError> {
    match plain_edited(alloc, true)? {
        Edited::Printed(printed) => Ok(printed.as_slice() == EACH_AS_PRINTED.as_bytes()),
        Edited::Refused(_) | Edited::NoModule => Ok(false),
    }
}

/// The fault that it has where they may not.
fn fault_in_core(alloc: Global) -> Result<Told, AllocError> {
    match plain_edited(alloc, false)? {
        Edited::Refused(told) => Ok(told),
        Edited::Printed(_) | Edited::NoModule => Ok(("", 0, 0)),
    }
}

#[test]
fn reads_edits_in_the_forms_of_the_module(rt: HostRuntime) -> Result<(), AllocError> {
    assert_eq!(rt;
        (is_printed(rt.alloc())?, fault_in_core(rt.alloc())?),
        (true, ("L7", 3, 8))
    );
    Ok(())
}
