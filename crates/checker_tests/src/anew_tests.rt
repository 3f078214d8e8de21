//! One function of a module, read anew from a text of its own.
use crate::faults::{Told, told_of_module};
use crate::fronts::{Front, Fronts, NONE, Reader, cut_module, fronts_of};
use crate::texts::joined;
use ir_ast::{FuncId, Module};
use ir_print::print;
use ir_text::{ReadFault, read, replace};
use std::alloc::{AllocError, Global};

/// What comes before the functions.
const ITEMS: &str =
    "%Node = type { i64, %Node* }\n@g = global %Node* null\ndeclare void @dg_safepoint()\n";

const FIRST: &str = "define void @first() {\nentry:\n  call void @last()\n  ret void\n}\n";

const MIDDLE: &str = "define i64 @middle(i64 %a) {\nentry:\n  ret i64 %a\n}\n";

const LAST: &str = "define void @last() {\nentry:\n  ret void\n}\n";

/// `@middle` twice.
const TWO_MIDDLES: &str =
    "define i64 @middle(i64 %a) {\nentry:\n  ret i64 %a\n}\ndefine i64 @middle(i64 %a) {\nentry:\n  ret i64 %a\n}\n";

/// Another `@middle`. It mentions types that the module does not mention, and calls itself and what comes before and after it.
const ANOTHER_MIDDLE: &str =
    "define i64 @middle(i64 %a) {\nentry:\n  %s = alloca i16\n  store i16 7, i16* %s\n  %n = load %Node*, %Node** @g\n  call void @first()\n  call void @last()\n  call void @dg_safepoint()\n  %b = call i64 @middle(i64 %a)\n  ret i64 %b\n}\n";

/// What comes of reading an edit of `@middle`.
#[derive(Drop)]
enum Edited {
    /// The whole module with it is printed so.
    Printed(Vec<u8>),
    Refused(ReadFault),
    /// There is no module with a `@middle` that could be edited.
    NoModule,
}

/// What comes of an edit of the second function of a module.
fn edited_second(alloc: Global, of_module: &Module, edit: &[u8]) -> Result<Edited, AllocError> {
    if of_module.functions.len() < 2 {
        return Ok(Edited::NoModule);
    }
    match replace(alloc, of_module, FuncId::new(1), edit) {
        Ok(edited) => {
            let printed = print(alloc, &edited);
            drop(edited);
            Ok(Edited::Printed(printed?))
        }
        Err(fault) => Ok(Edited::Refused(fault)),
    }
}

/// What comes of an edit of `@middle`.
fn after_edit(alloc: Global, edit: &[u8]) -> Result<Edited, AllocError> {
    let text = joined(alloc, [ITEMS, FIRST, MIDDLE, LAST].as_slice())?;
    match read(alloc, text.as_slice()) {
        Ok(of_module) => {
            let edited = edited_second(alloc, &of_module, edit);
            drop(of_module);
            edited
        }
        Err(_) => Ok(Edited::NoModule),
    }
}

/// Whether the whole module with this edit of `@middle` is printed as it was, but for the edit.
fn is_put_in_place(alloc: Global, edit: &str) -> Result<bool, AllocError> {
    let wanted = joined(alloc, [ITEMS, FIRST, edit, LAST].as_slice())?;
    match after_edit(alloc, edit.as_bytes())? {
        Edited::Printed(printed) => Ok(printed.as_slice() == wanted.as_slice()),
        Edited::Refused(_) | Edited::NoModule => Ok(false),
    }
}

/// Whether both edits of `@middle` are put in its place.
fn are_put_in_place(alloc: Global) -> Result<(bool, bool), AllocError> {
    Ok((
        is_put_in_place(alloc, MIDDLE)?,
        is_put_in_place(alloc, ANOTHER_MIDDLE)?,
    ))
}

#[test]
fn puts_a_function_in_its_place(rt: HostRuntime) -> Result<(), AllocError> {
    assert_eq!(rt; are_put_in_place(rt.alloc())?, (true, true));
    Ok(())
}

/// Whether a form is left out that begins with this word; where there is none, whether the fault is another one.
fn is_word(fault: &ReadFault, wanted: &str) -> bool {
    match fault {
        ReadFault::LeftOut { word, .. } => word.as_slice() == wanted.as_bytes(),
        _ => wanted.is_empty(),
    }
}

/// An edit of `@middle` with its fault, and the word with which the form begins that is left out, if one is.
type RefusedEdit<'a> = (&'a str, Told, &'a str);

/// Whether an edit of `@middle` is refused so.
fn is_refused(alloc: Global, refused: RefusedEdit<'_>) -> Result<bool, AllocError> {
    let (edit, wanted, word) = refused;
    match after_edit(alloc, edit.as_bytes())? {
        Edited::Refused(fault) => {
            let is_alike = told_of_module(&fault) == wanted && is_word(&fault, word);
            drop(fault);
            Ok(is_alike)
        }
        Edited::Printed(_) | Edited::NoModule => Ok(false),
    }
}

/// Another name, before what is missing and before the same name defined twice; another item; an item after the function; nothing at
/// all; functions before this one, this one and one after it as operands, which they are not; and an unknown name.
const REFUSED: [RefusedEdit<'static>; 9] = [
    ("define void @other() {\n", ("L3", 1, 13), ""),
    (LAST, ("L3", 1, 13), ""),
    ("@h = global i64 0\n", ("L3", 1, 1), ""),
    (TWO_MIDDLES, ("L3", 5, 1), ""),
    ("", ("L2", 1, 1), ""),
    (
        "define i64 @middle(i64 %a) {\nentry:\n  store i8* @first, i8** null\n  ret i64 %a\n}\n",
        ("L7", 3, 13),
        "@first",
    ),
    (
        "define i64 @middle(i64 %a) {\nentry:\n  store i8* @middle, i8** null\n  ret i64 %a\n}\n",
        ("L7", 3, 13),
        "@middle",
    ),
    (
        "define i64 @middle(i64 %a) {\nentry:\n  store i8* @last, i8** null\n  ret i64 %a\n}\n",
        ("L7", 3, 13),
        "@last",
    ),
    (
        "define i64 @middle(i64 %a) {\nentry:\n  store i8* @nowhere, i8** null\n  ret i64 %a\n}\n",
        ("L5", 3, 13),
        "",
    ),
];

/// How many of these edits are refused as the table says.
fn refused(alloc: Global) -> Result<u32, AllocError> {
    let mut refused = 0u32;
    for edit in REFUSED {
        if is_refused(alloc, edit)? {
            refused = refused.saturating_add(1);
        }
    }
    Ok(refused)
}

#[test]
fn refuses_what_is_not_one_function_of_the_name(rt: HostRuntime) -> Result<(), AllocError> {
    assert_eq!(rt; refused(rt.alloc())?, 9);
    Ok(())
}

/// Reads edits of the second function of a module. Their parts are the functions of the module after the edit.
#[derive(Drop)]
struct Edits<'a> {
    alloc: Global,
    of_module: &'a Module,
}

impl<'a> Reader for Edits<'a> {
    fn front(&self, text: &[u8]) -> Front {
        if self.of_module.functions.len() < 2 {
            return Front::Other;
        }
        match replace(self.alloc, self.of_module, FuncId::new(1), text) {
            Ok(edited) => {
                let functions = edited.functions.len();
                drop(edited);
                Front::Read(functions)
            }
            Err(fault) => cut_module(&fault, text),
        }
    }
}

/// The fronts of an edit of `@middle`.
fn edit_fronts(alloc: Global, edit: &str) -> Result<Fronts, AllocError> {
    let text = joined(alloc, [ITEMS, FIRST, MIDDLE, LAST].as_slice())?;
    match read(alloc, text.as_slice()) {
        Ok(of_module) => {
            let reader = Edits {
                alloc,
                of_module: &of_module,
            };
            let fronts = fronts_of(&reader, edit.as_bytes());
            drop(of_module);
            Ok(fronts)
        }
        Err(_) => Ok(NONE),
    }
}

// Without its last line end it is whole.
#[test]
fn refuses_each_front_of_a_function(rt: HostRuntime) -> Result<(), AllocError> {
    let fronts = edit_fronts(rt.alloc(), ANOTHER_MIDDLE)?;
    assert_eq!(rt; fronts, ([0, 0, 0, 1, 0, 0, 0, 0, 0], 223, 0));
    Ok(())
}
