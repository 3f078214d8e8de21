//! Calls for callers of the library, which no command makes. Each is called where it has to answer, so a body that gives up is seen.
use crate::texts::{FOUR, HEAD, joined};
use block_check::{check_block, check_rows, rows};
use cert_maker::make_with;
use certificate::{Certs, read_cert, read_shapes};
use ir_ast::{BlockId, FuncId, Module, Shapes};
use ir_text::read;
use layout::{Program, layouts};
use pools::{LayoutId, Layouts};
use std::alloc::{AllocError, Global};
use whole_certs::are_whole;

/// A module with opaque pointers. It keeps a cell in its slot.
const OPAQUE: &str =
    "%Node = type { i64, ptr }\n@g = global ptr null\ndeclare ptr @dg_alloc(i32)\ndeclare void @llvm.gcroot(ptr, ptr)\ndefine void @one() gc \"shadow-stack\" {\nentry:\n  %s = alloca ptr\n  call void @llvm.gcroot(ptr %s, ptr null)\n  %a = call ptr @dg_alloc(i32 0)\n  store ptr %a, ptr %s\n  ret void\n}\n";

/// Its shapes.
const SHAPES: &str =
    "shapes 1\nlayout Node 1 ref Node\nglobal @g ref Node\nroot @one %s ref Node\n";

/// Certificates of `OPAQUE`.
const SHAPED: &str =
    "cert 2\nlayout Node 1 ref Node\nglobal @g ref Node\nroot @one %s ref Node\nfunction @one may\nend\n";

/// A module whose struct has a shape for each of its two words.
const TWO_POINTERS: &str = "%Node = type { ptr, ptr }\n";

const SHAPES_OF_TWO: &str = "shapes 1\nlayout Node 0 ref Node\nlayout Node 1 ref Node\n";

/// Certificates of `FOUR`.
const CERTIFICATES: &str =
    "cert 1\nfunction @four may\nblock %no\nblock %ok\n%x ref Node nonnull fresh\nend\n";

/// Those that say nothing of the cell that the last block stores.
const SILENT: &str = "cert 1\nfunction @four may\nblock %no\nblock %ok\nend\n";

/// Whether the first and the second word of the first struct are references.
type References = (bool, bool);

fn references(layouts: &Layouts) -> References {
    let node = LayoutId::new(0);
    (layouts.is_ref_word(node, 0), layouts.is_ref_word(node, 1))
}

/// `OPAQUE` and its shapes.
fn opaque_and_shapes(alloc: Global) -> Option<(Module, Shapes)> {
    let Ok(module) = read(alloc, OPAQUE.as_bytes()) else {
        return None;
    };
    match read_shapes(alloc, SHAPES.as_bytes(), &module) {
        Ok(given) => Some((module, given.shapes)),
        Err(_) => {
            drop(module);
            None
        }
    }
}

fn references_with(alloc: Global, module: Module, shapes: Shapes) -> Option<References> {
    if module.shapes.is_some() {
        drop(module);
        drop(shapes);
        return None;
    }
    match Program::with_shapes(alloc, module, shapes) {
        Ok(program) => {
            let found = references(program.layouts());
            drop(program);
            Some(found)
        }
        Err(refused) => {
            drop(refused);
            None
        }
    }
}

/// What the words of `OPAQUE` are by its shapes.
fn references_by_shapes(alloc: Global) -> Option<References> {
    let (module, shapes) = opaque_and_shapes(alloc)?;
    references_with(alloc, module, shapes)
}

#[test]
fn lays_out_a_module_with_shapes_beside_it(rt: HostRuntime) {
    assert_eq!(rt; references_by_shapes(rt.alloc()), Some((false, true)));
}

/// What the words of `HEAD` are by its types.
fn references_by_types(alloc: Global) -> Option<References> {
    let Ok(module) = read(alloc, HEAD.as_bytes()) else {
        return None;
    };
    let laid_out = layouts(alloc, &module);
    drop(module);
    match laid_out {
        Ok(laid_out) => Some(references(&laid_out)),
        Err(_) => None,
    }
}

#[test]
fn finds_the_words_of_a_module_alone(rt: HostRuntime) {
    assert_eq!(rt; references_by_types(rt.alloc()), Some((false, true)));
}

/// Whether certificates are made of `OPAQUE` with its shapes, and fit it.
fn are_made_and_fit(alloc: Global) -> Option<bool> {
    let (module, shapes) = opaque_and_shapes(alloc)?;
    match make_with(alloc, module, shapes) {
        Ok(accepted) => {
            let fit = accepted.certs().fits(accepted.program().module());
            drop(accepted);
            Some(fit)
        }
        Err(unmade) => {
            drop(unmade);
            None
        }
    }
}

#[test]
fn makes_certificates_with_shapes_beside_the_module(rt: HostRuntime) {
    assert_eq!(rt; are_made_and_fit(rt.alloc()), Some(true));
}

/// Which shapes of the certificates of `OPAQUE` are taken away.
enum Missing {
    Nothing,
    Words,
    Globals,
    Roots,
}

fn take_away(shapes: &mut Shapes, missing: &Missing) {
    match missing {
        Missing::Nothing => {}
        Missing::Words => shapes.words.clear(),
        Missing::Globals => shapes.globals.clear(),
        Missing::Roots => shapes.roots.clear(),
    }
}

/// Whether certificates fit a module, and whether it has layouts with their shapes.
type Fitting = (bool, bool);

fn fitting(alloc: Global, module: Module, certs: Certs) -> Fitting {
    let mut module = module;
    let fit = certs.fits(&module);
    let Certs {
        sections,
        shapes,
        foreign,
    } = certs;
    drop(sections);
    drop(foreign);
    module.shapes = shapes;
    let laid_out = layouts(alloc, &module).is_ok();
    drop(module);
    (fit, laid_out)
}

/// `OPAQUE` and its certificates.
fn opaque_and_certs(alloc: Global) -> Option<(Module, Certs)> {
    let Ok(module) = read(alloc, OPAQUE.as_bytes()) else {
        return None;
    };
    match read_cert(alloc, SHAPED.as_bytes(), &module) {
        Ok(certs) => Some((module, certs)),
        Err(_) => {
            drop(module);
            None
        }
    }
}

/// `OPAQUE` and its certificates without these shapes.
fn opaque_without(alloc: Global, missing: &Missing) -> Option<(Module, Certs)> {
    let (module, mut certs) = opaque_and_certs(alloc)?;
    if let Some(shapes) = &mut certs.shapes {
        take_away(shapes, missing);
    }
    Some((module, certs))
}

/// How the certificates of `OPAQUE` fit without these shapes.
fn fitting_without(alloc: Global, missing: &Missing) -> Option<Fitting> {
    let (module, certs) = opaque_without(alloc, missing)?;
    Some(fitting(alloc, module, certs))
}

/// The shapes of `TWO_POINTERS`.
fn shapes_of_two(alloc: Global) -> Option<Shapes> {
    let Ok(module) = read(alloc, TWO_POINTERS.as_bytes()) else {
        return None;
    };
    let given = read_shapes(alloc, SHAPES_OF_TWO.as_bytes(), &module);
    drop(module);
    match given {
        Ok(given) => Some(given.shapes),
        Err(_) => None,
    }
}

/// `OPAQUE` and its certificates with a shape of the integer of its struct.
fn opaque_with_one_more(alloc: Global) -> Option<(Module, Certs)> {
    let others = shapes_of_two(alloc)?;
    let Some((module, mut certs)) = opaque_and_certs(alloc) else {
        drop(others);
        return None;
    };
    if let Some(shapes) = &mut certs.shapes {
        shapes.words = others.words;
    }
    Some((module, certs))
}

/// How the certificates of `OPAQUE` fit with a shape of the integer of its struct.
fn fitting_with_one_more(alloc: Global) -> Option<Fitting> {
    let (module, certs) = opaque_with_one_more(alloc)?;
    Some(fitting(alloc, module, certs))
}

/// That certificates fit says nothing of the words. A module has no layouts where one of type `ptr` has no shape, and a shape of another word says nothing.
#[test]
fn fits_by_globals_and_root_slots_and_not_by_words(rt: HostRuntime) {
    let alloc = rt.alloc();
    assert_eq!(rt;
        (
            fitting_without(alloc, &Missing::Nothing),
            fitting_without(alloc, &Missing::Words),
            fitting_without(alloc, &Missing::Globals),
            fitting_without(alloc, &Missing::Roots),
            fitting_with_one_more(alloc)
        ),
        (
            Some((true, true)),
            Some((true, false)),
            Some((false, true)),
            Some((false, true)),
            Some((true, true))
        )
    );
}

/// Whether certificates are whole, where memory is not refused.
fn whole(alloc: Global, given: Option<(Module, Certs)>) -> Option<bool> {
    let (module, certs) = given?;
    let whole = are_whole(alloc, &module, &certs);
    drop(module);
    drop(certs);
    whole.ok()
}

/// Certificates are whole with a shape of each word, global and root slot of type `ptr`, and of no other word.
#[test]
fn is_whole_where_exactly_the_shapes_are_there(rt: HostRuntime) {
    let alloc = rt.alloc();
    assert_eq!(rt;
        (
            whole(alloc, opaque_without(alloc, &Missing::Nothing)),
            whole(alloc, opaque_without(alloc, &Missing::Words)),
            whole(alloc, opaque_without(alloc, &Missing::Globals)),
            whole(alloc, opaque_without(alloc, &Missing::Roots)),
            whole(alloc, opaque_with_one_more(alloc))
        ),
        (
            Some(true),
            Some(false),
            Some(false),
            Some(false),
            Some(false)
        )
    );
}

/// `OPAQUE` and its certificates without any shapes.
fn opaque_without_shapes(alloc: Global) -> Option<(Module, Certs)> {
    let (module, certs) = opaque_and_certs(alloc)?;
    let Certs {
        sections,
        shapes,
        foreign,
    } = certs;
    drop(shapes);
    Some((
        module,
        Certs {
            sections,
            shapes: None,
            foreign,
        },
    ))
}

/// `FOUR` and its certificates, which have no shapes.
fn typed_and_certs(alloc: Global) -> Option<(Module, Certs)> {
    let Ok(text) = joined(alloc, [HEAD, FOUR].as_slice()) else {
        return None;
    };
    let module = read(alloc, text.as_slice());
    drop(text);
    let Ok(module) = module else {
        return None;
    };
    match read_cert(alloc, CERTIFICATES.as_bytes(), &module) {
        Ok(certs) => Some((module, certs)),
        Err(_) => {
            drop(module);
            None
        }
    }
}

/// Certificates without shapes are whole where the text writes no `ptr`.
#[test]
fn is_whole_without_shapes_in_a_typed_text(rt: HostRuntime) {
    let alloc = rt.alloc();
    assert_eq!(rt;
        (
            whole(alloc, typed_and_certs(alloc)),
            whole(alloc, opaque_without_shapes(alloc))
        ),
        (Some(true), Some(false))
    );
}

/// Whether a block of `FOUR` is certified: by itself, and by what was found before.
fn is_certified(
    alloc: Global,
    program: &Program,
    certs: &Certs,
    block: u32,
) -> Result<(bool, bool), AllocError> {
    if program.module().functions.as_slice().len() != 1 {
        return Ok((false, false));
    }
    let func = FuncId::new(0);
    let block = BlockId::new(block);
    let alone = check_block(alloc, program, certs, func, block).is_ok();
    let found = rows(alloc, program, certs, func)?;
    let again = check_rows(alloc, program, certs, &found, func, block).is_ok();
    drop(found);
    Ok((alone, again))
}

/// How many blocks of `FOUR` are certified: each by itself, and by what was found before.
fn count_certified(
    alloc: Global,
    program: &Program,
    certs: &Certs,
) -> Result<(u32, u32), AllocError> {
    let mut alone = 0u32;
    let mut again = 0u32;
    for block in 0..3u32 {
        let certified = is_certified(alloc, program, certs, block)?;
        alone = alone.saturating_add(u32::from(certified.0));
        again = again.saturating_add(u32::from(certified.1));
    }
    Ok((alone, again))
}

fn count_in(
    alloc: Global,
    module: Module,
    certificates: &str,
) -> Result<Option<(u32, u32)>, AllocError> {
    let Ok(certs) = read_cert(alloc, certificates.as_bytes(), &module) else {
        drop(module);
        return Ok(None);
    };
    let Ok(program) = Program::new(alloc, module) else {
        drop(certs);
        return Ok(None);
    };
    let count = count_certified(alloc, &program, &certs);
    drop(certs);
    drop(program);
    Ok(Some(count?))
}

/// How many of the three blocks of `FOUR` are certified by these certificates.
fn count_of(alloc: Global, certificates: &str) -> Result<Option<(u32, u32)>, AllocError> {
    let text = joined(alloc, [HEAD, FOUR].as_slice())?;
    let module = read(alloc, text.as_slice());
    drop(text);
    match module {
        Ok(module) => count_in(alloc, module, certificates),
        Err(_) => Ok(None),
    }
}

#[test]
fn checks_single_blocks(rt: HostRuntime) -> Result<(), AllocError> {
    assert_eq!(rt;
        (
            count_of(rt.alloc(), CERTIFICATES)?,
            count_of(rt.alloc(), SILENT)?
        ),
        (Some((3, 3)), Some((2, 2)))
    );
    Ok(())
}
