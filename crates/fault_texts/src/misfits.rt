//! C1: a fact that does not fit the type of its value, and a shape of what is not of type `ptr`.
use crate::cert_sentences::put_struct;
use crate::cert_site::{CertSite, function_named, local_named};
use crate::site::{put_quoted, put_word};
use ir_ast::{Function, IrType, LocalSort, Module, Shapes, TypeId};
use ir_text::{ReadFault, read_in};
use items::Items;
use layout::{LayoutFault, field_rows, layouts};
use messages::{Message, put_type};
use name_text::{Sigil, layout_name_in, name_in, number_of_word};
use std::alloc::{AllocError, Global};

/// A fact and the type that it does not fit.
#[derive(Clone, Copy)]
struct Misfit {
    /// None of the address of a word.
    written: Option<TypeId>,
}

/// Whether a word says something of integers: `i64` or `below`.
fn is_of_integers(word: &[u8]) -> bool {
    match word {
        b"below" => true,
        [b'i', digits @ ..] => number_of_word(digits).is_some(),
        _ => false,
    }
}

/// Whether a word says something of references or addresses.
fn is_of_pointers(word: &[u8]) -> bool {
    matches!(
        word,
        b"ref" | b"addr" | b"nonnull" | b"stale" | b"fresh" | b"same"
    )
}

/// Whether a word says that a pointer is an address outside, which may be said with the wide forms.
fn is_of_outside(of_module: &Module, word: &[u8]) -> bool {
    of_module.wide && word == b"i64".as_slice()
}

/// Whether a word does not fit a pointer.
fn misfits_pointer(of_module: &Module, word: &[u8]) -> bool {
    is_of_integers(word) && !is_of_outside(of_module, word)
}

/// Whether a word of a certificate does not fit values of a type.
fn misfits(of_module: &Module, word: &[u8], written: TypeId) -> bool {
    match of_module.types.get(written) {
        Some(IrType::Integer(_)) => {
            is_of_pointers(word) || (is_of_integers(word) && word != b"below".as_slice())
        }
        Some(IrType::Pointer(_) | IrType::Opaque) => misfits_pointer(of_module, word),
        _ => false,
    }
}

/// The misfit of a word and a local of this sort.
fn misfit_of(of_module: &Module, word: &[u8], sort: LocalSort) -> Option<Misfit> {
    match sort {
        LocalSort::Value(written) if misfits(of_module, word, written) => Some(Misfit {
            written: Some(written),
        }),
        LocalSort::Element { .. } if misfits_pointer(of_module, word) => {
            Some(Misfit { written: None })
        }
        _ => None,
    }
}

/// The name of the value of which the line of a position says something.
fn subject_of<'a>(site: CertSite<'a>) -> &'a [u8] {
    match site.first() {
        b"param" => site.second(),
        [b'%', ..] if site.before() == site.first() => site.first(),
        _ => &[],
    }
}

/// The misfit at a position of the section of a function.
fn misfit_in(
    alloc: Global,
    of_module: &Module,
    function: &Function,
    site: CertSite,
) -> Result<Option<Misfit>, AllocError> {
    if site.first() == b"result".as_slice() {
        return Ok(misfit_of(of_module, site.word(), LocalSort::Value(function.returned)));
    }
    match local_named(alloc, function, subject_of(site))? {
        Some((_, sort)) => Ok(misfit_of(of_module, site.word(), sort)),
        None => Ok(None),
    }
}

/// What a fact is said of.
fn put_subject(out: &mut Message, site: CertSite) {
    if site.first() == b"result".as_slice() {
        return out.put("the result");
    }
    put_word(out, subject_of(site))
}

fn put_misfit(
    alloc: Global,
    out: &mut Message,
    of_module: &Module,
    site: CertSite,
    misfit: Misfit,
) {
    put_quoted(out, site.word());
    out.put(" does not fit ");
    put_subject(out, site);
    match misfit.written {
        Some(written) => {
            out.put(", which is ");
            put_type(alloc, out, of_module, written)
        }
        None => out.put(", which is an address"),
    }
}

/// A fact that does not fit the type of its value. Returns whether there is one.
fn put_if_misfit(
    alloc: Global,
    out: &mut Message,
    of_module: &Module,
    site: CertSite,
) -> Result<bool, AllocError> {
    let Some(function) = function_named(alloc, of_module, site.section())? else {
        return Ok(false);
    };
    let Some(misfit) = misfit_in(alloc, of_module, function, site)? else {
        return Ok(false);
    };
    put_misfit(alloc, out, of_module, site, misfit);
    Ok(true)
}

/// The number of the struct that a line of shapes names.
fn struct_named(
    alloc: Global,
    of_module: &Module,
    word: &[u8],
) -> Result<Option<usize>, AllocError> {
    let Some(name) = layout_name_in(alloc, word)? else {
        return Ok(None);
    };
    match of_module.struct_names.find(name.as_slice()) {
        Some(number) => match of_module.struct_of.get(number) {
            Some(Some(layout)) => Ok(Some(layout.number() as usize)),
            _ => Ok(None),
        },
        None => Ok(None),
    }
}

/// What the words of a struct say of one of this number that is not of type `ptr`.
fn put_fields(
    alloc: Global,
    out: &mut Message,
    of_module: &Module,
    number: usize,
    site: CertSite,
    fields: &[TypeId],
) {
    let field = match number_of_word(site.word()) {
        Some(word) => fields.get(word as usize),
        None => None,
    };
    out.put("word ");
    put_word(out, site.word());
    out.put(" of ");
    put_struct(out, of_module, number);
    match field {
        Some(field) => {
            out.put(" is ");
            put_type(alloc, out, of_module, *field);
            out.put(", and no `ptr`")
        }
        None => {
            out.put(" is not there: it has ");
            out.put_number(fields.len() as u64);
            out.put(" words")
        }
    }
}

/// A shape of a word that is not of type `ptr`. Returns whether it is one.
fn put_if_other_word(
    alloc: Global,
    out: &mut Message,
    of_module: &Module,
    site: CertSite,
) -> Result<bool, AllocError> {
    let Some(number) = struct_named(alloc, of_module, site.second())? else {
        return Ok(false);
    };
    let rows = field_rows(alloc, of_module)?;
    let told = match rows.get(number) {
        Some(fields) if !fields.is_empty() => {
            put_fields(alloc, out, of_module, number, site, fields.as_slice());
            true
        }
        _ => false,
    };
    drop(rows);
    Ok(told)
}

/// A shape of a global that is not of type `ptr`. Returns whether it is one.
fn put_if_other_global(
    alloc: Global,
    out: &mut Message,
    of_module: &Module,
    site: CertSite,
) -> Result<bool, AllocError> {
    let Some(name) = name_in(alloc, Sigil::Global, site.word())? else {
        return Ok(false);
    };
    if of_module.symbols.find(name.as_slice()).is_none() {
        return Ok(false);
    }
    put_word(out, site.word());
    out.put(" is no global of type `ptr`");
    Ok(true)
}

/// Whether a position is at the number of a word in a line of shapes.
fn is_at_word(site: CertSite) -> bool {
    site.first() == b"layout".as_slice()
        && site.before() == site.second()
        && number_of_word(site.word()).is_some()
}

/// What does not fit at a position, if that is known. Returns whether it is.
pub(crate) fn put_if_unfit(
    alloc: Global,
    out: &mut Message,
    of_module: &Module,
    site: CertSite,
) -> Result<bool, AllocError> {
    match (site.first(), site.before()) {
        (b"layout", _) if is_at_word(site) => put_if_other_word(alloc, out, of_module, site),
        (b"global", b"global") => put_if_other_global(alloc, out, of_module, site),
        (b"param" | b"result" | [b'%', ..], _) => put_if_misfit(alloc, out, of_module, site),
        _ => Ok(false),
    }
}

fn no_shapes(alloc: Global) -> Shapes {
    Shapes {
        words: Items::new(alloc),
        globals: Items::new(alloc),
        roots: Items::new(alloc),
    }
}

/// The fault Y1 or Y2 of a module of this text, if it has one.
pub(crate) fn struct_fault_of(
    alloc: Global,
    text: &[u8],
    wide: bool,
) -> Result<Option<LayoutFault>, AllocError> {
    let mut of_module = match read_in(alloc, text, wide) {
        Ok(of_module) => of_module,
        Err(ReadFault::Memory) => return Err(AllocError),
        Err(_) => return Ok(None),
    };
    of_module.shapes = Some(no_shapes(alloc));
    let laid_out = layouts(alloc, &of_module);
    drop(of_module);
    match laid_out {
        Ok(words) => {
            drop(words);
            Ok(None)
        }
        Err(LayoutFault::Memory) => Err(AllocError),
        Err(fault) => Ok(Some(fault)),
    }
}

/// Whether a position is at a shape of a struct that has no words, as one that holds itself.
pub(crate) fn is_of_no_words(
    alloc: Global,
    of_module: &Module,
    site: CertSite,
) -> Result<bool, AllocError> {
    if !is_at_word(site) {
        return Ok(false);
    }
    let Some(number) = struct_named(alloc, of_module, site.second())? else {
        return Ok(false);
    };
    let rows = field_rows(alloc, of_module)?;
    let is_empty = match rows.get(number) {
        Some(fields) => fields.is_empty(),
        None => false,
    };
    drop(rows);
    Ok(is_empty)
}
