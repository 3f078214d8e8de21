//! Which fixes may be tried where a check of two texts ends.
use crate::makers::{MadeText, made_beside, made_text};
use crate::pair::Pair;
use crate::reached::refusal_of;
use crate::trial::Trial;
use block_rules::{Refusal, Rule};
use certificate::CertFault;
use certs::Certs;
use fixes::{
    barrier_changes, missing_declare, offset_of, section_change, section_name, whole_change,
};
use ir_ast::Module;
use ir_text::ReadFault;
use messages::{Change, Message, Pen};
use module_check::{NotAccepted, Reason, UnderCheck};
use name_text::Blank;
use std::alloc::{AllocError, Global};

/// Fixes that may be tried. The ones of a list are made together. A list is empty where there are none.
#[derive(Drop)]
pub(crate) struct Offers {
    /// The section of the function, as a certificate has it that is made.
    pub section: Vec<Change>,
    /// A certificate that is made and with which the module is accepted.
    pub whole: Vec<Change>,
    /// Of the module.
    pub code: Vec<Change>,
}

/// No fixes of the certificate, and these of the module.
fn of_code(alloc: Global, code: Vec<Change>) -> Offers {
    Offers {
        section: Vec::new(alloc),
        whole: Vec::new(alloc),
        code,
    }
}

/// A list of one change, or of none.
fn listed(alloc: Global, change: Option<Change>) -> Result<Vec<Change>, AllocError> {
    let mut list = Vec::new(alloc);
    if let Some(change) = change {
        list.push(change)?;
    }
    Ok(list)
}

/// The declaration of a function of the runtime that the module names and does not declare.
fn declares(alloc: Global, pair: &Pair, fault: &ReadFault) -> Result<Vec<Change>, AllocError> {
    let ReadFault::NotDefined(position) = fault else {
        return Ok(Vec::new(alloc));
    };
    let text = pair.of_module.as_slice();
    let change = missing_declare(alloc, text, offset_of(text, *position))?;
    listed(alloc, change)
}

/// The name of a function, with its sign.
fn name_of(alloc: Global, of_module: &Module, number: usize) -> Result<Vec<u8>, AllocError> {
    let mut out = Message::new(alloc);
    if let Some(function) = of_module.functions.get(number) {
        out.put_global(of_module, function.symbol, Blank::Kept);
    }
    out.finish()
}

/// Copied, since what it is of may go.
fn owned(alloc: Global, name: &[u8]) -> Result<Vec<u8>, AllocError> {
    Vec::from_slice(alloc, name)
}

/// The name of the function whose section a fault of the certificate is about; empty where it is about none.
fn name_at_fault(
    alloc: Global,
    pair: &Pair,
    of_module: &Module,
    fault: CertFault,
) -> Result<Vec<u8>, AllocError> {
    let text = pair.certificate.as_slice();
    match fault {
        CertFault::Syntax(position)
        | CertFault::UnknownName(position)
        | CertFault::ListedTwice(position) => {
            owned(alloc, section_name(text, offset_of(text, position)))
        }
        CertFault::Missing(function) | CertFault::MissingBlock(function, _) => {
            name_of(alloc, of_module, function)
        }
        _ => Ok(Vec::new(alloc)),
    }
}

/// The section of the function of this name, as a certificate has it that was made.
fn sections(
    alloc: Global,
    pair: &Pair,
    name: &[u8],
    made: &MadeText,
) -> Result<Vec<Change>, AllocError> {
    if name.is_empty() {
        return Ok(Vec::new(alloc));
    }
    let change = section_change(
        alloc,
        pair.certificate.as_slice(),
        made.text.as_slice(),
        name,
    )?;
    listed(alloc, change)
}

/// The whole of a certificate that was made, if the module is accepted with it. With the wide forms it may trust functions that nobody
/// named, so there it is not offered.
fn wholes(
    alloc: Global,
    wide: bool,
    pair: &Pair,
    made: &MadeText,
) -> Result<Vec<Change>, AllocError> {
    if wide || !made.accepted {
        return Ok(Vec::new(alloc));
    }
    let change = whole_change(alloc, pair.certificate.as_slice(), made.text.as_slice())?;
    listed(alloc, Some(change))
}

/// The fixes by a certificate that was made, and these of the module.
fn by_made_text(
    alloc: Global,
    wide: bool,
    pair: &Pair,
    name: &[u8],
    made: &MadeText,
    code: Vec<Change>,
) -> Result<Offers, AllocError> {
    let section = sections(alloc, pair, name, made)?;
    let whole = wholes(alloc, wide, pair, made)?;
    Ok(Offers {
        section,
        whole,
        code,
    })
}

/// The same, if one was made.
fn by_made(
    alloc: Global,
    wide: bool,
    pair: &Pair,
    name: &[u8],
    made: Option<MadeText>,
    code: Vec<Change>,
) -> Result<Offers, AllocError> {
    match made {
        Some(made) => {
            let offers = by_made_text(alloc, wide, pair, name, &made, code);
            drop(made);
            offers
        }
        None => Ok(of_code(alloc, code)),
    }
}

/// The fixes of a certificate that is not read.
fn of_fault(
    alloc: Global,
    wide: bool,
    pair: &Pair,
    of_module: Module,
    fault: CertFault,
) -> Result<Offers, AllocError> {
    let name = match name_at_fault(alloc, pair, &of_module, fault) {
        Ok(name) => name,
        Err(refused) => {
            drop(of_module);
            return Err(refused);
        }
    };
    let made = made_beside(alloc, of_module, pair.certificate.as_slice())?;
    by_made(alloc, wide, pair, name.as_slice(), made, Vec::new(alloc))
}

/// The fixes of a refused store, if the refusal is one.
fn barriers(
    pen: Pen,
    pair: &Pair,
    under: &UnderCheck,
    refusal: Refusal,
) -> Result<Vec<Change>, AllocError> {
    if !matches!(refusal.rule, Rule::K6) {
        return Ok(Vec::new(pen.alloc));
    }
    barrier_changes(
        pen,
        pair.of_module.as_slice(),
        under.program(),
        under.certs(),
        refusal,
    )
}

/// A module that is refused with its certificates, and the fixes of its text.
#[derive(Drop)]
struct Mended {
    refused: NotAccepted,
    code: Vec<Change>,
}

/// The fixes of the text of a module under check, which is given back as one that is refused so.
fn code_under(
    pen: Pen,
    pair: &Pair,
    under: UnderCheck,
    verdict: Reason,
    refusal: Refusal,
) -> Result<Mended, AllocError> {
    let code = barriers(pen, pair, &under, refusal);
    with_code(under.refused(verdict), code)
}

/// The fixes of the text of a refused module, which is given back.
fn code_of(
    pen: Pen,
    pair: &Pair,
    refused: NotAccepted,
    refusal: Refusal,
) -> Result<Mended, AllocError> {
    match UnderCheck::new(pen.alloc, refused.of_module, refused.certs) {
        Ok(under) => code_under(pen, pair, under, refused.verdict, refusal),
        Err(unlaid) => with_code(unlaid, Ok(Vec::new(pen.alloc))),
    }
}

fn with_code(
    refused: NotAccepted,
    code: Result<Vec<Change>, AllocError>,
) -> Result<Mended, AllocError> {
    match code {
        Ok(code) => Ok(Mended { refused, code }),
        Err(error) => {
            drop(refused);
            Err(error)
        }
    }
}

/// Certificates that are made of a module that was refused with others, with the shapes and the numbers of these.
fn made_anew(alloc: Global, refused: NotAccepted) -> Result<Option<MadeText>, AllocError> {
    let NotAccepted {
        of_module,
        certs,
        ..
    } = refused;
    let Certs {
        sections,
        shapes,
        foreign,
    } = certs;
    drop(sections);
    let mut of_module = of_module;
    of_module.trusted = foreign;
    made_text(alloc, of_module, shapes)
}

/// The fixes of a refused instruction of the function of this name.
fn of_refusal(
    pen: Pen,
    wide: bool,
    pair: &Pair,
    refused: NotAccepted,
    refusal: Refusal,
    name: &[u8],
) -> Result<Offers, AllocError> {
    let Mended { refused, code } = code_of(pen, pair, refused, refusal)?;
    match made_anew(pen.alloc, refused) {
        Ok(made) => by_made(pen.alloc, wide, pair, name, made, code),
        Err(error) => {
            drop(code);
            Err(error)
        }
    }
}

/// The name of a function of a refused module, with its sign.
fn name_in(alloc: Global, refused: &NotAccepted, number: usize) -> Result<Vec<u8>, AllocError> {
    name_of(alloc, &refused.of_module, number)
}

/// The fixes of a module that is not accepted.
fn of_not_accepted(
    pen: Pen,
    wide: bool,
    pair: &Pair,
    refused: NotAccepted,
) -> Result<Offers, AllocError> {
    let Some(refusal) = refusal_of(&refused) else {
        drop(refused);
        return Ok(of_code(pen.alloc, Vec::new(pen.alloc)));
    };
    match name_in(pen.alloc, &refused, refusal.func.number() as usize) {
        Ok(name) => of_refusal(pen, wide, pair, refused, refusal, name.as_slice()),
        Err(error) => {
            drop(refused);
            Err(error)
        }
    }
}

/// The fixes that may be tried where a check of these texts ends.
pub(crate) fn offers_of(
    pen: Pen,
    wide: bool,
    pair: &Pair,
    trial: Trial,
) -> Result<Offers, AllocError> {
    match trial {
        Trial::Accepted => Ok(of_code(pen.alloc, Vec::new(pen.alloc))),
        Trial::NoModule(fault) => {
            let code = declares(pen.alloc, pair, &fault);
            drop(fault);
            Ok(of_code(pen.alloc, code?))
        }
        Trial::NoCertificate(of_module, fault) => of_fault(pen.alloc, wide, pair, of_module, fault),
        Trial::NotAccepted(refused) => of_not_accepted(pen, wide, pair, refused),
    }
}
