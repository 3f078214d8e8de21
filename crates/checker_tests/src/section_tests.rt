//! Certificates in which one section is replaced.
use crate::faults::{Told, told_of_certificate};
use crate::fronts::{Front, Fronts, NONE, Reader, cut_certificates, fronts_of};
use crate::texts::{FOUR, HEAD, TWO, joined};
use certificate::{CertFault, Certs, print_cert, read_cert, replace_section};
use ir_ast::{FuncId, Module};
use ir_text::read;
use std::alloc::{AllocError, Global};

/// Certificates of `TWO` and `FOUR`.
const CERTIFICATES: &str =
    "cert 1\nfunction @two none\nblock %no\nblock %ok\n%x ref Node nonnull fresh\nend\nfunction @four may\nblock %no\nblock %ok\n%x ref Node nonnull fresh\nend\n";

/// Another section of `FOUR`.
const SECTION: &str =
    "function @four none\nblock %no\n%x ref Node\nblock %ok\n%x ref Node nonnull\nend\n";

/// The certificates with this section in the place of the old one.
const REPLACED: &str =
    "cert 1\nfunction @two none\nblock %no\nblock %ok\n%x ref Node nonnull fresh\nend\nfunction @four none\nblock %no\n%x ref Node\nblock %ok\n%x ref Node nonnull\nend\n";

/// What comes of a section that is to replace the one of `FOUR`.
#[derive(Drop)]
enum SectionOutcome {
    /// All certificates, as they are printed then.
    Printed(Vec<u8>),
    Refused(CertFault),
    /// The module or its certificates are not read.
    NotRead,
}

/// The number of the function `@four`.
const NUMBER: u32 = 1;

fn printed_with(
    alloc: Global,
    certs: &Certs,
    module: &Module,
    section: &[u8],
) -> Result<SectionOutcome, AllocError> {
    if certs.sections.as_slice().len() != 2 {
        return Ok(SectionOutcome::NotRead);
    }
    match replace_section(alloc, certs, module, FuncId::new(NUMBER), section) {
        Ok(certs) => {
            let printed = print_cert(alloc, &certs, module);
            drop(certs);
            Ok(SectionOutcome::Printed(printed?))
        }
        Err(fault) => Ok(SectionOutcome::Refused(fault)),
    }
}

fn outcome_in(
    alloc: Global,
    module: &Module,
    section: &[u8],
) -> Result<SectionOutcome, AllocError> {
    match read_cert(alloc, CERTIFICATES.as_bytes(), module) {
        Ok(certs) => {
            let outcome = printed_with(alloc, &certs, module, section);
            drop(certs);
            outcome
        }
        Err(_) => Ok(SectionOutcome::NotRead),
    }
}

fn outcome_of(alloc: Global, section: &[u8]) -> Result<SectionOutcome, AllocError> {
    let text = joined(alloc, [HEAD, TWO, FOUR].as_slice())?;
    match read(alloc, text.as_slice()) {
        Ok(module) => {
            let outcome = outcome_in(alloc, &module, section);
            drop(module);
            outcome
        }
        Err(_) => Ok(SectionOutcome::NotRead),
    }
}

fn is_printed(alloc: Global, section: &str, wanted: &str) -> Result<bool, AllocError> {
    match outcome_of(alloc, section.as_bytes())? {
        SectionOutcome::Printed(text) => Ok(text.as_slice() == wanted.as_bytes()),
        _ => Ok(false),
    }
}

/// The section with comments, an empty line and a name in quotes, and without its last line end.
const SECTION_WITH_COMMENTS: &str =
    " ; before\n\nfunction @\"four\" none ; names\nblock %no\n%x ref Node\nblock %ok\n%x ref Node nonnull\nend";

/// Whether both texts of the section are put in the place of the old one.
fn are_printed(alloc: Global) -> Result<(bool, bool), AllocError> {
    Ok((
        is_printed(alloc, SECTION, REPLACED)?,
        is_printed(alloc, SECTION_WITH_COMMENTS, REPLACED)?,
    ))
}

#[test]
fn replaces_the_section_of_this_name(rt: HostRuntime) -> Result<(), AllocError> {
    assert_eq!(rt; are_printed(rt.alloc())?, (true, true));
    Ok(())
}

/// Whether a section is refused for this fault.
fn is_refused(alloc: Global, section: &str, wanted: Told) -> Result<bool, AllocError> {
    match outcome_of(alloc, section.as_bytes())? {
        SectionOutcome::Refused(fault) => Ok(told_of_certificate(fault) == wanted),
        SectionOutcome::Printed(_) | SectionOutcome::NotRead => Ok(false),
    }
}

/// Sections of another function, of one that is unknown, and of what is no name; a section before another one, one with two ends, and
/// one after the first line of certificates; a section of a block that is unknown, one without the last block, and one of a block
/// twice. Each has its fault.
const REFUSED: [(&str, Told); 9] = [
    (
        "function @two none\nblock %no\nblock %ok\nend\n",
        ("C1", 1, 10),
    ),
    ("\nfunction @five none\nend\n", ("C1", 2, 10)),
    (
        "function four none\nblock %no\nblock %ok\nend\n",
        ("C1", 1, 10),
    ),
    (
        "function @four may\nblock %no\nblock %ok\nend\nfunction @two none\nblock %no\nblock %ok\nend\n",
        ("C1", 5, 1),
    ),
    ("function @four may\nblock %no\nend\nend\n", ("C1", 4, 1)),
    (
        "cert 1\nfunction @four may\nblock %no\nblock %ok\nend\n",
        ("C1", 1, 1),
    ),
    (
        "function @four may\nblock %no\nblock %yes\nend\n",
        ("C3", 3, 7),
    ),
    ("function @four may\nblock %no\nend\n", ("C5", 1, 2)),
    (
        "function @four may\nblock %no\nblock %no\nblock %ok\nend\n",
        ("C4", 3, 7),
    ),
];

/// How many of these sections are refused for the fault beside them.
fn refused(alloc: Global) -> Result<u32, AllocError> {
    let mut refused = 0u32;
    for (section, wanted) in REFUSED {
        if is_refused(alloc, section, wanted)? {
            refused = refused.saturating_add(1);
        }
    }
    Ok(refused)
}

#[test]
fn refuses_what_is_not_the_section(rt: HostRuntime) -> Result<(), AllocError> {
    assert_eq!(rt; refused(rt.alloc())?, 9);
    Ok(())
}

/// Reads sections of `FOUR`. Their parts are all sections once it is replaced.
#[derive(Drop)]
struct Sections<'a> {
    alloc: Global,
    certs: &'a Certs,
    of_module: &'a Module,
}

impl<'a> Reader for Sections<'a> {
    fn front(&self, text: &[u8]) -> Front {
        if self.certs.sections.as_slice().len() != 2 {
            return Front::Other;
        }
        let function = FuncId::new(NUMBER);
        match replace_section(self.alloc, self.certs, self.of_module, function, text) {
            Ok(certs) => {
                let sections = certs.sections.as_slice().len();
                drop(certs);
                Front::Read(sections)
            }
            Err(fault) => cut_certificates(fault),
        }
    }
}

/// The fronts of a section of `FOUR` in a module.
fn fronts_in(alloc: Global, of_module: &Module, section: &str) -> Fronts {
    match read_cert(alloc, CERTIFICATES.as_bytes(), of_module) {
        Ok(certs) => {
            let reader = Sections {
                alloc,
                certs: &certs,
                of_module,
            };
            let fronts = fronts_of(&reader, section.as_bytes());
            drop(certs);
            fronts
        }
        Err(_) => NONE,
    }
}

/// The fronts of a section of `FOUR`.
fn section_fronts(alloc: Global, section: &str) -> Result<Fronts, AllocError> {
    let text = joined(alloc, [HEAD, TWO, FOUR].as_slice())?;
    match read(alloc, text.as_slice()) {
        Ok(of_module) => {
            let fronts = fronts_in(alloc, &of_module, section);
            drop(of_module);
            Ok(fronts)
        }
        Err(_) => Ok(NONE),
    }
}

// Without its last line end it is whole.
#[test]
fn refuses_each_front_of_a_section(rt: HostRuntime) -> Result<(), AllocError> {
    let fronts = section_fronts(rt.alloc(), SECTION)?;
    assert_eq!(rt; fronts, ([0, 0, 1, 0, 0, 0, 0, 0, 0], 75, 0));
    Ok(())
}
