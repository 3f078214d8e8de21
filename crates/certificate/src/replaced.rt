//! Certificates in which one section is replaced.
ghost use Rattle.std.specs.Prelude.{◌≡◌, ◌≢◌, ◌<◌, length, IfOk, IfErr, Ok, Err, true};
ghost use Rattle.certs.specs.Fits.{fits};
ghost use Rattle.certs.specs.declared.section.Section.{Section as ASection};
ghost use Rattle.certificate.specs.Anew.{IsSectionFault};
ghost use Rattle.certificate.specs.Replaced.{IsReplaced, FitOthers};
ghost use Rattle.certificate.specs.declared.fault.CertFault.{CertFault as AFault};
ghost use Rattle.certificate.specs.declared.fault.CertFault.TheVariants as fault;
ghost use Rattle.grammar.specs.Outcome.{Gives};
ghost use Rattle.std.specs.Prelude.{List};

use crate::anew::read_section;
use crate::fault::CertFault;
use certs::{Certs, Claim, Section};
use copies::{copy_outside, copy_shapes};
use ir_ast::{FuncId, Module};
use items::Items;
use std::alloc::{AllocError, Global};

pub(crate) fn copied_blocks(
    alloc: Global,
    blocks: &[Items<Claim>],
) -> Result<Items<Items<Claim>>, AllocError>
    ensures { IfOk result (λ copies. copies ≡ blocks.now) }
{
    let mut copies = Items::new(alloc);
    for lines in blocks {
        copies.push(Items::from_slice(alloc, lines.as_slice())?)?;
    }
    Ok(copies)
}

pub(crate) fn copied_section(alloc: Global, section: &Section) -> Result<Section, AllocError>
    ensures { IfOk result (λ copy. copy ≡ section.now) }
{
    let parameters = Items::from_slice(alloc, section.parameters.as_slice())?;
    let blocks = copied_blocks(alloc, section.blocks.as_slice())?;
    Ok(Section {
        mark: section.mark,
        parameters,
        result: section.result,
        blocks,
    })
}

fn copied_sections(alloc: Global, sections: &[Section]) -> Result<Items<Section>, AllocError>
    ensures { IfOk result (λ copies. copies ≡ sections.now) }
{
    let mut copies = Items::new(alloc);
    for section in sections {
        copies.push(copied_section(alloc, section)?)?;
    }
    Ok(copies)
}

pub(crate) fn copied_certs(alloc: Global, certs: &Certs) -> Result<Certs, AllocError>
    ensures { IfOk result (λ copy. copy ≡ certs.now) }
{
    let sections = copied_sections(alloc, certs.sections.as_slice())?;
    let shapes = copy_shapes(alloc, &certs.shapes)?;
    let foreign = copy_outside(alloc, &certs.foreign)?;
    Ok(Certs {
        sections,
        shapes,
        foreign,
    })
}

/// Certificates of a module in which the section of one function is the one of this text. All else is copied.
pub fn replace_section(
    alloc: Global,
    certs: &Certs,
    module: &Module,
    function: FuncId,
    bytes: &[u8],
) -> Result<Certs, CertFault>
    requires { function < length certs.now.sections }
    // The text is a section, which stands in the old one's place.
    ensures found { IfOk result (λ new. IsReplaced bytes.now «module».now function certs.now.sections new.sections) }
    // They are certificates of the module where all other sections are.
    ensures fits { FitOthers «module».now function certs.now.sections → IfOk result (λ new. fits «module».now new.sections ≡ true) }
    // What is a text of some section is read, unless memory runs out.
    ensures only { (new : List ASection) → IsReplaced bytes.now «module».now function certs.now.sections new → Gives fault.Memory result (Ok (record { sections = new; shapes = certs.now.shapes; foreign = certs.now.foreign })) }
    // What is refused is refused for its first fault.
    ensures fault { IfErr result (λ e. e ≢ fault.Memory → IsSectionFault bytes.now «module».now function e) }
    // What has a first fault is refused for it, unless memory runs out.
    ensures only_fault { (e : AFault) → IsSectionFault bytes.now «module».now function e → Gives fault.Memory result (Err e) }
{
    let section = match read_section(alloc, bytes, module, function) {
        Ok(section) => section,
        Err(fault) => return Err(fault),
    };
    let mut new = match copied_certs(alloc, certs) {
        Ok(copy) => copy,
        Err(_) => return Err(CertFault::Memory),
    };
    new.sections.set(function.number() as usize, section);
    Ok(new)
}
