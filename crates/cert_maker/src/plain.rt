//! The plain certificates of a module: they say the least.
ghost use Rattle.std.specs.Prelude.{◌≡◌, [], None, map, true, IfOk};
ghost use Rattle.certs.specs.Fits.{fits};
ghost use Rattle.certs.specs.Plain.{plain, plain_section};

use certs::{Certs, Claim, Mark, Promise, Section};
use ir_ast::{Block, Function, Module, Outside, Parameter};
use items::Items;
use std::alloc::{AllocError, Global};

/// Certificates that mark each function `may`, promise nothing and list nothing.
pub fn plain(alloc: Global, of_module: &Module) -> Result<Certs, AllocError>
    ensures plain { IfOk result (λ certs. certs.sections ≡ plain of_module.now) }
    ensures fits { fits of_module.now (plain of_module.now) ≡ true }
{
    let sections = plain_sections(alloc, of_module.functions.as_slice())?;
    Ok(Certs {
        sections,
        shapes: None,
        foreign: Outside::none(alloc),
    })
}

fn plain_sections(alloc: Global, functions: &[Function]) -> Result<Items<Section>, AllocError>
    ensures { IfOk result (λ sections. sections ≡ map plain_section functions.now) }
{
    let mut sections = Items::new(alloc);
    for function in functions {
        let section = plain_section(alloc, function)?;
        sections.push(section)?;
    }
    Ok(sections)
}

fn plain_section(alloc: Global, function: &Function) -> Result<Section, AllocError>
    ensures { IfOk result (λ section. section ≡ plain_section function.now) }
{
    let parameters = no_promises(alloc, function.parameters.as_slice())?;
    let blocks = no_claims(alloc, function.blocks.as_slice())?;
    Ok(Section {
        mark: Mark::May,
        parameters,
        result: None,
        blocks,
    })
}

fn no_promises(
    alloc: Global,
    parameters: &[Parameter],
) -> Result<Items<Option<Promise>>, AllocError>
    ensures { IfOk result (λ promises. promises ≡ map (λ _. None) parameters.now) }
{
    one_for_each(alloc, parameters, None)
}

/// The same element for each parameter.
fn one_for_each<T: Copy + Drop>(
    alloc: Global,
    parameters: &[Parameter],
    element: T,
) -> Result<Items<T>, AllocError>
    ensures { IfOk result (λ elements. elements ≡ map (λ _. element) parameters.now) }
{
    let mut elements = Items::new(alloc);
    for _parameter in parameters {
        elements.push(element)?;
    }
    Ok(elements)
}

fn no_claims(alloc: Global, blocks: &[Block]) -> Result<Items<Items<Claim>>, AllocError>
    ensures { IfOk result (λ claims. claims ≡ map (λ _. []) blocks.now) }
{
    let mut claims = Items::new(alloc);
    for _block in blocks {
        claims.push(Items::new(alloc))?;
    }
    Ok(claims)
}
