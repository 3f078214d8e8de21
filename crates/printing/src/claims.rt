//! What is known of values, as lines of a certificate.
use crate::told::Told;
use certificate::print_line;
use certs::{Certs, Claim, Fact};
use diagnosis::{Diagnosis, claims_as_certs};
use ir_ast::{BlockId, ValueId};
use items::Items;
use messages::{Message, Part, put_mark};
use std::alloc::AllocError;

/// A claim of a function's certificate at this place of a block.
pub(crate) fn put_claim_at(
    out: &mut Message,
    told: &Told,
    certs: &Certs,
    block: BlockId,
    place: usize,
) {
    match print_line(
        told.texts.pen.alloc,
        certs,
        told.module(),
        told.holes.func,
        block,
        place,
    ) {
        Ok(line) => out.put_bytes(line.as_slice()),
        Err(_) => out.refuse(),
    }
}

/// Certificates in which the first block of the function has these claims.
fn certs_of(told: &Told, claims: &[Claim]) -> Result<Certs, AllocError> {
    let alloc = told.texts.pen.alloc;
    claims_as_certs(alloc, told.holes.func, Items::from_slice(alloc, claims)?)
}

/// A claim of a value as a line of a certificate, without the line's end.
pub(crate) fn put_claim(out: &mut Message, told: &Told, value: ValueId, fact: Fact) {
    match certs_of(told, &[Claim::Value { value, fact }]) {
        Ok(certs) => {
            put_claim_at(out, told, &certs, BlockId::new(0), 0);
            drop(certs)
        }
        Err(_) => out.refuse(),
    }
}

fn put_lines(out: &mut Message, told: &Told, certs: &Certs, count: usize) {
    for place in 0..count {
        if place == 0 {
            put_mark(out, told.texts.pen.look, Part::Known)
        } else {
            out.put("         ")
        }
        put_claim_at(out, told, certs, BlockId::new(0), place);
        out.put("\n");
    }
}

/// What is known before the refused instruction, a line for each claim.
pub(crate) fn put_known(out: &mut Message, told: &Told, diagnosis: &Diagnosis) {
    let known = diagnosis.known.as_slice();
    if known.is_empty() {
        return;
    }
    match certs_of(told, known) {
        Ok(certs) => {
            put_lines(out, told, &certs, known.len());
            drop(certs)
        }
        Err(_) => out.refuse(),
    }
}
