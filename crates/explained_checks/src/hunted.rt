//! What is told of a hunt that found nothing, in a module that the check does not accept with the certificate: whether a schedule could
//! show why.
ghost use Rattle.std.specs.Prelude.{OnOk};
ghost use Rattle.reports.specs.Said.{GivesText};

use block_rules::{BlockFault, Refusal, Rule};
use ir_ast::Module;
use messages::Message;
use module_check::{UnderCheck, fault_in_module};
use name_text::Blank;
use reports::{Certified, Files, read_certified};
use std::alloc::Global;
use std::io;
use std::io::Write;

/// Whether a schedule could show that this rule is broken. A mark is of the certificate alone, and no run looks at an object.
fn text_of(rule: Rule) -> &'static str {
    match rule {
        Rule::K7 =>
            ": no run looks at the object that a barrier names, so no schedule shows that\n",
        Rule::K17 =>
            ": the mark is of the certificate alone, and no schedule shows that; mend it, and check again\n",
        _ => ": none of these schedules shows that\n",
    }
}

/// Which rule is broken, in which function, and whether a schedule could show that.
fn put_refused(out: &mut Message, of_module: &Module, refusal: Refusal) {
    out.put("`dgc check` refuses ");
    if let Some(function) = of_module.functions.get(refusal.func.number() as usize) {
        out.put_global(of_module, function.symbol, Blank::Kept);
    }
    out.put(" with this certificate by ");
    out.put(refusal.rule.name());
    out.put(text_of(refusal.rule))
}

/// What is told of a module with its certificate, if it is not accepted.
fn put_certified(alloc: Global, out: &mut Message, certified: Certified) {
    match UnderCheck::new(alloc, certified.of_module, certified.certs) {
        Ok(under) => {
            match fault_in_module(alloc, under.program(), under.certs()) {
                Some(BlockFault::Refused(refusal)) => {
                    put_refused(out, under.program().module(), refusal)
                }
                Some(BlockFault::Memory) => out.refuse(),
                None => {}
            }
            drop(under);
        }
        Err(refused) => drop(refused),
    }
}

/// Tells of a hunt that found nothing, where a certificate is given.
pub fn explain_hunt(alloc: Global, files: &Files<'_>, err: &mut Vec<u8>) -> io::Result<()>
    ensures { OnOk result (GivesText err.old.items err.new.items) }
{
    if files.certificate.is_none() {
        return Ok(());
    }
    let mut out = Message::new(alloc);
    match read_certified(alloc, files) {
        Ok(certified) => put_certified(alloc, &mut out, certified),
        Err(unread) => drop(unread),
    }
    match out.finish() {
        Ok(text) => err.write_all(text.as_slice()),
        Err(_) => writeln!(err, "no memory to explain it"),
    }
}
