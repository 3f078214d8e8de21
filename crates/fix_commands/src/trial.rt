//! What a check says of two texts.
use crate::pair::{Pair, files_of};
use certificate::CertFault;
use ir_ast::Module;
use ir_text::ReadFault;
use module_check::{NotAccepted, Reason, check};
use reports::{Certified, Unread, read_certified};
use std::alloc::{AllocError, Global};

/// What a check says of two texts.
#[derive(Drop)]
pub(crate) enum Trial {
    Accepted,
    /// The module is refused, or has no layouts.
    NotAccepted(NotAccepted),
    NoCertificate(Module, CertFault),
    NoModule(ReadFault),
}

/// What is said of texts that are not read.
fn not_read(unread: Unread<'_>) -> Result<Trial, AllocError> {
    match unread {
        Unread::NoModule(ReadFault::Memory) => Err(AllocError),
        Unread::NoModule(fault) => Ok(Trial::NoModule(fault)),
        Unread::NoCertificate(of_module, CertFault::Memory) => {
            drop(of_module);
            Err(AllocError)
        }
        Unread::NoCertificate(of_module, fault) => Ok(Trial::NoCertificate(of_module, fault)),
        other => {
            drop(other);
            Err(AllocError)
        }
    }
}

/// What is said of a module and its certificates.
fn checked(alloc: Global, certified: Certified) -> Result<Trial, AllocError> {
    let Certified { of_module, certs } = certified;
    match check(alloc, of_module, certs) {
        Ok(accepted) => {
            drop(accepted);
            Ok(Trial::Accepted)
        }
        Err(refused) => {
            if matches!(refused.verdict, Reason::Memory) {
                drop(refused);
                return Err(AllocError);
            }
            Ok(Trial::NotAccepted(refused))
        }
    }
}

/// Checks two texts.
pub(crate) fn trial_of(alloc: Global, wide: bool, pair: &Pair) -> Result<Trial, AllocError> {
    let files = files_of(pair.of_module.as_slice(), pair.certificate.as_slice(), wide);
    match read_certified(alloc, &files) {
        Ok(certified) => checked(alloc, certified),
        Err(unread) => not_read(unread),
    }
}
