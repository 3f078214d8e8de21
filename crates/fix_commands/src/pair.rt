//! The two texts while they are mended.
ghost use Rattle.std.specs.Prelude.{◌≡◌, Some, IfOk};
ghost use Rattle.reports.specs.Files as spec;
ghost use Rattle.reports.specs.Files.{file_of, is_wide};

use fixes::changed_text;
use messages::{Change, ChangedFile};
use reports::{File, Files, ModuleFile};
use std::alloc::{AllocError, Global};

/// The texts of a module and of its certificate.
#[derive(Drop)]
pub(crate) struct Pair {
    pub of_module: Vec<u8>,
    pub certificate: Vec<u8>,
}

/// These texts as the files of a check.
pub(crate) fn files_of<'a>(of_module: &'a [u8], certificate: &'a [u8], wide: bool) -> Files<'a>
    ensures of_module { spec.bytes_of (file_of result.of_module) ≡ Some of_module.entry.now }
    ensures wide { is_wide result.of_module ≡ wide }
    ensures certificate { spec.bytes_of result.certificate ≡ Some certificate.entry.now }
{
    let file = File {
        path: "",
        bytes: Some(of_module),
    };
    Files {
        of_module: Some(ModuleFile {
            file,
            wide,
            keeps: false,
        }),
        certificate: Some(File {
            path: "",
            bytes: Some(certificate),
        }),
        shapes: None,
        trace: None,
        edits: None,
        of_record: None,
        saves: false,
    }
}

/// Copies of two texts.
pub(crate) fn copied(
    alloc: Global,
    of_module: &[u8],
    certificate: &[u8],
) -> Result<Pair, AllocError>
    ensures of_module { IfOk result (λ pair. pair.of_module.items ≡ of_module.now) }
    ensures certificate { IfOk result (λ pair. pair.certificate.items ≡ certificate.now) }
{
    let of_module = Vec::from_slice(alloc, of_module)?;
    let certificate = Vec::from_slice(alloc, certificate)?;
    Ok(Pair {
        of_module,
        certificate,
    })
}

impl Pair {
    /// The text of one of the files.
    pub(crate) fn text_of(&self, file: ChangedFile) -> &[u8] {
        match file {
            ChangedFile::Module => self.of_module.as_slice(),
            ChangedFile::Certificate => self.certificate.as_slice(),
        }
    }
}

/// The texts with a change.
fn with_change(alloc: Global, pair: Pair, change: &Change) -> Result<Pair, AllocError> {
    let Pair {
        of_module,
        certificate,
    } = pair;
    match change.file {
        ChangedFile::Module => Ok(Pair {
            of_module: changed_text(alloc, of_module.as_slice(), change)?,
            certificate,
        }),
        ChangedFile::Certificate => Ok(Pair {
            certificate: changed_text(alloc, certificate.as_slice(), change)?,
            of_module,
        }),
    }
}

/// The texts with some changes, which are made together and are in the order of the text: the last one is made first.
pub(crate) fn with_changes(
    alloc: Global,
    pair: &Pair,
    changes: &[Change],
) -> Result<Pair, AllocError> {
    let mut mended = copied(
        alloc,
        pair.of_module.as_slice(),
        pair.certificate.as_slice(),
    )?;
    for change in changes.iter().rev() {
        mended = with_change(alloc, mended, change)?;
    }
    Ok(mended)
}
