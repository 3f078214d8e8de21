//! The texts of a call, as the files of a command.
ghost use Rattle.library_answers.specs.Texts.{AreTexts, AreShapedTexts, IsShapesFile};

use reports::{File, Files, ModuleFile};

/// A module and a certificate.
pub(crate) fn texts_of_check<'a>(wide: bool, of_module: &'a [u8], cert: &'a [u8]) -> Files<'a>
    ensures { AreTexts wide of_module.now cert.now result }
{
    Files {
        of_module: Some(ModuleFile {
            file: File {
                path: "module",
                bytes: Some(of_module),
            },
            wide,
            keeps: false,
        }),
        certificate: Some(File {
            path: "certificate",
            bytes: Some(cert),
        }),
        shapes: None,
        trace: None,
        edits: None,
        of_record: None,
        saves: false,
    }
}

/// The shapes of a module, if there are any.
fn shapes_of<'a>(shapes: &'a [u8]) -> Option<File<'a>>
    ensures { IsShapesFile shapes.now result }
{
    if shapes.is_empty() {
        None
    } else {
        Some(File {
            path: "shapes",
            bytes: Some(shapes),
        })
    }
}

/// A module and its shapes, which are not given where they are empty.
pub(crate) fn texts_of_make<'a>(wide: bool, of_module: &'a [u8], shapes: &'a [u8]) -> Files<'a>
    ensures { AreShapedTexts wide of_module.now shapes.now result }
{
    Files {
        of_module: Some(ModuleFile {
            file: File {
                path: "module",
                bytes: Some(of_module),
            },
            wide,
            keeps: false,
        }),
        certificate: None,
        shapes: shapes_of(shapes),
        trace: None,
        edits: None,
        of_record: None,
        saves: false,
    }
}
