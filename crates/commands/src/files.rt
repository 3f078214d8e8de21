//! The files of a command, as they were read.
use crate::no_file::NoFile;
use command_line::Command;
use reports::{File, Files, ModuleFile};

/// The bytes of the files of a command, by what each file is. None is a file that cannot be read, or is not given.
#[derive(Drop)]
pub struct Contents {
    pub of_module: Option<Vec<u8>>,
    pub certificate: Option<Vec<u8>>,
    pub shapes: Option<Vec<u8>>,
    pub trace: Option<Vec<u8>>,
    pub edits: Option<Vec<u8>>,
    pub of_record: Option<Vec<u8>>,
    /// A list of pairs.
    pub list: Option<Vec<u8>>,
    /// Why the first one that cannot be read is not, if that is known.
    pub why: Option<NoFile>,
}

/// A file that is given, with what was read of it.
fn file_of<'a>(path: Option<&'a str>, bytes: &'a Option<Vec<u8>>) -> Option<File<'a>> {
    let path = path?;
    let bytes = match bytes {
        Some(bytes) => Some(bytes.as_slice()),
        None => None,
    };
    Some(File { path, bytes })
}

/// The file of a module that is given, in whose text the wide forms may stand or not.
fn module_file_of<'a>(
    path: Option<&'a str>,
    bytes: &'a Option<Vec<u8>>,
    wide: bool,
) -> Option<ModuleFile<'a>> {
    let file = file_of(path, bytes)?;
    Some(ModuleFile {
        file,
        wide,
        keeps: false,
    })
}

/// The path of a file that is given and was not read.
fn unread_path<'a>(path: Option<&'a str>, bytes: &Option<Vec<u8>>) -> Option<&'a str> {
    if bytes.is_some() { None } else { path }
}

impl Contents {
    /// The path of the first file of a command that was not read, in the order in which commands read them.
    pub fn first_unread<'a>(&self, command: &Command<'a>) -> Option<&'a str> {
        let paths = command.paths;
        [
            unread_path(paths.of_module, &self.of_module),
            unread_path(paths.certificate, &self.certificate),
            unread_path(paths.shapes, &self.shapes),
            unread_path(paths.trace, &self.trace),
            unread_path(paths.edits, &self.edits),
            unread_path(paths.of_record, &self.of_record),
        ]
        .into_iter()
        .flatten()
        .next()
    }

    /// The files of a command with these contents.
    pub fn of_command<'a>(&'a self, command: &Command<'a>) -> Files<'a> {
        let paths = command.paths;
        let wide = command.forms.is_wide();
        Files {
            of_module: module_file_of(paths.of_module, &self.of_module, wide),
            certificate: file_of(paths.certificate, &self.certificate),
            shapes: file_of(paths.shapes, &self.shapes),
            trace: file_of(paths.trace, &self.trace),
            edits: file_of(paths.edits, &self.edits),
            of_record: file_of(paths.of_record, &self.of_record),
            saves: paths.saved.is_some(),
        }
    }
}
