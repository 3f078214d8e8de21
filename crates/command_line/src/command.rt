//! What a command line asks for.
ghost use Rattle.std.specs.Prelude.{◌≡◌, ◌≤◌, option_map};
ghost use Rattle.command_line.specs.Asked.{by_default, input, input_count, is_read_once, is_wanted, is_wide, on_terminal, pair_texts, texts_of, when_by_default, when_on_terminal};

use crate::options::What;

/// The paths of a command's files, by what each file is. None is a file that the line does not give.
#[derive(Clone, Copy)]
pub struct Paths<'a> {
    pub of_module: Option<&'a str>,
    pub certificate: Option<&'a str>,
    /// None beside a certificate too, which then has the shapes.
    pub shapes: Option<&'a str>,
    pub trace: Option<&'a str>,
    pub edits: Option<&'a str>,
    pub of_record: Option<&'a str>,
    /// A list of pairs, each of a module and a certificate. The command is done on each pair.
    pub list: Option<&'a str>,
    /// The file that the command writes: a trace, steps as JSON, a record, a module, or its answer.
    pub saved: Option<&'a str>,
    /// The file of the certificate that it writes beside a module.
    pub saved_cert: Option<&'a str>,
}

/// Whether a refusal is explained.
#[derive(Clone, Copy)]
pub enum Explained {
    Always,
    /// Where the standard error is a terminal.
    OnTerminal,
    Never,
    /// As the caller has it where the line does not say.
    ByDefault,
}

/// Which forms the text of a module may have.
#[derive(Clone, Copy)]
pub enum Forms {
    Core,
    /// Those of `Core`, and shifts, division and more.
    Wide,
}

/// How the answer of a command is written to the file of its line.
#[derive(Clone, Copy)]
pub enum Written {
    /// It is not.
    NotAtAll,
    /// As objects of JSON.
    AsJson,
    /// As a log of SARIF.
    AsSarif,
}

/// A command, the paths of its files, and what all commands have.
#[derive(Clone, Copy)]
pub struct Command<'a> {
    pub paths: Paths<'a>,
    pub explained: Explained,
    pub forms: Forms,
    /// Of a replay, which writes no answer, whether the steps of its run are written as JSON.
    pub written: Written,
    pub what: What<'a>,
}

impl Explained {
    /// The same where the standard error is a terminal.
    fn on_terminal(self) -> Explained
        ensures { result ≡ when_on_terminal self }
    {
        match self {
            Explained::OnTerminal => Explained::Always,
            when => when,
        }
    }

    /// The same where this is the default.
    fn by_default(self, usual: Explained) -> Explained
        ensures { result ≡ when_by_default usual self }
    {
        match self {
            Explained::ByDefault => usual,
            when => when,
        }
    }

    /// Whether a refusal is explained where nothing is known of the standard error.
    pub fn is_wanted(self) -> bool
        ensures { result ≡ is_wanted self }
    {
        matches!(self, Explained::Always)
    }
}

impl Forms {
    /// Whether more than the forms of `Core` may stand.
    pub fn is_wide(self) -> bool
        ensures { result ≡ is_wide self }
    {
        matches!(self, Forms::Wide)
    }
}

impl Paths<'_> {
    /// No file is given.
    pub const NONE: Paths<'static> = Paths {
        of_module: None,
        certificate: None,
        shapes: None,
        trace: None,
        edits: None,
        of_record: None,
        list: None,
        saved: None,
        saved_cert: None,
    };
}

/// The path that names the standard input.
pub const INPUT: &str = "-";

/// How many of this file are the standard input: one, or none.
fn input_of(path: Option<&str>) -> u32
    ensures count { result ≡ input (option_map (λ path. path.now) path.entry) }
    ensures few { result ≤ 1 }
{
    match path {
        Some(INPUT) => 1,
        _ => 0,
    }
}

impl Paths<'_> {
    /// How many of the files that are read are the standard input.
    fn input_count(&self) -> u32
        ensures { result ≡ input_count (texts_of self.now) }
    {
        input_of(self.of_module)
            + input_of(self.certificate)
            + input_of(self.shapes)
            + input_of(self.trace)
            + input_of(self.edits)
            + input_of(self.of_record)
            + input_of(self.list)
    }

    /// Whether one of the files that are read at most is the standard input.
    pub fn is_read_once(&self) -> bool
        ensures { result ≡ is_read_once (texts_of self.now) }
    {
        self.input_count() <= 1
    }
}

impl<'a> Command<'a> {
    /// The command where the standard error is a terminal: what is left to that is explained.
    pub fn on_terminal(self) -> Command<'a>
        ensures { result ≡ on_terminal self.entry }
    {
        Command {
            explained: self.explained.on_terminal(),
            ..self
        }
    }

    /// The command where this is the default of `--explain`.
    pub fn by_default(self, usual: Explained) -> Command<'a>
        ensures { result ≡ by_default usual self.entry }
    {
        Command {
            explained: self.explained.by_default(usual),
            ..self
        }
    }

    /// The command on a pair of its list.
    pub fn of_pair(self, of_module: &'a str, certificate: &'a str) -> Command<'a>
        ensures paths { texts_of result.paths ≡ pair_texts of_module.entry.now certificate.entry.now }
        ensures rest { result ≡ record self.entry { paths = result.paths } }
    {
        Command {
            paths: Paths {
                of_module: Some(of_module),
                certificate: Some(certificate),
                ..Paths::NONE
            },
            ..self
        }
    }
}
