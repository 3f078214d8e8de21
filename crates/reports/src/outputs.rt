//! What a command prints, and what it saves.
ghost use Rattle.std.specs.Prelude.{◌≡◌, [], OnOk};
ghost use Rattle.std.specs.Io.KnownBytes.{Appends};

use std::alloc::Global;
use std::io;
use std::io::Write;

/// What a command prints: the bytes of its standard output and of its standard error.
#[derive(Drop)]
pub struct Outputs {
    pub out: Vec<u8>,
    pub err: Vec<u8>,
}

/// What a command prints, and the bytes of the files that it writes.
#[derive(Drop)]
pub struct Results {
    pub outputs: Outputs,
    pub saved: Vec<u8>,
    /// The answer as it is written to a file, if it is to be.
    pub answer: Vec<u8>,
    /// Of a certificate that is written beside a module.
    pub saved_cert: Vec<u8>,
}

impl Outputs {
    /// Nothing is printed.
    pub fn new(alloc: Global) -> Outputs
        ensures out { result.out.items ≡ [] }
        ensures err { result.err.items ≡ [] }
    {
        Outputs {
            out: Vec::new(alloc),
            err: Vec::new(alloc),
        }
    }

    /// Writes what was printed, the standard output first.
    pub fn write<O: Write, E: Write>(&self, out: &mut O, err: &mut E) -> io::Result<()>
        ensures out { OnOk result (Appends (O.contents out.old) (O.contents out.new) self.now.out.items) }
        ensures err { OnOk result (Appends (E.contents err.old) (E.contents err.new) self.now.err.items) }
    {
        out.write_all(self.out.as_slice())?;
        err.write_all(self.err.as_slice())
    }
}

impl Results {
    /// Nothing is printed, and nothing is saved.
    pub fn new(alloc: Global) -> Results
        ensures out { result.outputs.out.items ≡ [] }
        ensures err { result.outputs.err.items ≡ [] }
        ensures saved { result.saved.items ≡ [] }
        ensures saved_cert { result.saved_cert.items ≡ [] }
    {
        Results {
            outputs: Outputs::new(alloc),
            saved: Vec::new(alloc),
            answer: Vec::new(alloc),
            saved_cert: Vec::new(alloc),
        }
    }
}
