//! The statuses with which the program ends.
ghost use Rattle.std.specs.Prelude.{◌≡◌, IfErr, IfOk};

use std::io;

/// The answer is yes, no run was broken, or help or the version was asked for.
pub const STATUS_YES: u8 = 0;

/// The answer is no, or a run was broken.
pub const STATUS_NO: u8 = 1;

/// A text is no module, no certificate or no trace, the module has no layouts, or a thread does not begin.
pub const STATUS_UNREADABLE: u8 = 2;

/// Memory was refused.
pub const STATUS_MEMORY: u8 = 3;

/// The command line is refused, a file cannot be read, or a write failed.
pub const STATUS_USAGE: u8 = 4;

/// The status after a line that was printed, or where a write failed.
pub fn status_of(printed: io::Result<u8>) -> u8
    ensures printed { IfOk printed (λ status. result ≡ status) }
    ensures failed { IfErr printed (λ _. result ≡ 4) }
{
    match printed {
        Ok(status) => status,
        Err(_) => STATUS_USAGE,
    }
}
