//! The version of the program, and the number of the interface.
ghost use Rattle.std.specs.Prelude.{◌≡◌, length};
ghost use Rattle.library_answers.specs.Told.{IsCopied};
ghost use Rattle.dgc_c.specs.declared.version.TheConstants.{VERSION};

use library_answers::copy_into;

/// The version of the program. A build without proofs writes another text here, which says so.
const VERSION: &str = "dgc 0.1.0, proved";

/// The number of the interface: it changes with each change of dgc.h that callers have to be compiled for again.
pub(crate) const INTERFACE: u32 = 1;

/// Copies the version into a room. Returns how long it is.
pub(crate) fn put_version(room: &mut [u8]) -> usize
    ensures copied { IsCopied VERSION.now room.old room.new }
    ensures length { result ≡ length VERSION.now }
{
    copy_into(room, VERSION.as_bytes())
}
