ghost use Rattle.std.specs.Prelude.{◌≡◌, ◌≤◌, length};
ghost use Rattle.record_text.specs.Entries.{entry_at};

/// How many bytes an entry has.
pub const ENTRY_BYTES: usize = 16;

/// How many bytes a record has at most.
pub const RECORD_LIMIT: usize = 1 << 30;

/// One entry of a record: the actor, the kind of the step, and its numbers. The numbers of a record have their lowest byte first.
#[derive(Clone, Copy)]
pub struct Entry {
    pub actor: u8,
    pub kind: u8,
    pub word: u16,
    pub cell: u32,
    pub value: u64,
}

impl Entry {
    /// The entry that these bytes begin with.
    pub fn of(bytes: &[u8]) -> Self
        requires { 16 ≤ length bytes.now }
        ensures { result ≡ entry_at bytes.now }
    {
        Entry {
            actor: bytes[0],
            kind: bytes[1],
            word: u16::from_le_bytes([bytes[2], bytes[3]]),
            cell: u32::from_le_bytes([bytes[4], bytes[5], bytes[6], bytes[7]]),
            value: u64::from_le_bytes([
                bytes[8], bytes[9], bytes[10], bytes[11], bytes[12], bytes[13], bytes[14],
                bytes[15],
            ]),
        }
    }
}
