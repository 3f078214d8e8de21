//! When threads begin, and how the lines and the version of a trace's text tell it.
ghost use Rattle.std.specs.Prelude.{◌≡◌};
ghost use Rattle.std.specs.List.{list_any};
ghost use Rattle.trace_text.specs.Arrivals as spec;

use crate::trace::{Arrival, Start};

/// The version of a trace's text.
#[derive(Clone, Copy)]
pub enum Version {
    /// No thread begins late.
    One,
    /// Threads may begin late.
    Two,
}

impl Version {
    /// Whether the lines of such a text may begin threads late.
    fn has_late(self) -> bool
        ensures { result ≡ spec.has_late self }
    {
        match self {
            Version::One => false,
            Version::Two => true,
        }
    }
}

impl Arrival {
    /// Whether the thread begins while others run.
    pub fn is_late(self) -> bool
        ensures { result ≡ spec.is_late self }
    {
        match self {
            Arrival::AtStart => false,
            Arrival::Late => true,
        }
    }
}

/// The version that a word is.
pub fn version_of_word(word: &[u8]) -> Option<Version>
    ensures { result ≡ spec.version_of_word word.now }
{
    if word == b"1".as_slice() {
        Some(Version::One)
    } else if word == b"2".as_slice() {
        Some(Version::Two)
    } else {
        None
    }
}

fn some_is_late(starts: &[Start]) -> bool
    ensures { result ≡ list_any (λ start. spec.is_late start.arrival) starts.now }
{
    starts.iter().any(|start| start.arrival.is_late())
}

/// The version in which threads that begin so are written.
pub fn version_of(starts: &[Start]) -> Version
    ensures { result ≡ spec.version_of starts.now }
{
    if some_is_late(starts) {
        Version::Two
    } else {
        Version::One
    }
}

/// The first word of the line of a thread that begins so.
pub fn start_word(arrival: Arrival) -> &'static [u8]
    ensures { result.now ≡ spec.start_word arrival }
{
    match arrival {
        Arrival::AtStart => b"start".as_slice(),
        Arrival::Late => b"late".as_slice(),
    }
}

/// When the thread begins whose line begins with this word.
pub fn arrival_of_word(version: Version, word: &[u8]) -> Option<Arrival>
    ensures { result ≡ spec.arrival_of_word version word.now }
{
    if word == b"start".as_slice() {
        Some(Arrival::AtStart)
    } else if word == b"late".as_slice() && version.has_late() {
        Some(Arrival::Late)
    } else {
        None
    }
}
