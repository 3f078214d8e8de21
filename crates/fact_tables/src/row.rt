ghost use Rattle.std.specs.Prelude.{◌≡◌};
ghost use Rattle.fact_tables.specs.Sheets.{blank, is_blank};

use crate::known::{Class, Known, Test};

/// What is known of a value and of the class that it has for itself.
#[derive(Clone, Copy)]
pub(crate) struct Row {
    pub known: Known,
    pub test: Option<Test>,
    pub class: Class,
    /// The newest use of the value, by an address or a comparison.
    pub used: Option<usize>,
    /// The class of the value was not null where the last safepoint came.
    pub aside: bool,
}

impl Row {
    /// A row of which nothing is known.
    pub fn blank() -> Self
        ensures { result ≡ blank }
    {
        Row {
            known: Known::Nothing,
            test: None,
            class: Class::lost(),
            used: None,
            aside: false,
        }
    }

    /// Whether nothing is known of the row.
    pub fn is_blank(&self) -> bool
        ensures { result ≡ is_blank self.now }
    {
        matches!(self.known, Known::Nothing)
            && self.test.is_none()
            && !self.class.nonnull
            && !self.class.fresh
            && self.used.is_none()
            && !self.aside
    }
}
