//! The rows that name a value, as a chain of uses from the newest on.
ghost use Rattle.std.specs.Prelude.{◌≡◌};
ghost use Rattle.fact_tables.specs.Uses.{use_at};

/// A row that has named a value, and the use of the value before it.
#[derive(Clone, Copy)]
pub(crate) struct Use {
    pub user: usize,
    pub before: Option<usize>,
}

/// The use at a place, if there is one.
pub(crate) fn use_at(uses: &[Use], at: Option<usize>) -> Option<Use>
    ensures { result ≡ use_at uses.now at }
{
    match at {
        Some(at) => uses.get(at).copied(),
        None => None,
    }
}
