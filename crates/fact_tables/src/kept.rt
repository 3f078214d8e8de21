//! What is known of values, kept in as much room as it fills.
ghost use Rattle.std.specs.Prelude.{◌≡◌, length};

use crate::known::Class;
use crate::numbered::Numbered;
use crate::owners::Owners;
use crate::uses::Use;
use std::marker::Model;

/// The filled rows of a sheet.
#[derive(Drop)]
pub(crate) struct KeptSheet {
    pub count: usize,
    pub rows: Vec<Numbered>,
    /// The rows that the next safepoint may change.
    pub current: Vec<usize>,
    /// The values for which the classes that were added were made, in order.
    pub class_owners: Vec<Owners>,
    /// The rows that may be of a class which their value does not own.
    pub non_owners: Vec<usize>,
}

impl Model for KeptSheet {
    ghost use Rattle.std.specs.Prelude.{List};
    ghost use Rattle.fact_tables.specs.declared.row.Row.{Row};
    ghost use Rattle.fact_tables.specs.Numbered.{among_blank};
    ghost use Rattle.fact_tables.specs.Owners.{ListsNonOwners};
    ghost use Rattle.fact_tables.specs.Sheets.{OnlyCurrent};

    ghost Value = { List Row };

    ghost view = { λ kept. among_blank kept.count kept.rows.items };

    ghost invariant = { λ kept. OnlyCurrent kept.current.items (among_blank kept.count kept.rows.items) × ListsNonOwners kept.non_owners.items kept.class_owners.items (among_blank kept.count kept.rows.items) };
}

impl KeptSheet {
    /// How many rows there are.
    pub fn len(&self) -> usize
        ensures { result ≡ length self.now }
    {
        self.count
    }
}

/// What is known of values and classes.
#[derive(Drop)]
pub struct KeptValues {
    pub(crate) sheet: KeptSheet,
    pub(crate) added: Vec<Class>,
    pub(crate) uses: Vec<Use>,
}

impl KeptValues {
    /// How many values there are.
    pub fn count(&self) -> usize
        ensures { result ≡ length self.now.values }
    {
        self.sheet.len()
    }
}

impl Model for KeptValues {
    ghost use Rattle.fact_tables.specs.Values.{ValueFacts, facts_of_rows};
    ghost use Rattle.fact_tables.specs.Uses.{OnlyUsers};

    ghost Value = { ValueFacts };

    ghost view = { λ kept. facts_of_rows kept.sheet kept.added.items };

    ghost invariant = { λ kept. OnlyUsers kept.uses.items kept.sheet };
}
