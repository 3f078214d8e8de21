ghost use Rattle.std.specs.Prelude.{◌≡◌, ◌⊎◌, true, ◌<◌, ◌++◌, map, length, replicate, slice_set, IfOk, OnOk, OnErr};
ghost use Rattle.std.specs.List.{list_any, list_all, zip};
ghost use Rattle.fact_tables.specs.Rows.{is_of, class_at};
ghost use Rattle.fact_tables.specs.Covers.{covers_value};
ghost use Rattle.fact_tables.specs.declared.known.Known.TheVariants.{Nothing};
ghost use Rattle.fact_tables.specs.declared.sweeps.Change.TheVariants.{Off};
ghost use Rattle.fact_tables.specs.Sheets.{row_at, blank, EachRow, changed, off_row, known_of, class_of, stale_row, is_settled};
ghost use Rattle.fact_tables.specs.Uses.{OnlyUsers};

use crate::class_id::ClassId;
use crate::kept::KeptSheet;
use crate::known::Class;
use crate::numbered::{number_rows, numbers_of, write_rows};
use crate::owners::{self, Owners};
use crate::refill::{make_room, refill, resize};
use crate::row::Row;
use crate::sweeps::{self, Change};
use crate::uses::Use;
use ir_ast::ValueId;
use std::alloc::{AllocError, Global};
use std::marker::Model;

/// A row for each value, of which few are filled: only those that are marked.
#[derive(Drop)]
pub(crate) struct Sheet {
    rows: Vec<Row>,
    marked: Vec<usize>,
    /// The rows that the next safepoint may change.
    current: Vec<usize>,
    /// The owners of the classes that were added, in order. Those of classes that were dropped stay: then a class that
    /// comes in the place of one has its value as the second.
    class_owners: Vec<Owners>,
    /// The rows that may be of a class which their value does not own.
    non_owners: Vec<usize>,
}

impl Model for Sheet {
    ghost use Rattle.std.specs.Prelude.{List};
    ghost use Rattle.fact_tables.specs.declared.row.Row.{Row};
    ghost use Rattle.fact_tables.specs.Sheets.{OnlyMarked, OnlyCurrent};
    ghost use Rattle.fact_tables.specs.Owners.{ListsNonOwners};

    ghost Value = { List Row };

    ghost view = { λ sheet. sheet.rows.items };

    ghost invariant = { λ sheet. OnlyMarked sheet.marked.items sheet.rows.items × OnlyCurrent sheet.current.items sheet.rows.items × ListsNonOwners sheet.non_owners.items sheet.class_owners.items sheet.rows.items };
}

impl Clone for Sheet {
    ghost is_clone = { λ sheet copy. copy ≡ sheet };

    fn clone(&self) -> Result<Sheet, AllocError> {
        let rows = Vec::from_slice(*self.rows.allocator(), &self.rows)?;
        let marked = Vec::from_slice(*self.marked.allocator(), &self.marked)?;
        let current = Vec::from_slice(*self.current.allocator(), &self.current)?;
        let class_owners = Vec::from_slice(*self.class_owners.allocator(), &self.class_owners)?;
        let non_owners = Vec::from_slice(*self.non_owners.allocator(), &self.non_owners)?;
        Ok(Sheet {
            rows,
            marked,
            current,
            class_owners,
            non_owners,
        })
    }
}

impl Sheet {
    /// `count` blank rows.
    pub fn new(alloc: Global, count: usize) -> Result<Self, AllocError>
        ensures { IfOk result (λ sheet. sheet ≡ replicate count blank) }
    {
        let rows = sweeps::blank_rows(alloc, count)?;
        Ok(Sheet {
            rows,
            marked: Vec::new(alloc),
            current: Vec::new(alloc),
            class_owners: Vec::new(alloc),
            non_owners: Vec::new(alloc),
        })
    }

    /// How many rows there are.
    pub fn len(&self) -> usize
        ensures count { result ≡ length self.now }
        ensures small { result < 9223372036854775808 }
    {
        self.rows.len()
    }

    /// A row, or a blank one.
    pub fn row(&self, at: usize) -> Row
        ensures { result ≡ row_at self.now at }
    {
        sweeps::row_at(&self.rows, at)
    }

    /// What is known of a class, which a value has for itself or which was added.
    pub fn class(&self, added: &[Class], c: ClassId) -> Class
        ensures { result ≡ class_at (map class_of self.now ++ added.now) c }
    {
        sweeps::class_of(&self.rows, added, c)
    }

    /// A row is this from now on.
    pub fn set(&mut self, at: usize, row: Row) -> Result<(), AllocError>
        ensures ok { OnOk result (self.new ≡ slice_set self.old at row) }
        ensures err { OnErr result (self.new ≡ self.old) }
    {
        if at < self.rows.len() {
            let before = sweeps::row_at(&self.rows, at);
            sweeps::mark(&mut self.marked, at, &before)?;
            sweeps::record_one(&mut self.current, at, &before, &row)?;
            owners::record_non_owner(
                &mut self.non_owners,
                &mut self.class_owners,
                &self.rows,
                at,
                &before,
                &row,
            )?;
            self.rows[at] = row;
        }
        Ok(())
    }

    /// A row that is filled, or that stays blank, is this from now on; a safepoint changes it only where it did. Its value is known
    /// to be what it was, or nothing is known of it.
    pub fn change(&mut self, at: usize, row: Row)
        requires known { (row.known ≡ (row_at self.old at).known) ⊎ (row.known ≡ Nothing) }
        requires filled { row_at self.old at ≡ blank → row ≡ blank }
        requires settled { is_settled at (row_at self.old at) ≡ true → is_settled at row ≡ true }
        ensures { self.new ≡ slice_set self.old at row }
    {
        if at < self.rows.len() {
            self.rows[at] = row;
        }
    }

    /// All rows are blank.
    pub fn clear(&mut self)
        ensures { self.new ≡ replicate (length self.old) blank }
    {
        sweeps::copy(&mut self.rows, &self.marked, &[]);
        self.marked.clear();
        self.current.clear();
        self.class_owners.clear();
        self.non_owners.clear();
    }

    /// `count` blank rows, in the room of these.
    pub fn resize(&mut self, count: usize) -> Result<(), AllocError>
        ensures ok { OnOk result (self.new ≡ replicate count blank) }
        ensures err { OnErr result (self.new ≡ self.old) }
    {
        resize(&mut self.rows, count, Row::blank())?;
        sweeps::copy(&mut self.rows, &self.marked, &[]);
        self.marked.clear();
        self.current.clear();
        self.class_owners.clear();
        self.non_owners.clear();
        Ok(())
    }

    /// The rows are those of a sheet of the same length.
    pub fn set_from(&mut self, other: &Sheet) -> Result<(), AllocError>
        requires { length self.old ≡ length other.now }
        ensures ok { OnOk result (self.new ≡ other.now) }
        ensures err { OnErr result (self.new ≡ self.old) }
    {
        make_room(&mut self.marked, &other.marked)?;
        make_room(&mut self.current, &other.current)?;
        make_room(&mut self.class_owners, &other.class_owners)?;
        make_room(&mut self.non_owners, &other.non_owners)?;
        sweeps::copy(&mut self.rows, &self.marked, &[]);
        sweeps::copy(&mut self.rows, &other.marked, &other.rows);
        refill(&mut self.marked, &other.marked);
        refill(&mut self.current, &other.current);
        refill(&mut self.class_owners, &other.class_owners);
        refill(&mut self.non_owners, &other.non_owners);
        Ok(())
    }

    /// The filled rows, with their numbers.
    pub fn keep(&self, alloc: Global) -> Result<KeptSheet, AllocError>
        ensures { IfOk result (λ kept. kept ≡ self.now) }
    {
        let rows = number_rows(alloc, &self.rows, &self.marked)?;
        let current = Vec::from_slice(alloc, &self.current)?;
        let class_owners = Vec::from_slice(alloc, &self.class_owners)?;
        let non_owners = Vec::from_slice(alloc, &self.non_owners)?;
        Ok(KeptSheet {
            count: self.rows.len(),
            rows,
            current,
            class_owners,
            non_owners,
        })
    }

    /// The rows are those of a sheet of the same length that was kept.
    pub fn open(&mut self, alloc: Global, kept: &KeptSheet) -> Result<(), AllocError>
        requires { length self.old ≡ length kept.now }
        ensures ok { OnOk result (self.new ≡ kept.now) }
        ensures err { OnErr result (self.new ≡ self.old) }
    {
        let marked = numbers_of(alloc, &kept.rows)?;
        let current = Vec::from_slice(alloc, &kept.current)?;
        let class_owners = Vec::from_slice(alloc, &kept.class_owners)?;
        let non_owners = Vec::from_slice(alloc, &kept.non_owners)?;
        sweeps::copy(&mut self.rows, &self.marked, &[]);
        write_rows(&mut self.rows, &kept.rows);
        self.marked = marked;
        self.current = current;
        self.class_owners = class_owners;
        self.non_owners = non_owners;
        Ok(())
    }

    /// No row names a value, of which these are the uses.
    pub fn end_names(&mut self, uses: &[Use], v: ValueId)
        requires { OnlyUsers uses.now self.old }
        ensures { EachRow (changed (Off v)) self.old self.new }
    {
        sweeps::end_names(&mut self.rows, &self.marked, uses, v);
    }

    /// No row names a value, of which these are the uses, and its own row is this from now on.
    pub fn define(&mut self, uses: &[Use], v: ValueId, row: Row) -> Result<(), AllocError>
        requires { OnlyUsers uses.now self.old }
        ensures ok { OnOk result (self.new ≡ slice_set (map (off_row v) self.old) v row) }
        ensures err { OnErr result (self.new ≡ self.old) }
    {
        let at = v.number() as usize;
        let before = sweeps::row_at(&self.rows, at);
        sweeps::mark(&mut self.marked, at, &before)?;
        sweeps::record_one(&mut self.current, at, &before, &row)?;
        owners::record_non_owner(
            &mut self.non_owners,
            &mut self.class_owners,
            &self.rows,
            at,
            &before,
            &row,
        )?;
        sweeps::end_names(&mut self.rows, &self.marked, uses, v);
        sweeps::write(&mut self.rows, at, row);
        Ok(())
    }

    /// The class that is added next is made for a value.
    pub fn own(&mut self, v: ValueId) -> Result<(), AllocError>
        ensures { self.new ≡ self.old }
    {
        let first = v.number() as usize;
        self.class_owners.push(Owners {
            first,
            second: first,
        })?;
        Ok(())
    }

    /// Each reference is stale, and of the class that its value has for itself; these classes were added.
    pub fn make_stale(&mut self, added: &[Class])
        ensures { EachRow (stale_row (map class_of self.old ++ added.now)) self.old self.new }
    {
        sweeps::keep_rows(&mut self.rows, &self.current, added);
        sweeps::sweep(&mut self.rows, &self.current, &Change::Settle);
        self.current.clear();
        self.class_owners.clear();
        self.non_owners.clear();
    }

    /// Whether some value is of this class.
    pub fn any_of(&self, c: ClassId) -> bool
        ensures { result ≡ list_any (is_of c) (map known_of self.now) }
    {
        let owners = owners::owners_of(self.rows.len(), &self.class_owners, c);
        owners::any_of(&self.rows, &self.non_owners, owners, c)
    }

    /// Whether some value but `v` is of this class.
    pub fn any_other(&self, v: ValueId, c: ClassId) -> bool
        ensures { result ≡ list_any (is_of c) (slice_set (map known_of self.now) v Nothing) }
    {
        let owners = owners::owners_of(self.rows.len(), &self.class_owners, c);
        owners::any_other(&self.rows, &self.non_owners, owners, v.number() as usize, c)
    }

    /// Whether all values of a class here are listed there as of another.
    pub fn covers(&self, there: &Sheet, c: ClassId, d: ClassId) -> bool
        ensures { result ≡ list_all (covers_value c d) (zip (map known_of self.now) (map known_of there.now)) }
    {
        if self.non_owners.len() < there.marked.len() {
            let owners = owners::owners_of(self.rows.len(), &self.class_owners, c);
            owners::covers(&self.rows, &self.non_owners, owners, &there.rows, c, d)
        } else {
            sweeps::covers(&self.rows, &there.marked, &there.rows, c, d)
        }
    }
}
