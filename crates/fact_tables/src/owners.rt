//! The values that own a class, and the values that are of a class which they do not own.
ghost use Rattle.std.specs.Prelude.{◌≡◌, ◌⊎◌, true, length, OnOk};
ghost use Rattle.std.specs.List.{list_any, list_all};
ghost use Rattle.lemmas.specs.Lists.{IsIn};
ghost use Rattle.fact_tables.specs.Owners.{owners_of, is_owner, owns_class, with_second, with_owner, members, ListsNonOwners};
ghost use Rattle.fact_tables.specs.Owned.{with_owner_of, is_new_non_owner};
ghost use Rattle.fact_tables.specs.Sheets.{row_at, row_is_of, other_is_of, covers_row};

use crate::class_id::ClassId;
use crate::known::Known;
use crate::row::Row;
use crate::sweeps;
use std::alloc::AllocError;

/// The values that own a class: the one that it was made for, and a later one.
#[derive(Clone, Copy)]
pub(crate) struct Owners {
    pub first: usize,
    pub second: usize,
}

/// The values that own a class, if it is known.
pub fn owners_of(count: usize, class_owners: &[Owners], c: ClassId) -> Option<Owners>
    ensures { result ≡ owners_of count class_owners.now c }
{
    let at = c.number();
    if at < count {
        Some(Owners {
            first: at,
            second: at,
        })
    } else {
        class_owners.get(at - count).copied()
    }
}

fn is_owner(at: usize, owners: Option<Owners>) -> bool
    ensures { result ≡ is_owner at owners }
{
    match owners {
        Some(owners) => owners.first == at || owners.second == at,
        None => false,
    }
}

/// Whether a row is of no class, or of one that its value owns.
fn owns_class(count: usize, class_owners: &[Owners], at: usize, row: &Row) -> bool
    ensures { result ≡ owns_class count class_owners.now at row.now }
{
    match row.known {
        Known::Cell { class, .. } => is_owner(at, owners_of(count, class_owners, class)),
        _ => true,
    }
}

/// This value owns a class too, where the second of its owners is not needed.
fn with_second(rows: &[Row], at: usize, c: ClassId, owners: Owners) -> Owners
    ensures { result ≡ with_second rows.now at c owners }
{
    if owners.first == owners.second || !sweeps::row_is_of(c, rows, owners.second) {
        Owners {
            second: at,
            ..owners
        }
    } else {
        owners
    }
}

/// A value is of a class from now on.
fn add_owner(class_owners: &mut Vec<Owners>, rows: &[Row], at: usize, c: ClassId)
    ensures { class_owners.new.items ≡ with_owner rows.now at c class_owners.old.items }
{
    let number = c.number();
    let count = rows.len();
    if number >= count {
        let index = number - count;
        if index < class_owners.len() {
            class_owners[index] = with_second(rows, at, c, class_owners[index]);
        }
    }
}

/// A value is known to be this from now on.
fn add_owner_of(class_owners: &mut Vec<Owners>, rows: &[Row], at: usize, known: &Known)
    ensures { class_owners.new.items ≡ with_owner_of rows.now at known.now class_owners.old.items }
{
    if let Known::Cell { class, .. } = known {
        add_owner(class_owners, rows, at, *class);
    }
}

/// Whether a row is now of a class that its value does not own, and was not before.
fn is_new_non_owner(
    count: usize,
    class_owners: &[Owners],
    at: usize,
    before: &Row,
    after: &Row,
) -> bool
    ensures { result ≡ is_new_non_owner count class_owners.now at before.now after.now }
{
    owns_class(count, class_owners, at, before) && !owns_class(count, class_owners, at, after)
}

/// A row that is now of a class which its value does not own is listed, unless it was.
pub fn record_non_owner(
    non_owners: &mut Vec<usize>,
    class_owners: &mut Vec<Owners>,
    rows: &[Row],
    at: usize,
    before: &Row,
    after: &Row,
) -> Result<(), AllocError>
    requires { before.now ≡ row_at rows.now at }
    ensures kept { ListsNonOwners non_owners.old.items class_owners.old.items rows.now → ListsNonOwners non_owners.new.items class_owners.new.items rows.now }
    ensures recorded { OnOk result (ListsNonOwners non_owners.old.items class_owners.old.items rows.now → IsIn at non_owners.new.items ⊎ (owns_class (length rows.now) class_owners.new.items at after.now ≡ true)) }
{
    add_owner_of(class_owners, rows, at, &after.known);
    if is_new_non_owner(rows.len(), class_owners, at, before, after) {
        non_owners.push(at)?;
    }
    Ok(())
}

/// Whether the row of an owner, or one that is listed, is of this class.
pub fn any_of(rows: &[Row], non_owners: &[usize], owners: Option<Owners>, c: ClassId) -> bool
    ensures { result ≡ list_any (row_is_of c rows.now) (members owners non_owners.now) }
{
    match owners {
        Some(owners) => {
            sweeps::row_is_of(c, rows, owners.first)
                || (sweeps::row_is_of(c, rows, owners.second)
                    || sweeps::any_of(rows, non_owners, c))
        }
        None => sweeps::any_of(rows, non_owners, c),
    }
}

/// Whether the row of an owner, or one that is listed, is of this class, other than that of `v`.
pub fn any_other(
    rows: &[Row],
    non_owners: &[usize],
    owners: Option<Owners>,
    v: usize,
    c: ClassId,
) -> bool
    ensures { result ≡ list_any (other_is_of v c rows.now) (members owners non_owners.now) }
{
    match owners {
        Some(owners) => {
            sweeps::other_is_of(v, c, rows, owners.first)
                || (sweeps::other_is_of(v, c, rows, owners.second)
                    || sweeps::any_other(rows, non_owners, v, c))
        }
        None => sweeps::any_other(rows, non_owners, v, c),
    }
}

/// Whether the rows of the owners and those that are listed, if they are of a class, are there of another.
pub fn covers(
    here: &[Row],
    non_owners: &[usize],
    owners: Option<Owners>,
    there: &[Row],
    c: ClassId,
    d: ClassId,
) -> bool
    ensures { result ≡ list_all (covers_row c d here.now there.now) (members owners non_owners.now) }
{
    match owners {
        Some(owners) => {
            sweeps::covers_row(c, d, here, there, owners.first)
                && (sweeps::covers_row(c, d, here, there, owners.second)
                    && sweeps::covers(here, non_owners, there, c, d))
        }
        None => sweeps::covers(here, non_owners, there, c, d),
    }
}
