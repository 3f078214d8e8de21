//! What changes in the rows that are marked, and what is asked of them.
ghost use Rattle.std.specs.Prelude.{◌≡◌, ◌++◌, map, length, replicate, slice_set, IfOk, OnOk, OnErr};
ghost use Rattle.std.specs.List.{list_any, list_all};
ghost use Rattle.fact_tables.specs.EachListed.{each_listed, copied};
ghost use Rattle.fact_tables.specs.Rows.{class_at};
ghost use Rattle.fact_tables.specs.Uses.{chain, OnlyUsers};
ghost use Rattle.fact_tables.specs.declared.sweeps.Change.TheVariants.{Off};
ghost use Rattle.fact_tables.specs.Sheets.{blank, changed, row_at, with_mark, class_of, known_nonnull, keep_row, settled_class, row_is_of, other_is_of, covers_row, is_settled, is_unsettled, with_current, EachRow, OnlyMarked};

use crate::class_id::ClassId;
use crate::known::{Class, Known};
use crate::row::Row;
use crate::rows;
use crate::uses::{Use, use_at};
use ir_ast::ValueId;
use std::alloc::{AllocError, Global};

/// A change of each row.
#[derive(Clone, Copy)]
pub enum Change {
    /// The row does not name this value.
    Off(ValueId),
    /// A reference is stale, and of the class that its value has for itself.
    Settle,
}

/// `count` blank rows.
pub fn blank_rows(alloc: Global, count: usize) -> Result<Vec<Row>, AllocError>
    ensures { IfOk result (λ rows. rows.items ≡ replicate count blank) }
{
    let rows = vec![in alloc; Row {
        known: Known::Nothing,
        test: None,
        class: Class::lost(),
        used: None,
        aside: false
    }; count]?;
    Ok(rows)
}

/// A row, or a blank one.
pub fn row_at(rows: &[Row], at: usize) -> Row
    ensures { result ≡ row_at rows.now at }
{
    match rows.get(at) {
        Some(row) => *row,
        None => Row::blank(),
    }
}

/// A row is marked, unless it was filled.
pub fn mark(marked: &mut Vec<usize>, at: usize, before: &Row) -> Result<(), AllocError>
    ensures ok { OnOk result (marked.new.items ≡ with_mark at before.now marked.old.items) }
    ensures err { OnErr result (marked.new.items ≡ marked.old.items) }
{
    if before.is_blank() {
        marked.push(at)?;
    }
    Ok(())
}

/// A row that a safepoint changes is recorded as current, unless it was.
pub fn record_one(
    current: &mut Vec<usize>,
    at: usize,
    before: &Row,
    after: &Row,
) -> Result<(), AllocError>
    ensures ok { OnOk result (current.new.items ≡ with_current at before.now after.now current.old.items) }
    ensures err { OnErr result (current.new.items ≡ current.old.items) }
{
    if is_unsettled(at, before, after) {
        current.push(at)?;
    }
    Ok(())
}

fn is_unsettled(at: usize, before: &Row, after: &Row) -> bool
    ensures { result ≡ is_unsettled at before.now after.now }
{
    is_settled(at, before) && !is_settled(at, after)
}

/// Whether a safepoint leaves a row as it is.
fn is_settled(at: usize, row: &Row) -> bool
    ensures { result ≡ is_settled at row.now }
{
    match row.known {
        Known::Cell { class, stale, .. } => {
            class.number() == at
                && stale
                && !row.class.fresh
                && (if row.class.nonnull {
                    row.aside
                } else {
                    !row.aside
                })
        }
        _ => !row.aside,
    }
}

/// The rows are those of another sheet, which are blank where it is shorter.
pub fn copy(rows: &mut Vec<Row>, marked: &[usize], others: &[Row])
    ensures { rows.new.items ≡ each_listed blank (copied blank others.now) marked.now rows.old.items }
{
    for v in marked {
        let at = *v;
        if at < rows.len() {
            rows[at] = row_at(others, at);
        }
    }
}

/// A row is this from now on.
pub fn write(rows: &mut Vec<Row>, at: usize, row: Row)
    ensures { rows.new.items ≡ slice_set rows.old.items at row }
{
    if at < rows.len() {
        rows[at] = row;
    }
}

/// All rows that are marked change.
pub fn sweep(rows: &mut Vec<Row>, marked: &[usize], change: &Change)
    ensures { rows.new.items ≡ each_listed blank (changed change.now) marked.now rows.old.items }
{
    for u in marked {
        let at = *u;
        if at < rows.len() {
            rows[at] = changed(change, at, &row_at(rows, at));
        }
    }
}

/// No row names a value: those that have named it end that, or all that are marked if the value has no row.
pub fn end_names(rows: &mut Vec<Row>, marked: &[usize], uses: &[Use], v: ValueId)
    ensures { OnlyUsers uses.now rows.old.items → OnlyMarked marked.now rows.old.items → EachRow (changed (Off v)) rows.old.items rows.new.items }
{
    let at = v.number() as usize;
    if at < rows.len() {
        let row = row_at(rows, at);
        sweep_uses(rows, uses, row.used, &Change::Off(v));
    } else {
        sweep(rows, marked, &Change::Off(v));
    }
}

/// The rows that have named a value change, from this use of it back.
fn sweep_uses(rows: &mut Vec<Row>, uses: &[Use], newest: Option<usize>, change: &Change)
    ensures { rows.new.items ≡ each_listed blank (changed change.now) (chain (length uses.now) uses.now newest) rows.old.items }
{
    let mut at = newest;
    for step in 0..uses.len() {
        let Some(found) = use_at(uses, at) else {
            return;
        };
        change_row(rows, found.user, change);
        at = found.before;
    }
}

fn change_row(rows: &mut Vec<Row>, at: usize, change: &Change)
    ensures { rows.new.items ≡ slice_set rows.old.items at (changed change.now at (row_at rows.old.items at)) }
{
    if at < rows.len() {
        rows[at] = changed(change, at, &row_at(rows, at));
    }
}

fn changed(change: &Change, at: usize, row: &Row) -> Row
    ensures { result ≡ changed change.now at row.now }
{
    match change {
        Change::Off(v) => Row {
            known: rows::off_base(*v, row.known),
            test: rows::off_test(*v, row.test),
            ..*row
        },
        Change::Settle => Row {
            known: rows::stale_of(at, row.known),
            class: settled_class(row),
            ..*row
        },
    }
}

/// What is known of a class, which a value has for itself or which was added.
pub fn class_of(rows: &[Row], added: &[Class], c: ClassId) -> Class
    ensures { result ≡ class_at (map class_of rows.now ++ added.now) c }
{
    let at = c.number();
    if at < rows.len() {
        row_at(rows, at).class
    } else {
        rows::class_at(added, ClassId::new(at - rows.len()))
    }
}

/// Each value's class is recorded: whether it is not null.
pub fn keep_rows(rows: &mut Vec<Row>, marked: &[usize], added: &[Class])
    ensures { rows.new.items ≡ each_listed blank (keep_row (map class_of rows.old.items ++ added.now)) marked.now rows.old.items }
{
    for u in marked {
        keep_row(rows, added, *u);
    }
}

fn keep_row(rows: &mut Vec<Row>, added: &[Class], at: usize)
    ensures { rows.new.items ≡ slice_set rows.old.items at (keep_row (map class_of rows.old.items ++ added.now) at (row_at rows.old.items at)) }
{
    if at < rows.len() {
        let row = row_at(rows, at);
        let aside = known_nonnull(rows, added, &row.known);
        rows[at] = Row { aside, ..row };
    }
}

fn known_nonnull(rows: &[Row], added: &[Class], known: &Known) -> bool
    ensures { result ≡ known_nonnull (map class_of rows.now ++ added.now) known.now }
{
    match known {
        Known::Cell { class, .. } => class_of(rows, added, *class).nonnull,
        _ => false,
    }
}

fn settled_class(row: &Row) -> Class
    ensures { result ≡ settled_class row.now.aside row.now.class row.now.known }
{
    match row.known {
        Known::Cell { .. } => Class {
            nonnull: row.aside,
            fresh: false,
        },
        _ => row.class,
    }
}

/// Whether a row that is marked is of this class.
pub fn any_of(rows: &[Row], marked: &[usize], c: ClassId) -> bool
    ensures { result ≡ list_any (row_is_of c rows.now) marked.now }
{
    marked.iter().any(|u| row_is_of(c, rows, *u))
}

/// Whether a row that is marked, other than that of `v`, is of this class.
pub fn any_other(rows: &[Row], marked: &[usize], v: usize, c: ClassId) -> bool
    ensures { result ≡ list_any (other_is_of v c rows.now) marked.now }
{
    marked.iter().any(|u| other_is_of(v, c, rows, *u))
}

/// Whether a row, if it is not that of `v`, is of this class.
pub fn other_is_of(v: usize, c: ClassId, rows: &[Row], at: usize) -> bool
    ensures { result ≡ other_is_of v c rows.now at }
{
    at != v && row_is_of(c, rows, at)
}

/// Whether a row is of this class.
pub fn row_is_of(c: ClassId, rows: &[Row], at: usize) -> bool
    ensures { result ≡ row_is_of c rows.now at }
{
    rows::is_of(c, row_at(rows, at).known)
}

/// Whether all rows of a class that are marked are listed there as of another.
pub fn covers(here: &[Row], marked: &[usize], there: &[Row], c: ClassId, d: ClassId) -> bool
    ensures { result ≡ list_all (covers_row c d here.now there.now) marked.now }
{
    marked.iter().all(|u| covers_row(c, d, here, there, *u))
}

/// Whether a row, if it is of a class, is listed there as of another.
pub fn covers_row(c: ClassId, d: ClassId, here: &[Row], there: &[Row], at: usize) -> bool
    ensures { result ≡ covers_row c d here.now there.now at }
{
    rows::covers_value(c, d, row_at(here, at).known, row_at(there, at).known)
}
