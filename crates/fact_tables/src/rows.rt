//! What changes in whole rows of facts.
ghost use Rattle.std.specs.Prelude.{◌≡◌, replicate, IfOk};
ghost use Rattle.fact_tables.specs.Rows.{open_slot, class_at, is_of, let_go, is_on, off_base, off_test, slot_nonnull, held_nonnull, stale_of, end_hold, holds_class};
ghost use Rattle.fact_tables.specs.SlotRows.{let_go_slot};
ghost use Rattle.fact_tables.specs.Covers.{covers_value};

use crate::class_id::ClassId;
use crate::known::{Class, Known, SlotFact, Test};
use crate::values::Values;
use ir_ast::ValueId;
use std::alloc::{AllocError, Global};

/// `count` slots of which nothing is known.
pub fn open_slots(alloc: Global, count: usize) -> Result<Vec<SlotFact>, AllocError>
    ensures { IfOk result (λ rows. rows.items ≡ replicate count open_slot) }
{
    let rows = vec![in alloc; SlotFact {
        rooted: false,
        nonnull: false,
        holds: None
    }; count]?;
    Ok(rows)
}

/// What is known of a class.
pub fn class_at(classes: &[Class], c: ClassId) -> Class
    ensures { result ≡ class_at classes.now c }
{
    match classes.get(c.number()) {
        Some(class) => *class,
        None => Class::lost(),
    }
}

/// Whether a value is known to be a reference of this class.
pub fn is_of(c: ClassId, known: Known) -> bool
    ensures { result ≡ is_of c known }
{
    match known {
        Known::Cell { class, .. } => class == c,
        _ => false,
    }
}

/// A slot does not hold the class.
pub fn let_go(c: ClassId, nonnull: bool, slot: SlotFact) -> SlotFact
    ensures { result ≡ let_go c nonnull slot }
{
    match slot.holds {
        Some(d) if d == c => SlotFact {
            nonnull: slot.nonnull || nonnull,
            holds: None,
            ..slot
        },
        _ => slot,
    }
}

/// A slot does not hold a class that has no value any more, if there is such a class.
pub fn let_go_slot(last: &Option<ClassId>, nonnull: bool, slot: SlotFact) -> SlotFact
    ensures { result ≡ let_go_slot last.now nonnull slot }
{
    match last {
        Some(c) => let_go(*c, nonnull, slot),
        None => slot,
    }
}

/// What is known of a value, unless it is an address with this base.
pub fn off_base(v: ValueId, known: Known) -> Known
    ensures { result ≡ off_base v known }
{
    let on = is_on(v, &known);
    if on { Known::Nothing } else { known }
}

fn is_on(v: ValueId, known: &Known) -> bool
    ensures { result ≡ is_on v known.now }
{
    match known {
        Known::Address { base, .. } => *base == v,
        _ => false,
    }
}

/// The comparison, unless it is of this value.
pub fn off_test(v: ValueId, test: Option<Test>) -> Option<Test>
    ensures { result ≡ off_test v test }
{
    match test {
        Some(test) if test.tested == v => None,
        _ => test,
    }
}

/// A slot holds no class.
pub fn end_hold(values: &Values, slot: SlotFact) -> SlotFact
    ensures { result ≡ end_hold values.now.classes slot }
{
    let nonnull = slot.nonnull || held_nonnull(values, &slot.holds);
    SlotFact {
        nonnull,
        holds: None,
        ..slot
    }
}

/// Whether what a slot holds is not null.
pub fn slot_nonnull(values: &Values, slot: SlotFact) -> bool
    ensures { result ≡ slot_nonnull values.now.classes slot }
{
    slot.nonnull || held_nonnull(values, &slot.holds)
}

/// Whether a reference of the class that a slot holds is not null.
pub fn held_nonnull(values: &Values, holds: &Option<ClassId>) -> bool
    ensures { result ≡ held_nonnull values.now.classes holds.now }
{
    match holds {
        Some(c) => values.class(*c).nonnull,
        None => false,
    }
}

/// A reference is stale, and of the class that its value has for itself.
pub fn stale_of(v: usize, known: Known) -> Known
    ensures { result ≡ stale_of (v, known) }
{
    match known {
        Known::Cell { layout, .. } => Known::Cell {
            class: ClassId::new(v),
            layout,
            stale: true,
        },
        _ => known,
    }
}

/// Whether this is the class that a slot holds.
pub fn holds_class(c: ClassId, holds: Option<ClassId>) -> bool
    ensures { result ≡ holds_class c holds }
{
    match holds {
        Some(d) => d == c,
        None => false,
    }
}

/// Whether a value of a class here is listed there as of another, if as a reference.
pub fn covers_value(c: ClassId, d: ClassId, here: Known, there: Known) -> bool
    ensures { result ≡ covers_value c d (here, there) }
{
    match there {
        Known::Cell { class, .. } => class == d || !is_of(c, here),
        _ => true,
    }
}
