ghost use Rattle.std.specs.Prelude.{ℕ, ◌≡◌, ◌<◌, ◌≤◌, ◌+◌, ◌⊎◌, suc, true, false, List, map, length, slice_set};
ghost use Rattle.std.specs.List.{list_any};
ghost use Rattle.shadow_stack.specs.Slots.{hop, is_same, slot_at, is_address_at, names_of, addresses_of, origin_at, AreBack, NamesAreExact};
ghost use Rattle.shadow_stack.specs.declared.draft.Origin.{Origin as AnOrigin};

use crate::draft::Origin;
use crate::slot_id::SlotId;
use items::Items;

/// Puts in the place of each name's origin what it is behind the bitcasts. The way that is followed for each name at least doubles in
/// each turn, until no name is a bitcast of another one, or only those that are bitcasts of themselves.
pub fn follow(origins: &mut Items<Origin>)
    ensures slots { map slot_at origins.new ≡ names_of origins.old }
    ensures addresses { map is_address_at origins.new ≡ addresses_of origins.old }
    ensures exact { NamesAreExact origins.old (map slot_at origins.new) }
{
    let mut reach: u128 = 1;
    while goes_on(origins.as_slice(), reach) {
        hop_each(origins);
        reach *= 2;
    }
}

/// Whether another turn may show more: fewer turns were made than there are names, and some name is a bitcast of another one.
fn goes_on(row: &[Origin], reach: u128) -> bool
    ensures on { result ≡ true → reach ≤ length row.now }
    ensures settled { result ≡ false → (length row.now < reach) ⊎ (list_any is_same row.now ≡ false) }
{
    reach <= row.len() as u128 && some_same(row)
}

/// Whether some name is a bitcast of another one.
fn some_same(row: &[Origin]) -> bool
    ensures { result ≡ list_any is_same row.now }
{
    row.iter().any(|origin| is_same(*origin))
}

fn is_same(origin: Origin) -> bool
    ensures { result ≡ is_same origin }
{
    matches!(origin, Origin::Same(_))
}

/// One hop for each name, in order: a name that was hopped before is found where it is then, so that a way may grow by more.
fn hop_each(row: &mut Items<Origin>)
    ensures { (origins : List AnOrigin) (n : ℕ) → AreBack origins n row.old → AreBack origins (n + suc n) row.new }
{
    for at in 0..row.len() {
        hop_at(row, at);
    }
}

fn hop_at(row: &mut Items<Origin>, at: usize)
    requires { at < length row.old }
    ensures { row.new ≡ slice_set row.old at (hop row.old (origin_at row.old at)) }
{
    let end = hop(row.as_slice(), origin_at(row.as_slice(), at));
    row.set(at, end);
}

fn hop(row: &[Origin], origin: Origin) -> Origin
    ensures { result ≡ hop row.now origin }
{
    match origin {
        Origin::Same(value) => origin_at(row, value.number() as usize),
        origin => origin,
    }
}

fn origin_at(row: &[Origin], at: usize) -> Origin
    ensures { result ≡ origin_at row.now at }
{
    match row.get(at) {
        Some(origin) => *origin,
        None => Origin::Nowhere,
    }
}

/// The slot that is an origin.
pub fn slot_at(origin: Origin) -> Option<SlotId>
    ensures { result ≡ slot_at origin }
{
    match origin {
        Origin::Slot(slot) => Some(slot),
        _ => None,
    }
}

/// Whether an origin is an address.
pub fn is_address_at(origin: Origin) -> bool
    ensures { result ≡ is_address_at origin }
{
    matches!(origin, Origin::Address)
}
