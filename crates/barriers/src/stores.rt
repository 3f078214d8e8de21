ghost use Rattle.std.specs.Prelude.{◌≡◌, ◌↔◌, true, OnOk, OnErr};
ghost use Rattle.barriers.specs.Stores.{may_store_plain, IsOwnCell, publish, EndsFresh};

use facts::{Facts, Known, publish_law};
use ir_ast::ValueId;
use std::alloc::AllocError;

/// Whether a reference may be stored without a barrier in the cell to which a value refers.
pub fn may_store_plain(facts: &Facts, v: ValueId) -> bool
    ensures test { result ≡ may_store_plain facts.now v }
    ensures statements { (result ≡ true) ↔ IsOwnCell facts.now v }
{
    match facts.known(v) {
        Known::Cell { class, stale, .. } => facts.class(class).fresh && !stale,
        _ => false,
    }
}

/// Goes on to the facts after a store of a value where others may find it.
pub fn after_store(facts: &mut Facts, v: ValueId) -> Result<(), AllocError>
    ensures facts { OnOk result (facts.new ≡ publish v facts.old) }
    ensures statements { OnOk result (EndsFresh v facts.old facts.new) }
    ensures err { OnErr result (facts.new ≡ facts.old) }
{
    publish_law();
    let known = facts.known(v);
    facts.drop_fresh_of(known)
}
