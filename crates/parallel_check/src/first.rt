//! The first fault of all shares.
ghost use Rattle.std.specs.Prelude.{◌≡◌, None, fold};
ghost use Rattle.parallel_check.specs.Shares as spec;

use block_rules::BlockFault;

/// The first of the faults that were found in each share, if there are any.
pub fn first_of(faults: Vec<Option<BlockFault>>) -> Option<BlockFault>
    ensures { result ≡ fold spec.earlier None faults.items }
{
    let mut first = None;
    for fault in faults {
        first = earlier(first, fault);
    }
    first
}

/// The first of two faults, if there are any: out of memory, or else the refusal in the earlier function.
fn earlier(one: Option<BlockFault>, other: Option<BlockFault>) -> Option<BlockFault>
    ensures { result ≡ spec.earlier one other }
{
    match (one, other) {
        (None, other) => other,
        (one, None) => one,
        (Some(BlockFault::Refused(one)), Some(BlockFault::Refused(other))) => {
            Some(BlockFault::Refused(if other.func.number() < one.func.number() {
                other
            } else {
                one
            }))
        }
        _ => Some(BlockFault::Memory),
    }
}
