//! Lists that are filled again, in the room that they have.
ghost use Rattle.std.specs.Prelude.{◌≡◌, ◌≤◌, ◌++◌, ◌-◌, length, replicate, take, vec_capacity, OnOk, OnErr};

use std::alloc::AllocError;

/// There is room for as many elements as another list has.
pub fn make_room<T: Copy>(list: &mut Vec<T>, other: &[T]) -> Result<(), AllocError>
    ensures items { list.new.items ≡ list.old.items }
    ensures room { OnOk result (length other.now ≤ vec_capacity list.new) }
{
    let missing = other.len().saturating_sub(list.len());
    list.reserve(missing)
}

/// The elements are those of another list, for which there is room.
pub fn refill<T: Copy>(list: &mut Vec<T>, other: &[T])
    requires { length other.now ≤ vec_capacity list.old }
    ensures { list.new.items ≡ other.now }
{
    list.clear();
    if list.extend_from_slice(other).is_err() {
        unreachable!();
    }
}

/// The first `count` elements of a list, and this one where there are fewer.
pub fn resize<T: Copy>(list: &mut Vec<T>, count: usize, filler: T) -> Result<(), AllocError>
    ensures ok { OnOk result (list.new.items ≡ take count list.old.items ++ replicate (count - length list.old.items) filler) }
    ensures err { OnErr result (list.new.items ≡ list.old.items) }
{
    list.resize(count, filler)
}
