ghost use Rattle.std.specs.Prelude.{◌≡◌, ◌<◌, length, map, slice_get, Some};
ghost use Rattle.machine.specs.Machine.{slot_value};

use crate::memory::slot_value;
use crate::value::Value;
use shadow_stack::SlotId;
use std::marker::Model;

/// The values of the gcroot slots of a frame, in the order of the gcroot calls.
#[derive(Drop)]
pub struct FrameRoots<'a> {
    roots: &'a [SlotId],
    slots: &'a [Value],
}

impl<'a> Model for FrameRoots<'a> {
    ghost use Rattle.std.specs.Prelude.{List, map};
    ghost use Rattle.machine.specs.Machine.{slot_value};
    ghost use Rattle.machine.specs.declared.value.Value.{Value as AValue};

    ghost Value = { List AValue };

    ghost view = { λ own. map (slot_value own.slots.now) own.roots.now };
}

impl<'a> FrameRoots<'a> {
    /// What a frame's slots hold in these of them.
    pub(crate) fn new(roots: &'a [SlotId], slots: &'a [Value]) -> Self
        ensures { result ≡ map (slot_value slots.now) roots.now }
    {
        FrameRoots { roots, slots }
    }

    /// How many there are.
    pub fn len(&self) -> usize
        ensures { result ≡ length self.now }
    {
        self.roots.len()
    }

    /// One of them.
    pub fn value(&self, place: usize) -> Value
        requires { place < length self.now }
        ensures { slice_get self.now place ≡ Some result }
    {
        slot_value(self.slots, self.roots[place])
    }
}
