//! The session at an address.
ghost use Rattle.std.specs.Prelude.{◌≡◌};
ghost use Rattle.dgc_c.specs.declared.kept.Kept.{Kept};
ghost use Rattle.dgc_c.specs.Owned.{kept_coded, kept_owns};

use crate::kept::Kept;
use crate::parts::Parts;
use std::alloc::Global;
use std::marker::Model;

/// The address of a session, which is owned. C holds it as `dgc_session *`.
#[repr(C)]
pub struct Held {
    pub(crate) ptr: *mut u8,
    pub(crate) alloc: Global,
    pub ghost kept: { Kept } by { kept_coded },
}

impl Model for Held {
    ghost also_owns = { λ h. kept_owns h.alloc h.ptr h.kept };
}

impl Held {
    /// The session in its box.
    pub fn into_parts(self) -> Parts<Kept, Global>
        ensures { result.value ≡ self.kept }
    {
        let Held { ptr, alloc } = self;
        Parts {
            ptr: ptr as *mut Kept,
            alloc,
        }
    }
}
