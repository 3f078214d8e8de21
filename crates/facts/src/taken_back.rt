//! What phis changed, taken back.
ghost use Rattle.std.specs.Prelude.{◌≡◌, OnOk};
ghost use Rattle.facts.specs.Contents.{set_of};
ghost use Rattle.facts.specs.TakenBack.{DifferBy, class_back, entry_back};

use crate::contents::Contents;
use crate::entry::Entry;
use fact_tables::Known;
use std::alloc::AllocError;

impl Contents {
    /// What was known before these phis took what came in, if they changed no more than this can take back.
    pub fn take_back(&mut self, entries: &[Entry], before: &Contents) -> Result<(), AllocError>
        requires { DifferBy entries.now (set_of before.now) (set_of self.old) }
        ensures { OnOk result (set_of self.new ≡ set_of before.now) }
    {
        for entry in entries {
            self.take_back_entry(*entry, before)?;
        }
        self.values.drop_classes(&before.values);
        Ok(())
    }

    /// What is known of a phi, and of the class that came in to it, is as before.
    fn take_back_entry(&mut self, entry: Entry, before: &Contents) -> Result<(), AllocError>
        ensures { OnOk result (set_of self.new ≡ entry_back entry (set_of before.now) (set_of self.old)) }
    {
        self.set_known(entry.phi, before.values.known(entry.phi))?;
        self.take_back_class(entry.known, before)
    }

    /// The class of what came in is as before.
    fn take_back_class(&mut self, known: Known, before: &Contents) -> Result<(), AllocError>
        ensures { OnOk result (set_of self.new ≡ class_back known (set_of before.now) (set_of self.old)) }
    {
        match known {
            Known::Cell { class, .. } => self.set_class(class, before.values.class(class)),
            _ => Ok(()),
        }
    }
}
