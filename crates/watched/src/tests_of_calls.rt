ghost use Rattle.std.specs.Prelude.{ℕ, ◌≡◌, ◌≢◌, ◌<◌, ◌≤◌, ◌^◌, ◌↔◌, None, Some, IfOk, IfErr, OnOk, OnErr, IsTrue, IfSome, IfNone};
ghost use Rattle.lemmas.specs.Lists.{IsIn};
ghost use Rattle.pools.specs.Heap.{cells, kind_of, IsOfLayout};
ghost use Rattle.pools.specs.Layouts.{is_reference_kind};
ghost use Rattle.pools.specs.declared.word_kind.WordKind.TheVariants.{Reference};
ghost use Rattle.colours.specs.Mutator.{Held, Fresh, MayUse, MayStore};
ghost use Rattle.watched.specs.Reasons.{IsUseReason, IsValueReason, IsRootReason};

use crate::kinds::{fits, is_cell, is_of, kind_at};
use crate::refusal::Refusal;
use crate::watched::Watched;
use pools::{LayoutId, WordKind};

impl<'a> Watched<'a> {
    /// What a word holds, of a cell that the thread may use.
    pub(crate) fn kind(&self, cell: u32, word: u32) -> Result<WordKind, Refusal>
        ensures ok { IfOk result (λ kind. MayUse self.now.setup self.now.log cell × (kind_of self.now.setup cell word ≡ Some kind)) }
        ensures why { IfErr result (IsUseReason self.now.setup self.now.log cell word) }
        ensures breaks { OnErr result (MayUse self.now.setup self.now.log cell → kind_of self.now.setup cell word ≡ None) }
    {
        if cell != 0 && !self.known.holds(cell) {
            return Err(Refusal::NotHeld);
        }
        match kind_at(self.plan, cell, word) {
            Some(kind) => Ok(kind),
            None => Err(Refusal::NoWord),
        }
    }

    /// Whether nothing is stored without the barrier in a word of this kind of this cell: in one of references, if the cell is not fresh.
    pub(crate) fn is_barred(&self, kind: &WordKind, cell: u32) -> bool
        ensures { IsTrue result ↔ (IsTrue (is_reference_kind (Some kind.now)) × (¬ Fresh self.now.setup self.now.log cell)) }
    {
        matches!(kind, WordKind::Reference(_)) && !self.known.is_fresh(cell)
    }

    /// Why a value may not be stored in a word of this kind; None where it may.
    pub(crate) fn refused_value(&self, kind: &WordKind, value: u64) -> Option<Refusal>
        ensures none { IfNone result (MayStore self.now.setup self.now.log (Some kind.now) value) }
        ensures breaks { IfSome result (λ _. ¬ MayStore self.now.setup self.now.log (Some kind.now) value) }
        ensures why { IfSome result (λ why. (cell word : ℕ) → kind_of self.now.setup cell word ≡ Some kind.now → IsValueReason self.now.setup self.now.log cell word value why) }
    {
        match kind {
            WordKind::Integer(bits) => {
                if fits(*bits, value) {
                    None
                } else {
                    Some(Refusal::TooLarge)
                }
            }
            WordKind::Reference(layout) => self.refused_reference(*layout, value),
        }
    }

    /// Why a value may not be stored in a word of references to this layout; None where it may.
    fn refused_reference(&self, layout: LayoutId, value: u64) -> Option<Refusal>
        ensures none { IfNone result ((value ≢ 0) → Held self.now.setup self.now.log value × IsOfLayout self.now.setup layout value) }
        ensures breaks { IfSome result (λ _. (value ≢ 0) × (Held self.now.setup self.now.log value → ¬ IsOfLayout self.now.setup layout value)) }
        ensures why { IfSome result (λ why. (cell word : ℕ) → kind_of self.now.setup cell word ≡ Some (Reference layout) → IsValueReason self.now.setup self.now.log cell word value why) }
    {
        if value == 0 {
            return None;
        }
        if !self.holds(value) {
            return Some(Refusal::ValueNotHeld);
        }
        if !is_of(self.plan, layout, value as u32) {
            return Some(Refusal::OtherLayout);
        }
        None
    }

    /// Whether the thread holds the cell with this number.
    fn holds(&self, number: u64) -> bool
        ensures held { IsTrue result ↔ Held self.now.setup self.now.log number }
        ensures cell { IsTrue result → (0 < number) × (number < cells self.now.setup) }
        ensures few { cells self.now.setup ≤ 2 ^ 20 }
    {
        is_cell(self.plan, number) && self.known.holds(number as u32)
    }

    /// That each root is null or held; else the first that is not.
    pub(crate) fn are_held(&self, roots: &[u32]) -> Result<(), Refusal>
        ensures ok { OnOk result ((root : ℕ) → IsIn root roots.now → MayUse self.now.setup self.now.log root) }
        ensures why { IfErr result (IsRootReason self.now.setup self.now.log roots.now) }
    {
        for root in roots {
            if *root != 0 && !self.known.holds(*root) {
                return Err(Refusal::RootNotHeld(*root));
            }
        }
        Ok(())
    }
}
