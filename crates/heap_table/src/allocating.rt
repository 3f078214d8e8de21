ghost use Rattle.std.specs.Prelude.{◌≡◌, ◌≢◌, ◌<◌, ◌≤◌, ◌^◌, Bool, ◌∷◌, length};
ghost use Rattle.colours.specs.Colours.{done};
ghost use Rattle.colours.specs.Steps.{Claim};
ghost use Rattle.colours.specs.Mutator.{stage_of, phase_of, MayFollow, IsPossibleLog};
ghost use Rattle.heap_table.specs.Allocs.{Allocates, IsPoolFrom};

use crate::heap::Heap;
use crate::mutator::Mutator;
use colours::{Ask, Place, claim_at};
use pools::LayoutId;
use std::marker::Brand;

/// The cells of a pool in the order in which a thread tries them: from `hinted` up to `end`, and then from `first` up to `hinted`.
struct Tries {
    first: u32,
    hinted: u32,
    end: u32,
}

impl<'a> Heap<'a> {
    ghost use Rattle.heap_table.specs.Holders.{IsOf, MayCall, IsNow, IsOfRun};

    /// Takes a free cell of the layout's pool, and returns 0 where each cell was tried in vain. No clause says in which order they
    /// are tried. The tries go from the place after
    /// the cell that the thread won last up to the pool's end, and then from the pool's first cell up. A cell is claimed white at
    /// the sync stages and black otherwise, as in Doligez and Gonthier (POPL 1994). The claim by one compare-exchange of the
    /// colour, without lists of free cells, is this project's own.
    #[inline(always)]
    pub fn alloc(&self, me: &mut Mutator, layout: LayoutId) -> u32
        requires token { MayCall self.now me.old }
        requires layout { layout < length me.old.setup.pools }
        ensures token { IsNow me.old me.new.log me.new × MayCall self.now me.new }
        // Each step of the call is a try, and the result is what the tries say. Nothing is said of their order.
        ensures log { Allocates me.old.setup layout me.old.log result me.new.log }
        ensures possible { IsPossibleLog me.new.setup me.new.log }
        ensures run { IsOfRun me.new }
    {
        let Tries { first, hinted, end } = self.tries(me, layout);
        for cell in hinted..end {
            if self.try_claim(me, cell) {
                me.set_hint(layout, cell + 1 - first);
                return cell;
            }
        }
        for cell in first..hinted {
            if self.try_claim(me, cell) {
                me.set_hint(layout, cell + 1 - first);
                return cell;
            }
        }
        me.is_of_run_law();
        0
    }

    #[inline(always)]
    fn tries(&self, me: &Mutator, layout: LayoutId) -> Tries
        requires token { IsOf self.now me.now }
        requires layout { layout < length me.now.setup.pools }
        ensures pool { IsPoolFrom me.now.setup layout result.first result.hinted result.end }
        ensures few { result.end ≤ 2 ^ 20 }
    {
        let first = self.pools.first_cell(layout);
        let count = self.pools.count(layout);
        Tries {
            first,
            hinted: first + me.hint(layout).min(count),
            end: first + count,
        }
    }

    /// Tries to take a free cell, once.
    #[inline(always)]
    fn try_claim(&self, me: &mut Mutator, cell: u32) -> bool
        requires token { IsOf self.now me.old }
        requires running { stage_of me.old.log ≢ done }
        requires may { (won : Bool) → MayFollow me.old.setup (stage_of me.old.log) (phase_of me.old.setup me.old.thread me.old.log) (Claim cell won) }
        ensures log { IsNow me.old (Claim cell result ∷ me.old.log) me.new }
        ensures run { IsOfRun me.new }
    {
        let ask = Ask::CompareExchange(Place::Colour(cell), 0, claim_at(me.stage));
        self.step::<Brand, u32>(me, ask, cell) == 0
    }
}
