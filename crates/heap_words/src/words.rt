ghost use Rattle.std.specs.Prelude.{◌≡◌, ◌<◌, ◌+◌, ◌^◌, ℕ};
ghost use Rattle.colours.specs.Steps.{place_of};
ghost use Rattle.colours.specs.declared.ask.Ask.TheVariants.{Load, Store, FetchMax, CompareExchange};
ghost use Rattle.heap_rule.specs.View.{grown};
ghost use Rattle.heap_rule.specs.Rule.{HasPlace, index, size, MayStep, Happens};
ghost use Rattle.heap_words.specs.Places.{AreStarts};

use crate::token::ActorToken;
use atomic_table::Table;
use colours::{Ask, Place};
use heap_rule::{Knowledge, Logs, OneRun, Plan, Told};
use std::alloc::Global;
use std::marker::Model;

/// The shared words of a heap: the posted stage, the stages of the threads, and the colour and the words of each cell.
#[derive(Drop)]
pub struct SharedWords<'a> {
    pub(crate) table: Table<(), Knowledge, Plan<'a>, OneRun, Global>,
    pub(crate) plan: Plan<'a>,
    /// Where each cell begins, and where the table ends.
    pub(crate) starts: Vec<usize>,
}

impl<'a> Model for SharedWords<'a> {
    ghost use Rattle.heap_words.specs.Tokens.{Shared};

    ghost Value = { Shared };

    ghost use Rattle.heap_words.specs.WordsView.{shared_in, IsKept};

    ghost view = { shared_in };

    ghost invariant = { IsKept };
}

impl<'a> SharedWords<'a> {
    ghost use Rattle.heap_words.specs.Tokens.{IsOf, IsNow};

    /// Makes one operation on one word, as a step of the token's actor. Returns what the word held before; of a store, what was
    /// stored. The caller picks the step, and `about` is what that pick may speak of.
    #[inline(always)]
    pub fn perform<J: Told, X: Copy>(&self, token: &mut ActorToken, ask: Ask, about: X) -> u64
        requires token { IsOf self.now token.old }
        requires place { HasPlace self.now.setup (place_of ask) }
        requires may { MayStep self.now.setup token.old.share J.event ask }
        ensures token { IsNow token.old (grown (J.event result) token.old.share) token.new }
        ensures happens { Happens self.now.setup token.old.share (J.event result) }
    {
        let _ = about;
        match ask {
            Ask::Load(place) => self.load::<J>(token, place),
            Ask::Store(place, value) => self.store::<J>(token, place, value),
            Ask::FetchMax(place, value) => self.fetch_max::<J>(token, place, value),
            Ask::CompareExchange(place, old, new) => self.compare_exchange::<J>(
                token, place, old, new,
            ),
        }
    }

    #[inline(always)]
    fn load<J: Told>(&self, token: &mut ActorToken, place: Place) -> u64
        requires token { IsOf self.now token.old }
        requires place { HasPlace self.now.setup place }
        requires may { MayStep self.now.setup token.old.share J.event (Load place) }
        ensures token { IsNow token.old (grown (J.event result) token.old.share) token.new }
        ensures happens { Happens self.now.setup token.old.share (J.event result) }
    {
        let at = self.index(place);
        self.table.shared.load::<Logs<J>>(&mut token.seat, at)
    }

    #[inline(always)]
    fn store<J: Told>(&self, token: &mut ActorToken, place: Place, value: u64) -> u64
        requires token { IsOf self.now token.old }
        requires place { HasPlace self.now.setup place }
        requires may { MayStep self.now.setup token.old.share J.event (Store place value) }
        ensures token { IsNow token.old (grown (J.event result) token.old.share) token.new }
        ensures happens { Happens self.now.setup token.old.share (J.event result) }
    {
        let at = self.index(place);
        self.table
            .shared
            .store::<Logs<J>>(&mut token.seat, at, value);
        value
    }

    #[inline(always)]
    fn fetch_max<J: Told>(&self, token: &mut ActorToken, place: Place, value: u64) -> u64
        requires token { IsOf self.now token.old }
        requires place { HasPlace self.now.setup place }
        requires may { MayStep self.now.setup token.old.share J.event (FetchMax place value) }
        ensures token { IsNow token.old (grown (J.event result) token.old.share) token.new }
        ensures happens { Happens self.now.setup token.old.share (J.event result) }
    {
        let at = self.index(place);
        self.table
            .shared
            .fetch_max::<Logs<J>>(&mut token.seat, at, value)
    }

    #[inline(always)]
    fn compare_exchange<J: Told>(
        &self,
        token: &mut ActorToken,
        place: Place,
        old: u64,
        new: u64,
    ) -> u64
        requires token { IsOf self.now token.old }
        requires place { HasPlace self.now.setup place }
        requires may { MayStep self.now.setup token.old.share J.event (CompareExchange place old new) }
        ensures token { IsNow token.old (grown (J.event result) token.old.share) token.new }
        ensures happens { Happens self.now.setup token.old.share (J.event result) }
    {
        let at = self.index(place);
        self.table
            .shared
            .compare_exchange::<Logs<J>>(&mut token.seat, at, old, new)
    }

    /// Where a word lies in the table.
    #[inline(always)]
    fn index(&self, place: Place) -> usize
        requires { HasPlace self.now.setup place }
        ensures place { result ≡ index self.now.setup place }
        ensures within { result < size self.now.setup }
    {
        index_of(&self.plan, &self.starts, place)
    }
}

/// Where a word lies in the table, by where each cell begins. The plan is for the contract alone.
#[inline(always)]
pub(crate) fn index_of(_plan: &Plan<'_>, starts: &Vec<usize>, place: Place) -> usize
    requires starts { AreStarts _plan.now starts.now.items }
    requires small { size _plan.now < 2 ^ 63 }
    requires place { HasPlace _plan.now place }
    ensures place { result ≡ index _plan.now place }
    ensures within { result < size _plan.now }
{
    match place {
        Place::Posted => 0,
        Place::Stage(thread) => thread + 1,
        Place::Colour(cell) => starts[cell as usize],
        Place::Word(cell, word) => starts[cell as usize] + word as usize + 1,
    }
}
