//! How the words of a heap begin.
ghost use Rattle.std.specs.Prelude.{◌≡◌, ◌+◌, ◌<◌, ◌^◌, ℕ, [], length, slice_index, IfOk, All};
ghost use Rattle.pools.specs.Heap.{IsSetup, cells, words_of_cell};
ghost use Rattle.heap_rule.specs.View.{OfCollector};
ghost use Rattle.heap_rule.specs.Rule.{size, dealing};
ghost use Rattle.heap_words.specs.Places.{AreStarts};
ghost use Rattle.heap_words.specs.Opening.{opening_word, stage_at_start};

use crate::token::ActorToken;
use crate::words::SharedWords;
use atomic_table::{Seat, Table};
use colours::DONE;
use heap_rule::{Deals, Knowledge, Plan};
use std::alloc::{AllocError, Global};

impl<'a> SharedWords<'a> {
    ghost use Rattle.heap_words.specs.Tokens.{IsOf, IsFresh, AreFresh};

    /// The words of a heap that is set up so, with a token for each thread, in their order, and one for the collector.
    pub fn new(
        alloc: Global,
        plan: Plan<'a>,
    ) -> Result<(SharedWords<'a>, Vec<ActorToken>, ActorToken), AllocError>
        requires setup { IsSetup plan }
        requires threads { plan.threads < 2 ^ 32 }
        requires globals { length plan.globals < 2 ^ 32 }
        requires words { All (λ words. length words < 2 ^ 32) plan.layouts }
        ensures words { IfOk result (λ m. m.0.setup ≡ plan.entry) }
        ensures threads { IfOk result (λ m. (length m.1.items ≡ plan.entry.threads) × AreFresh m.0 0 m.1.items) }
        ensures collector { IfOk result (λ m. IsOf m.0 m.2 × (m.2.share ≡ OfCollector [])) }
    {
        let threads = plan.threads;
        is_small(&plan);
        let mut tokens = Vec::with_capacity(alloc, threads)?;
        let starts = starts_of(alloc, &plan)?;
        let (words, mut seat) = SharedWords::open(alloc, plan, starts)?;
        for thread in 0..threads {
            let token = words.deal(&mut seat, thread);
            tokens.push(token)?;
        }
        let collector = ActorToken { seat };
        Ok((words, tokens, collector))
    }

    /// The words, and a seat from which all tokens are dealt out.
    fn open(
        alloc: Global,
        plan: Plan<'a>,
        starts: Vec<usize>,
    ) -> Result<(SharedWords<'a>, Seat<(), Knowledge>), AllocError>
        requires setup { IsSetup plan }
        requires starts { AreStarts plan starts.items }
        requires small { size plan < 2 ^ 63 }
        ensures words { IfOk result (λ m. m.0.setup ≡ plan.entry) }
        ensures seat { IfOk result (λ m. (m.1.table_id ≡ m.0.table) × (m.1.me ≡ (dealing plan.entry 0, []))) }
    {
        let opening = opening_words(alloc, &plan, starts[plan.pools.cells() as usize])?;
        let (table, seat) = Table::of_words(alloc, &opening, &plan)?;
        let words = SharedWords {
            table,
            plan,
            starts,
        };
        Ok((words, seat))
    }

    /// The next thread's token.
    fn deal(&self, seat: &mut Seat<(), Knowledge>, thread: usize) -> ActorToken
        requires seat { (seat.old.table_id ≡ self.now.table) × (seat.old.me ≡ (dealing self.now.setup thread, [])) }
        requires thread { thread < self.now.setup.threads }
        ensures seat { (seat.new.table_id ≡ seat.old.table_id) × (seat.new.me ≡ (dealing self.now.setup (thread + 1), [])) }
        ensures token { IsFresh self.now thread result }
    {
        let seat = self.table.shared.split_seat::<Deals>(seat);
        ActorToken { seat }
    }
}

/// Each place of the table is a number of the machine.
fn is_small(plan: &Plan<'_>)
    requires threads { plan.now.threads < 2 ^ 32 }
    requires globals { length plan.now.globals < 2 ^ 32 }
    requires words { All (λ words. length words < 2 ^ 32) plan.now.layouts }
    ensures { size plan.now < 2 ^ 63 }
{
    let _cells = plan.pools.cells();
}

/// Where each cell begins, and where the table ends.
fn starts_of(alloc: Global, plan: &Plan<'_>) -> Result<Vec<usize>, AllocError>
    requires { size plan.now < 2 ^ 63 }
    ensures { IfOk result (λ starts. AreStarts plan.now starts.items) }
{
    let cells = plan.pools.cells();
    let mut starts = Vec::with_capacity(alloc, cells as usize + 1)?;
    let mut next = plan.threads + 1;
    for cell in 0..cells {
        starts.push(next)?;
        next += count_words(plan, cell) + 1;
    }
    starts.push(next)?;
    Ok(starts)
}

/// How many words a cell has, its colour not counted.
fn count_words(plan: &Plan<'_>, cell: u32) -> usize
    requires { cell < cells plan.now }
    ensures { result ≡ length (words_of_cell plan.now cell) }
{
    if cell == 0 {
        return plan.globals.len();
    }
    plan.layouts.words(plan.pools.pool_of(cell)).len()
}

/// The words of the table at the start.
fn opening_words(alloc: Global, plan: &Plan<'_>, count: usize) -> Result<Vec<u64>, AllocError>
    ensures count { IfOk result (λ words. length words.items ≡ count) }
    ensures words { IfOk result (λ words. (at : ℕ) → at < count → slice_index words.items at ≡ opening_word plan.now at) }
{
    let mut words = Vec::with_capacity(alloc, count)?;
    for at in 0..count {
        words.push(opening_word(plan, at))?;
    }
    Ok(words)
}

/// What a place of the table holds at the start.
fn opening_word(plan: &Plan<'_>, at: usize) -> u64
    ensures { result ≡ opening_word plan.now at }
{
    if at == 0 {
        return 0;
    }
    let after = at - 1;
    if after < plan.threads {
        return stage_at_start(plan, after);
    }
    if after == plan.threads {
        return 1;
    }
    plan.values
        .get(after - plan.threads - 1)
        .copied()
        .unwrap_or(0)
}

/// The stage word of a thread at the start. A late thread is absent: its word is `DONE`.
fn stage_at_start(plan: &Plan<'_>, thread: usize) -> u64
    ensures { result ≡ stage_at_start plan.now thread }
{
    if plan.late.get(thread).copied().unwrap_or(false) {
        DONE
    } else {
        0
    }
}
