//! New heaps, with their tokens.
ghost use Rattle.std.specs.Prelude.{◌≡◌, ◌<◌, ◌^◌, [], ◌∷◌, true, false, length, IfSome};
ghost use Rattle.pools.specs.Heap.{IsSetup};
ghost use Rattle.pools.specs.declared.word_kind.WordKind.TheVariants.{Reference};
ghost use Rattle.heap_table.specs.Holders.{MayCall, MayBegin};
ghost use Rattle.heap_table.specs.Opening.{AreNew};
ghost use Rattle.heap_table.specs.Sweepers.{IsSweeperOf};

use heap_table::{Heap, Mutator, Plan, Sweeper};
use items::Items;
use pools::{LayoutId, Layouts, Pools, WordKind};
use std::alloc::Global;

/// The only layout of each heap here.
pub fn the_layout() -> LayoutId
    ensures { result ≡ 0 }
{
    LayoutId::new(0)
}

/// It has no words.
pub fn one_layout(alloc: Global) -> Option<Layouts>
    ensures { IfSome result (λ layouts. layouts ≡ [] ∷ []) }
{
    let mut layouts = Layouts::new(alloc);
    match layouts.push(Items::new(alloc)) {
        Ok(()) => Some(layouts),
        Err(_) => None,
    }
}

/// A pool of cells of the only layout.
pub fn pool_of(alloc: Global, layouts: &Layouts, cells: u32) -> Option<Pools>
    requires { layouts.now ≡ [] ∷ [] }
    ensures { IfSome result (λ pools. pools ≡ cells ∷ []) }
{
    match Pools::new(alloc, layouts, &[cells]) {
        Ok(pools) => Some(pools),
        Err(_) => None,
    }
}

/// The only layout, and a pool of cells of it.
pub fn ground(alloc: Global, cells: u32) -> Option<(Layouts, Pools)>
    ensures layouts { IfSome result (λ made. made.0 ≡ [] ∷ []) }
    ensures pools { IfSome result (λ made. made.1 ≡ cells ∷ []) }
{
    let layouts = one_layout(alloc)?;
    let pools = pool_of(alloc, &layouts, cells)?;
    Some((layouts, pools))
}

/// No globals.
pub fn no_globals() -> [WordKind; 0]
    ensures { result ≡ [] }
{
    []
}

/// A global that is a reference.
pub fn one_reference() -> [WordKind; 1]
    ensures { result ≡ Reference 0 ∷ [] }
{
    [WordKind::Reference(the_layout())]
}

/// Two of them.
pub fn two_references() -> [WordKind; 2]
    ensures { result ≡ Reference 0 ∷ Reference 0 ∷ [] }
{
    [
        WordKind::Reference(the_layout()),
        WordKind::Reference(the_layout()),
    ]
}

/// A heap whose globals are null.
fn plan_of<'a>(
    pools: &'a Pools,
    layouts: &'a Layouts,
    globals: &'a [WordKind],
    threads: usize,
    late: &'a [bool],
) -> Plan<'a>
    ensures plan { result ≡ record { threads = threads; late = late.now; layouts = layouts.now; pools = pools.now; globals = globals.now; values = [] } }
    ensures setup { IsSetup result }
{
    Plan {
        pools,
        layouts,
        globals,
        values: &[],
        threads,
        late,
    }
}

/// A new heap with at most two globals, which are null, and the tokens of its threads and of its collector.
pub fn open<'a>(
    alloc: Global,
    layouts: &'a Layouts,
    pools: &'a Pools,
    globals: &'a [WordKind],
    threads: u32,
    late: &'a [bool],
) -> Option<(Heap<'a>, Vec<Mutator>, Sweeper<'a>)>
    requires { layouts.now ≡ [] ∷ [] }
    ensures late { IfSome result (λ made. made.0.setup.late ≡ late.now) }
    ensures pools { IfSome result (λ made. made.0.setup.pools ≡ pools.now) }
    ensures globals { IfSome result (λ made. made.0.setup.globals ≡ globals.now) }
    ensures threads { IfSome result (λ made. made.0.setup.threads ≡ threads) }
    ensures tokens { IfSome result (λ made. (length made.1.items ≡ threads) × AreNew made.0 0 made.1.items) }
    ensures sweeper { IfSome result (λ made. IsSweeperOf made.0 made.2) }
{
    if globals.len() > 2 {
        return None;
    }
    let plan = plan_of(pools, layouts, globals, threads as usize, late);
    match Heap::new(alloc, plan) {
        Ok(opened) => Some(opened),
        Err(_) => None,
    }
}

/// A new heap for one thread, which is not late, with its token and that of the collector.
pub fn open_for_one<'a>(
    alloc: Global,
    layouts: &'a Layouts,
    pools: &'a Pools,
    globals: &'a [WordKind],
) -> Option<(Heap<'a>, Mutator, Sweeper<'a>)>
    requires { layouts.now ≡ [] ∷ [] }
    ensures pools { IfSome result (λ made. made.0.setup.pools ≡ pools.now) }
    ensures globals { IfSome result (λ made. made.0.setup.globals ≡ globals.now) }
    ensures token { IfSome result (λ made. MayCall made.0 made.1) }
    ensures log { IfSome result (λ made. made.1.log ≡ []) }
    ensures sweeper { IfSome result (λ made. IsSweeperOf made.0 made.2) }
{
    let (heap, mut mutators, sweeper) = open(alloc, layouts, pools, globals, 1, &[])?;
    let token = last_token(&heap, &mut mutators);
    drop(mutators);
    match token {
        Some(me) => Some((heap, me, sweeper)),
        None => {
            drop(sweeper);
            drop(heap);
            None
        }
    }
}

/// The last of the tokens, where no thread is late.
pub fn last_token(heap: &Heap<'_>, mutators: &mut Vec<Mutator>) -> Option<Mutator>
    requires present { heap.now.setup.late ≡ [] }
    requires tokens { AreNew heap.now 0 mutators.old.items }
    ensures tokens { AreNew heap.now 0 mutators.new.items }
    ensures token { IfSome result (MayCall heap.now) }
    ensures log { IfSome result (λ token. token.log ≡ []) }
{
    let token = mutators.pop()?;
    Some(token)
}

/// The last two of them, the second one last.
pub fn two_tokens(heap: &Heap<'_>, mutators: &mut Vec<Mutator>) -> Option<(Mutator, Mutator)>
    requires present { heap.now.setup.late ≡ [] }
    requires tokens { AreNew heap.now 0 mutators.old.items }
    ensures { IfSome result (λ tokens. MayCall heap.now tokens.0 × MayCall heap.now tokens.1) }
{
    let second = last_token(heap, mutators)?;
    let first = last_token(heap, mutators)?;
    Some((first, second))
}

/// The token of the only thread, which is late.
pub fn late_token(heap: &Heap<'_>, mutators: &mut Vec<Mutator>) -> Option<Mutator>
    requires late { heap.now.setup.late ≡ true ∷ [] }
    requires one { length mutators.old.items ≡ 1 }
    requires tokens { AreNew heap.now 0 mutators.old.items }
    ensures token { IfSome result (MayBegin heap.now) }
{
    mutators.pop()
}

/// The tokens of two threads, of which the second is late.
pub fn present_and_late(heap: &Heap<'_>, mutators: &mut Vec<Mutator>) -> Option<(Mutator, Mutator)>
    requires late { heap.now.setup.late ≡ false ∷ true ∷ [] }
    requires two { length mutators.old.items ≡ 2 }
    requires tokens { AreNew heap.now 0 mutators.old.items }
    ensures { IfSome result (λ tokens. MayCall heap.now tokens.0 × MayBegin heap.now tokens.1) }
{
    let late = mutators.pop()?;
    let first = mutators.pop()?;
    Some((first, late))
}
