ghost use Rattle.std.specs.Prelude.{ℕ, ◌≡◌, ◌<◌, ◌^◌, ◌↔◌, Some, List, IsTrue, IfSome, IfNone};
ghost use Rattle.pools.specs.Heap.{Setup, cells, IsOfLayout};
ghost use Rattle.pools.specs.Layouts.{is_reference_kind};
ghost use Rattle.pools.specs.declared.word_kind.WordKind.TheVariants.{Reference};
ghost use Rattle.colours.specs.Steps.{Step};
ghost use Rattle.colours.specs.Mutator.{MayUse, MayStore, IsDisciplined};
ghost use Rattle.watch.specs.Knows.{Knows};
ghost use Rattle.record_text.specs.Records.{step_with};
ghost use Rattle.conform.specs.Rules.{AsksOfStep};
ghost use Rattle.conform.specs.Discipline.{IsWordRule, IsBarrieredRule, IsPlainRule, IsRootRule};

use crate::rule::Rule;
use heap_rule::Plan;
use pools::{LayoutId, WordKind};
use record_text::ThreadStep;
use run_words::RunWords;
use watch::Holdings;

/// The rule of the discipline that a thread's step breaks, if there is one.
pub fn broken_rule(
    plan: &Plan<'_>,
    words: &RunWords<'_>,
    holdings: &Holdings,
    step: ThreadStep,
    roots: &[u32],
) -> Option<Rule>
    requires heap { words.now.heap ≡ plan.now }
    requires known { (log : List Step) × Knows plan.now log holdings.now }
    ensures none { (log : List Step) → Knows plan.now log holdings.now → IfNone result (IsDisciplined plan.now log (step_with roots.now step)) }
    ensures some { (thread : ℕ) (log : List Step) → Knows plan.now log holdings.now → IfSome result (λ rule. ¬ AsksOfStep rule plan.now thread log (step_with roots.now step)) }
{
    match step {
        ThreadStep::ReadWord(cell, word, _) => rule_of_word(words, holdings, cell, word, false),
        ThreadStep::ReadOldValue(cell, word, _) => rule_of_word(words, holdings, cell, word, true),
        ThreadStep::Mark(cell) => if holdings.holds(cell) {
            None
        } else {
            Some(Rule::NotHeld)
        },
        ThreadStep::StoreAfterBarrier(cell, word, value) => rule_of_barriered(
            plan, words, holdings, cell, word, value,
        ),
        ThreadStep::StorePlain(cell, word, value) => rule_of_plain(
            plan, words, holdings, cell, word, value,
        ),
        ThreadStep::StoreStage(_) => rule_of_roots(holdings, roots),
        ThreadStep::Claim(_, _)
        | ThreadStep::ReadPosted(_)
        | ThreadStep::ReadPostedFirst(_)
        | ThreadStep::EnterStage(_)
        | ThreadStep::ReadPostedAgain(_) => None,
    }
}

/// Whether a step may be made on the cell: it is that of the globals, or the thread holds it.
fn may_use(holdings: &Holdings, cell: u32) -> bool
    ensures { (s : Setup) (log : List Step) → Knows s log holdings.now → IsTrue result ↔ MayUse s log cell }
{
    cell == 0 || holdings.holds(cell)
}

/// Of a read, or of a barriered store: its cell and its word.
fn rule_of_word(
    words: &RunWords<'_>,
    holdings: &Holdings,
    cell: u32,
    word: u32,
    is_barriered: bool,
) -> Option<Rule>
    requires known { (log : List Step) × Knows words.now.heap log holdings.now }
    ensures { (log : List Step) → Knows words.now.heap log holdings.now → IsWordRule words.now.heap log cell word is_barriered result }
{
    if !may_use(holdings, cell) {
        return Some(Rule::NotHeld);
    }
    match words.kind(cell, word) {
        None => Some(Rule::Word),
        Some(WordKind::Integer(_)) => if is_barriered { Some(Rule::Word) } else { None },
        Some(WordKind::Reference(_)) => None,
    }
}

/// Of a barriered store.
fn rule_of_barriered(
    plan: &Plan<'_>,
    words: &RunWords<'_>,
    holdings: &Holdings,
    cell: u32,
    word: u32,
    value: u64,
) -> Option<Rule>
    requires heap { words.now.heap ≡ plan.now }
    requires known { (log : List Step) × Knows plan.now log holdings.now }
    ensures { (log : List Step) → Knows plan.now log holdings.now → IsBarrieredRule plan.now log cell word value result }
{
    if !may_use(holdings, cell) {
        return Some(Rule::NotHeld);
    }
    let Some(kind) = words.kind(cell, word) else {
        return Some(Rule::Word);
    };
    if !is_reference(&kind) {
        return Some(Rule::Word);
    }
    if !may_store(plan, holdings, &kind, value) {
        return Some(Rule::StoredValue);
    }
    None
}

/// Of a plain store.
fn rule_of_plain(
    plan: &Plan<'_>,
    words: &RunWords<'_>,
    holdings: &Holdings,
    cell: u32,
    word: u32,
    value: u64,
) -> Option<Rule>
    requires heap { words.now.heap ≡ plan.now }
    requires known { (log : List Step) × Knows plan.now log holdings.now }
    ensures { (log : List Step) → Knows plan.now log holdings.now → IsPlainRule plan.now log cell word value result }
{
    if !may_use(holdings, cell) {
        return Some(Rule::NotHeld);
    }
    let Some(kind) = words.kind(cell, word) else {
        return Some(Rule::Word);
    };
    if is_reference(&kind) && !holdings.is_fresh(cell) {
        return Some(Rule::NotFresh);
    }
    if !may_store(plan, holdings, &kind, value) {
        return Some(Rule::StoredValue);
    }
    None
}

/// Whether a word of this kind holds references.
fn is_reference(kind: &WordKind) -> bool
    ensures { result ≡ is_reference_kind (Some kind.now) }
{
    matches!(kind, WordKind::Reference(_))
}

/// Whether a value may be stored in a word of this kind.
fn may_store(plan: &Plan<'_>, holdings: &Holdings, kind: &WordKind, value: u64) -> bool
    requires { (log : List Step) × Knows plan.now log holdings.now }
    ensures { (log : List Step) → Knows plan.now log holdings.now → IsTrue result ↔ MayStore plan.now log (Some kind.now) value }
{
    match kind {
        WordKind::Integer(bits) => fits(*bits, value),
        WordKind::Reference(layout) => may_refer(plan, holdings, *layout, value),
    }
}

/// Whether a number fits a word of this many bits.
fn fits(bits: u32, number: u64) -> bool
    ensures { IsTrue result ↔ (number < 2 ^ bits) }
{
    bits >= u64::BITS || number >> bits == 0
}

/// Whether a reference may be stored in a word for this layout: it is null, or the thread holds its cell, which is of that layout.
fn may_refer(plan: &Plan<'_>, holdings: &Holdings, layout: LayoutId, value: u64) -> bool
    requires { (log : List Step) × Knows plan.now log holdings.now }
    ensures { (log : List Step) → Knows plan.now log holdings.now → IsTrue result ↔ MayStore plan.now log (Some (Reference layout)) value }
{
    if value == 0 {
        return true;
    }
    if value >= u64::from(plan.pools.cells()) {
        return false;
    }
    let cell = value as u32;
    holdings.holds(cell) && is_of(plan, layout, cell)
}

/// Whether a cell is one of this layout.
#[tactic(auto, unfolding(pools::specs::Heap::layout_of))]
fn is_of(plan: &Plan<'_>, layout: LayoutId, cell: u32) -> bool
    requires some { 0 < cell }
    requires cell { cell < cells plan.now }
    ensures { IsTrue result ↔ IsOfLayout plan.now layout cell }
{
    plan.pools.pool_of(cell).number() == layout.number()
}

/// Of the roots that an answer names.
fn rule_of_roots(holdings: &Holdings, roots: &[u32]) -> Option<Rule>
    ensures { (s : Setup) (log : List Step) → Knows s log holdings.now → IsRootRule s log roots.now result }
{
    for root in roots {
        if !may_use(holdings, *root) {
            return Some(Rule::RootNotHeld);
        }
    }
    None
}
