ghost use Rattle.std.specs.Prelude.{◌≡◌, OnOk, Some};
ghost use Rattle.facts.specs.Facts.{drop_fresh_of};
ghost use Rattle.block_rules.specs.Operands.{known_of};
ghost use Rattle.type_kinds.specs.WantedWords.{holds_wanted, each_word, first_layout, layout_of_word, cell_words, loads_words, loads_word, wanted_by_store};
ghost use Rattle.block_rules.specs.Places.{loads_slot, moves_kind, moves, loads_base, loads_known, may_load, is_one_layout, wanted_by_value, fits_words, stores_base, fits_word, stores_word, stores_known, stores_slot, may_store, define_held, load_kind, define_given, load_words, load_base, load_word, load_known, load_place, after_load, after_store};

use crate::context::RuleContext;
use crate::operands::{
    is_null_constant, known_fits, known_of, outside_known, place_known, slot_named,
};
use facts::{Class, Facts, Known};
use ir_ast::{Module, Operand, TypeId, ValueId};
use layout::{Program, global_word};
use pools::{LayoutId, Layouts, WordKind, WordSet};
use shadow_stack::SlotId;
use std::alloc::AllocError;
use type_kinds::{
    TypeKind, WantedWord, each_word, first_layout, holds_wanted, layout_of_word, loads_word,
    loads_words, wanted_by_store,
};
use types::is_opaque;

fn loads_slot(module: &Module, written: TypeId, held: Option<TypeId>) -> bool
    ensures { result ≡ loads_slot «module».now written held }
{
    match held {
        Some(held) => {
            written == held
                || (TypeKind::of(module, written).is_any_reference() && !is_opaque(module, written))
        }
        None => false,
    }
}

fn moves_kind(same: bool, written: TypeKind, held: TypeKind) -> bool
    ensures { result ≡ moves_kind same written held }
{
    match held {
        TypeKind::Bits(_) => same,
        TypeKind::Reference(_) => same || written.is_any_reference(),
        _ => false,
    }
}

fn moves(module: &Module, written: TypeId, held: Option<TypeId>, kind: TypeKind) -> bool
    ensures { result ≡ moves «module».now written held kind }
{
    match held {
        Some(held) => moves_kind(written == held, TypeKind::of(module, written), kind),
        None => false,
    }
}

fn loads_base(program: &Program, kind: TypeKind, words: &WordSet, base: &Known) -> bool
    ensures { result ≡ loads_base program.now kind words.now base.now }
{
    match base {
        Known::Cell { layout, .. } => loads_words(program.layouts(), *layout, words, kind),
        _ => true,
    }
}

/// Whether a load of this kind may be from what is known of a place.
pub fn loads_known(program: &Program, facts: &Facts, kind: TypeKind, place: &Known) -> bool
    ensures { result ≡ loads_known program.now facts.now kind place.now }
{
    match place {
        Known::Nothing => true,
        Known::Address { base, words } => loads_base(program, kind, words, &facts.known(*base)),
        Known::GlobalAddress(symbol) => {
            let word = global_word(program.module(), *symbol);
            loads_word(kind, &word)
        }
        _ => false,
    }
}

/// Whether a load of this type may be from a place, of which this is known.
pub fn may_load(
    context: &RuleContext,
    facts: &Facts,
    loaded: TypeId,
    place: &Operand,
    known: &Known,
) -> bool
    ensures { result ≡ may_load context.now.program.now context.now.slots.now facts.now loaded place.now known.now }
{
    match place {
        Operand::Constant(constant) => is_null_constant(*constant),
        Operand::Local(v) => match context.slots.slot_of(*v) {
            Some(s) => loads_slot(context.module(), loaded, context.slots.held_type(s)),
            None => {
                let kind = TypeKind::of(context.module(), loaded);
                loads_known(context.program, facts, kind, known)
            }
        },
        _ => {
            let kind = TypeKind::of(context.module(), loaded);
            loads_known(context.program, facts, kind, known)
        }
    }
}

/// Whether a store by `ptr` finds references of one layout, as a load does.
pub fn is_one_layout(context: &RuleContext, facts: &Facts, stored: TypeId, place: &Known) -> bool
    ensures { result ≡ is_one_layout context.now.program.now facts.now stored place.now }
{
    if !is_opaque(context.module(), stored) {
        return true;
    }
    let kind = TypeKind::of(context.module(), stored);
    loads_known(context.program, facts, kind, place)
}

fn wanted_by_value(value: &Known) -> Option<WantedWord>
    ensures { result ≡ wanted_by_value value.now }
{
    match value {
        Known::Nothing => None,
        Known::Number { bits, .. } => Some(WantedWord::Integer(*bits)),
        Known::Cell { layout, .. } => Some(WantedWord::Reference(*layout)),
        Known::Null => Some(WantedWord::AnyReference),
        Known::Address { .. } | Known::GlobalAddress(_) => Some(WantedWord::Nothing),
    }
}

fn fits_words(
    layouts: &Layouts,
    layout: LayoutId,
    words: &WordSet,
    wanted: Option<WantedWord>,
) -> bool
    ensures { result ≡ fits_words layouts.now layout words.now wanted }
{
    match wanted {
        None => true,
        Some(wanted) => each_word(&wanted, layouts, layout, words),
    }
}

fn stores_base(
    program: &Program,
    kind: TypeKind,
    value: &Known,
    words: &WordSet,
    base: &Known,
) -> bool
    ensures { result ≡ stores_base program.now kind value.now words.now base.now }
{
    match base {
        Known::Cell { layout, .. } => {
            each_word(&wanted_by_store(kind), program.layouts(), *layout, words)
                && fits_words(program.layouts(), *layout, words, wanted_by_value(value))
        }
        _ => true,
    }
}

fn fits_word(word: Option<WordKind>, wanted: Option<WantedWord>) -> bool
    ensures { result ≡ fits_word word wanted }
{
    match wanted {
        None => true,
        Some(wanted) => holds_wanted(wanted, word),
    }
}

fn stores_word(kind: TypeKind, value: &Known, word: &Option<WordKind>) -> bool
    ensures { result ≡ stores_word kind value.now word.now }
{
    holds_wanted(wanted_by_store(kind), *word) && fits_word(*word, wanted_by_value(value))
}

/// Whether a store of this kind may put what is known of a value at what is known of a place.
pub fn stores_known(
    program: &Program,
    facts: &Facts,
    kind: TypeKind,
    value: &Known,
    place: &Known,
) -> bool
    ensures { result ≡ stores_known program.now facts.now kind value.now place.now }
{
    match place {
        Known::Nothing => true,
        Known::Address { base, words } => {
            stores_base(program, kind, value, words, &facts.known(*base))
        }
        Known::GlobalAddress(symbol) => {
            let word = global_word(program.module(), *symbol);
            stores_word(kind, value, &word)
        }
        _ => false,
    }
}

fn stores_slot(context: &RuleContext, stored: TypeId, value: &Known, s: SlotId) -> bool
    ensures { result ≡ stores_slot context.now.program.now.of_module context.now.slots.now stored value.now s }
{
    moves(
        context.module(),
        stored,
        context.slots.held_type(s),
        TypeKind::of_slot(context.module(), context.slots, s),
    ) && known_fits(TypeKind::of_slot(context.module(), context.slots, s), value)
}

/// Whether a value may be stored at a place, of which this is known.
pub fn may_store(
    context: &RuleContext,
    facts: &Facts,
    stored: TypeId,
    value: &Known,
    place: &Operand,
    known: &Known,
) -> bool
    ensures { result ≡ may_store context.now.program.now context.now.slots.now facts.now stored value.now place.now known.now }
{
    match place {
        Operand::Constant(constant) => {
            is_null_constant(*constant) && TypeKind::of(context.module(), stored).is_word()
        }
        Operand::Local(v) => match context.slots.slot_of(*v) {
            Some(s) => stores_slot(context, stored, value, s),
            None => {
                let kind = TypeKind::of(context.module(), stored);
                stores_known(context.program, facts, kind, value, known)
            }
        },
        _ => {
            let kind = TypeKind::of(context.module(), stored);
            stores_known(context.program, facts, kind, value, known)
        }
    }
}

/// A value is null or a held cell of this layout.
pub fn define_held(
    facts: &mut Facts,
    v: ValueId,
    layout: Option<LayoutId>,
    nonnull: bool,
) -> Result<(), AllocError>
    ensures { OnOk result (facts.new ≡ define_held v layout nonnull facts.old) }
{
    match layout {
        Some(layout) => facts.define_new(
            v,
            layout,
            Class {
                nonnull,
                fresh: false,
            },
        ),
        None => facts.define(v, Known::Nothing),
    }
}

fn load_kind(facts: &mut Facts, v: ValueId, s: SlotId, kind: TypeKind) -> Result<(), AllocError>
    ensures { OnOk result (facts.new ≡ load_kind v s kind facts.old) }
{
    match kind {
        TypeKind::Bits(bits) => facts.define(v, Known::Number { bits, below: None }),
        TypeKind::Reference(layout) => facts.load_slot(v, s, layout),
        _ => facts.define(v, Known::Nothing),
    }
}

/// A value is from outside: a number of its bits, or an address outside.
pub fn define_given(facts: &mut Facts, v: ValueId, kind: TypeKind) -> Result<(), AllocError>
    ensures { OnOk result (facts.new ≡ define_given v kind facts.old) }
{
    match kind {
        TypeKind::Bits(bits) => facts.define(v, Known::Number { bits, below: None }),
        kind => {
            let known = if kind.is_pointer() {
                outside_known()
            } else {
                Known::Nothing
            };
            facts.define(v, known)
        }
    }
}

fn load_words(
    layouts: &Layouts,
    facts: &mut Facts,
    v: ValueId,
    layout: LayoutId,
    words: &WordSet,
    kind: TypeKind,
) -> Result<(), AllocError>
    ensures { OnOk result (facts.new ≡ load_words layouts.now v layout words.now kind facts.old) }
{
    match kind {
        TypeKind::Bits(bits) => facts.define(v, Known::Number { bits, below: None }),
        TypeKind::Reference(layout) => define_held(facts, v, Some(layout), false),
        TypeKind::AnyReference => {
            define_held(facts, v, first_layout(layouts, layout, words), false)
        }
        _ => facts.define(v, Known::Nothing),
    }
}

fn load_base(
    program: &Program,
    facts: &mut Facts,
    v: ValueId,
    kind: TypeKind,
    words: &WordSet,
    base: &Known,
) -> Result<(), AllocError>
    ensures { OnOk result (facts.new ≡ load_base program.now v kind words.now base.now facts.old) }
{
    match base {
        Known::Cell { layout, .. } => load_words(program.layouts(), facts, v, *layout, words, kind),
        _ => facts.define(v, Known::Nothing),
    }
}

fn load_word(
    facts: &mut Facts,
    v: ValueId,
    kind: TypeKind,
    word: Option<WordKind>,
) -> Result<(), AllocError>
    ensures { OnOk result (facts.new ≡ load_word v kind word facts.old) }
{
    match kind {
        TypeKind::Bits(bits) => facts.define(v, Known::Number { bits, below: None }),
        TypeKind::Reference(layout) => define_held(facts, v, Some(layout), false),
        TypeKind::AnyReference => define_held(facts, v, layout_of_word(word), false),
        _ => facts.define(v, Known::Nothing),
    }
}

/// Goes on to the facts after a load of this kind from what is known of a place.
pub fn load_known(
    program: &Program,
    facts: &mut Facts,
    v: ValueId,
    kind: TypeKind,
    place: &Known,
) -> Result<(), AllocError>
    ensures { OnOk result (facts.new ≡ load_known program.now v kind place.now facts.old) }
{
    match place {
        Known::Address { base, words } => {
            let base = facts.known(*base);
            load_base(program, facts, v, kind, words, &base)
        }
        Known::GlobalAddress(symbol) => {
            load_word(facts, v, kind, global_word(program.module(), *symbol))
        }
        Known::Number { .. } => define_given(facts, v, kind),
        _ => facts.define(v, Known::Nothing),
    }
}

/// Goes on to the facts after a load.
pub fn after_load(
    context: &RuleContext,
    facts: &mut Facts,
    v: ValueId,
    loaded: TypeId,
    place_type: TypeId,
    place: &Operand,
) -> Result<(), AllocError>
    ensures { OnOk result (facts.new ≡ after_load context.now.program.now context.now.slots.now v loaded place_type place.now facts.old) }
{
    match slot_named(context.slots, place) {
        Some(s) => {
            let kind = TypeKind::of_slot(context.module(), context.slots, s);
            load_kind(facts, v, s, kind)
        }
        None => {
            let kind = TypeKind::of(context.module(), loaded);
            let known = place_known(context, facts, place_type, place);
            load_known(context.program, facts, v, kind, &known)
        }
    }
}

/// What is stored goes where others may find it.
pub fn publish(facts: &mut Facts, value: &Operand) -> Result<(), AllocError>
    ensures { OnOk result (facts.new ≡ drop_fresh_of (known_of facts.old value.now) facts.old) }
{
    match value {
        Operand::Local(v) => barriers::after_store(facts, *v),
        _ => Ok(()),
    }
}

/// Goes on to the facts after a store.
pub fn after_store(
    facts: &mut Facts,
    value: &Operand,
    slot: Option<SlotId>,
) -> Result<(), AllocError>
    ensures { OnOk result (facts.new ≡ after_store (known_of facts.old value.now) slot facts.old) }
{
    match slot {
        Some(s) => {
            let known = known_of(facts, value);
            facts.store_slot(s, known)
        }
        None => publish(facts, value),
    }
}
