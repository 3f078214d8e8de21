//! The shapes that are read so far.
ghost use Rattle.std.specs.Prelude.{◌≡◌, Some, map, slice_get, slice_set, OnOk, IfOk};
ghost use Rattle.certs.specs.RootNames.{root_names as names_of_roots};
ghost use Rattle.certs.specs.ShapesFit.{root_of as of_root};
ghost use Rattle.certificate.specs.ShapeDrafts as spec;
ghost use Rattle.ir_ast.specs.Shapes.{row_at};

use crate::draft::root_names;
use crate::mistake::Mistake;
use ir_ast::{
    Function, Global as GlobalItem, HashKey, Module, Names, RootShapes, Shapes, StructNameId,
    StructType, SymbolId, SymbolSort, ValueId, shape_at,
};
use items::Items;
use pools::LayoutId;
use std::alloc::{AllocError, Global};
use types::{global_held, is_opaque};

/// The shapes that are read so far, and what they are asked of.
#[derive(Drop)]
pub struct ShapeDraft {
    /// Whether each word of each struct is of type `ptr`, by the structs' numbers.
    pub pointers: Items<Items<bool>>,
    /// Whether each local name of each function is that of a root slot.
    pub slots: Items<Items<bool>>,
    pub shapes: Shapes,
}

/// Nothing is given so often.
fn none_given(alloc: Global, row: &[bool]) -> Result<Items<Option<LayoutId>>, AllocError>
    ensures { IfOk result (λ given. given ≡ spec.none_given row.now) }
{
    let given = vec![in alloc; None; row.len()]?;
    Ok(Items::from_vec(given))
}

/// The words of type `ptr` of a struct, none where there is no row.
fn pointers_at(pointers: &[Items<bool>], layout: LayoutId) -> &[bool]
    ensures { result.now ≡ spec.pointers_at pointers.now layout }
{
    match pointers.get(layout.number() as usize) {
        Some(row) => row.as_slice(),
        None => &[],
    }
}

fn row_of(
    alloc: Global,
    pointers: &[Items<bool>],
    layout: &Option<LayoutId>,
) -> Result<Items<Option<LayoutId>>, AllocError>
    ensures { IfOk result (λ row. row ≡ spec.row_of pointers.now layout.now) }
{
    match layout {
        None => Ok(Items::new(alloc)),
        Some(layout) => none_given(alloc, pointers_at(pointers, *layout)),
    }
}

fn no_words(
    alloc: Global,
    pointers: &[Items<bool>],
    struct_of: &[Option<LayoutId>],
) -> Result<Items<Items<Option<LayoutId>>>, AllocError>
    ensures { IfOk result (λ rows. rows ≡ map (spec.row_of pointers.now) struct_of.now) }
{
    let mut rows = Items::new(alloc);
    for layout in struct_of {
        rows.push(row_of(alloc, pointers, layout)?)?;
    }
    Ok(rows)
}

fn no_globals(alloc: Global, sorts: &[SymbolSort]) -> Result<Items<Option<LayoutId>>, AllocError>
    ensures { IfOk result (λ given. given ≡ spec.none_given sorts.now) }
{
    let given = vec![in alloc; None; sorts.len()]?;
    Ok(Items::from_vec(given))
}

/// Nothing is given for the slots of a function.
fn no_roots(alloc: Global, key: HashKey) -> RootShapes
    ensures { result ≡ spec.no_roots }
{
    RootShapes {
        names: Names::new(alloc, key),
        layouts: Items::new(alloc),
    }
}

fn no_root_rows(
    alloc: Global,
    key: HashKey,
    sorts: &[SymbolSort],
) -> Result<Items<RootShapes>, AllocError>
    ensures { IfOk result (λ roots. roots ≡ map (λ _. spec.no_roots) sorts.now) }
{
    let mut roots = Items::new(alloc);
    for _symbol in sorts {
        roots.push(no_roots(alloc, key))?;
    }
    Ok(roots)
}

fn slots_of_all(
    alloc: Global,
    module: &Module,
    functions: &[Function],
) -> Result<Items<Items<bool>>, AllocError>
    ensures { IfOk result (λ slots. slots ≡ map (names_of_roots «module».now) functions.now) }
{
    let mut slots = Items::new(alloc);
    for function in functions {
        slots.push(root_names(alloc, module, function)?)?;
    }
    Ok(slots)
}

fn no_shapes(alloc: Global, module: &Module, pointers: &[Items<bool>]) -> Result<Shapes, AllocError>
    ensures { IfOk result (λ shapes. shapes ≡ spec.shapes_none «module».now pointers.now) }
{
    let words = no_words(alloc, pointers, module.struct_of.as_slice())?;
    let globals = no_globals(alloc, module.sorts.as_slice())?;
    let roots = no_root_rows(alloc, module.symbols.key(), module.sorts.as_slice())?;
    Ok(Shapes {
        words,
        globals,
        roots,
    })
}

/// The number of the name of a layout's struct.
pub fn name_of(module: &Module, layout: LayoutId) -> StructNameId
    ensures { result ≡ spec.name_of «module».now layout }
{
    match module.structs.get(layout.number() as usize) {
        Some(named) => named.name,
        None => StructNameId::new(0),
    }
}

/// Whether the global of a name is of type `ptr`.
pub fn is_opaque_global(module: &Module, symbol: SymbolId) -> bool
    ensures { result ≡ spec.is_opaque_global «module».now symbol }
{
    match global_held(module, symbol) {
        Some(held) => is_opaque(module, held),
        None => false,
    }
}

/// What a slot of a function refers to, by the name of its alloca.
pub fn root_of(shapes: &Shapes, function: &Function, slot: usize) -> Option<LayoutId>
    ensures { result ≡ of_root shapes.now function.now slot }
{
    let roots = shapes.roots.get(function.symbol.number() as usize)?;
    let place = roots.names.find(function.locals.name_at(slot))?;
    shape_at(roots.layouts.as_slice(), place)
}

impl ShapeDraft {
    /// No shapes are to be read.
    pub fn none(alloc: Global) -> ShapeDraft
        ensures { result ≡ spec.no_shapes }
    {
        ShapeDraft {
            pointers: Items::new(alloc),
            slots: Items::new(alloc),
            shapes: Shapes {
                words: Items::new(alloc),
                globals: Items::new(alloc),
                roots: Items::new(alloc),
            },
        }
    }

    /// The shapes, without what they were asked of.
    pub fn into_shapes(self) -> Shapes
        ensures { result ≡ self.shapes }
    {
        self.shapes
    }

    /// The same with these shapes.
    pub fn with_shapes(self, shapes: Shapes) -> ShapeDraft
        ensures { result ≡ record { pointers = self.pointers; slots = self.slots; shapes = shapes } }
    {
        ShapeDraft {
            pointers: self.pointers,
            slots: self.slots,
            shapes,
        }
    }

    /// Nothing is given so far.
    pub fn of(
        alloc: Global,
        module: &Module,
        pointers: Items<Items<bool>>,
    ) -> Result<ShapeDraft, AllocError>
        ensures { IfOk result (λ draft. draft ≡ spec.shapes_begun «module».now pointers) }
    {
        let slots = slots_of_all(alloc, module, module.functions.as_slice())?;
        let shapes = no_shapes(alloc, module, pointers.as_slice())?;
        Ok(ShapeDraft {
            pointers,
            slots,
            shapes,
        })
    }

    /// Whether a word of a struct is of type `ptr`.
    pub fn is_pointer(&self, layout: LayoutId, word: usize) -> bool
        ensures { result ≡ spec.is_pointer self.now layout word }
    {
        match pointers_at(self.pointers.as_slice(), layout).get(word) {
            Some(pointer) => *pointer,
            None => false,
        }
    }

    /// Whether a word of the struct of this name has a shape so far.
    pub fn has_word_shape(&self, name: StructNameId, word: usize) -> bool
        ensures { result ≡ spec.has_word_shape self.now name word }
    {
        match self.shapes.words.get(name.number() as usize) {
            Some(row) => shape_at(row.as_slice(), word).is_some(),
            None => false,
        }
    }

    /// Whether a global has a shape so far.
    pub fn has_global_shape(&self, symbol: SymbolId) -> bool
        ensures { result ≡ spec.has_global_shape self.now symbol }
    {
        shape_at(self.shapes.globals.as_slice(), symbol.number() as usize).is_some()
    }

    /// Whether a local name of a function is that of a root slot's alloca.
    pub fn is_root_slot(&self, function: usize, slot: ValueId) -> bool
        ensures { result ≡ spec.is_root_slot self.now function slot }
    {
        match self.slots.get(function) {
            Some(slots) => match slots.get(slot.number() as usize) {
                Some(root) => *root,
                None => false,
            },
            None => false,
        }
    }

    /// Whether a slot of a function has a shape so far.
    pub fn has_root_shape(&self, function: &Function, slot: usize) -> bool
        ensures { result ≡ spec.has_root_shape self.now function.now slot }
    {
        root_of(&self.shapes, function, slot).is_some()
    }

    /// Gives the shape of a word.
    #[tactic(auto, unfolding(crate::specs::ShapeDrafts::with_word_shape))]
    pub fn put_word(
        &mut self,
        alloc: Global,
        module: &Module,
        layout: LayoutId,
        word: usize,
        target: LayoutId,
    )
        ensures { self.new ≡ spec.with_word_shape «module».now layout word target self.old }
    {
        let name = name_of(module, layout).number() as usize;
        put_in_row(alloc, &mut self.shapes.words, name, word, target);
    }

    /// Gives the shape of a global.
    #[tactic(auto, unfolding(crate::specs::ShapeDrafts::with_global_shape))]
    pub fn put_global(&mut self, symbol: SymbolId, target: LayoutId)
        ensures { self.new ≡ spec.with_global_shape symbol target self.old }
    {
        let symbol = symbol.number() as usize;
        if symbol < self.shapes.globals.len() {
            self.shapes.globals.set(symbol, Some(target));
        }
    }

    /// Gives the shape of a slot.
    #[tactic(auto, unfolding(crate::specs::ShapeDrafts::with_root_shape))]
    pub fn put_root(
        &mut self,
        alloc: Global,
        function: &Function,
        slot: ValueId,
        target: LayoutId,
    ) -> Result<(), AllocError>
        ensures { OnOk result (self.new ≡ spec.with_root_shape function.now slot target self.old) }
    {
        let symbol = function.symbol.number() as usize;
        let name = function.locals.name_at(slot.number() as usize);
        let key = function.locals.key();
        put_in_roots(alloc, &mut self.shapes.roots, key, symbol, name, target)?;
        Ok(())
    }
}

/// A row with this shape of a word.
fn with_shape(
    before: Items<Option<LayoutId>>,
    word: usize,
    target: LayoutId,
) -> Items<Option<LayoutId>>
    ensures { result ≡ slice_set before word (Some target) }
{
    let mut row = before;
    if word < row.len() {
        row.set(word, Some(target));
    }
    row
}

/// Gives the shape of a word of a row.
fn put_in_row(
    alloc: Global,
    rows: &mut Items<Items<Option<LayoutId>>>,
    row: usize,
    word: usize,
    target: LayoutId,
)
    ensures { rows.new ≡ slice_set rows.old row (slice_set (row_at rows.old row) word (Some target)) }
{
    if row >= rows.len() {
        return;
    }
    let old = rows.replace(row, Items::new(alloc));
    rows.set(row, with_shape(old, word, target));
}

/// Gives the shape of a slot of the function of this symbol.
fn put_in_roots(
    alloc: Global,
    roots: &mut Items<RootShapes>,
    key: HashKey,
    symbol: usize,
    name: &[u8],
    target: LayoutId,
) -> Result<(), AllocError>
    ensures { OnOk result (roots.new ≡ slice_set roots.old symbol (spec.with_root name.now target (spec.roots_at roots.old symbol))) }
{
    if symbol >= roots.len() {
        return Ok(());
    }
    let old = roots.replace(symbol, no_roots(alloc, key));
    let new = with_root(alloc, old, name, target)?;
    roots.set(symbol, new);
    Ok(())
}

/// With the shape of one more slot.
fn with_root(
    alloc: Global,
    before: RootShapes,
    name: &[u8],
    target: LayoutId,
) -> Result<RootShapes, AllocError>
    ensures { IfOk result (λ roots. roots ≡ spec.with_root name.now target before) }
{
    let mut roots = before;
    roots.names.number(alloc, name)?;
    roots.layouts.push(Some(target))?;
    Ok(roots)
}

/// The first word without a shape of a struct, whose words of type `ptr` these are.
fn word_gap(
    draft: &ShapeDraft,
    layout: usize,
    name: StructNameId,
    pointers: &[bool],
) -> Option<Mistake>
    ensures { result ≡ spec.word_gap draft.now layout name 0 pointers.now }
{
    for (word, pointer) in pointers.iter().enumerate() {
        if *pointer && !draft.has_word_shape(name, word) {
            return Some(Mistake::MissingWord(layout, word));
        }
    }
    None
}

fn struct_gap(draft: &ShapeDraft, layout: usize, named: &StructType) -> Option<Mistake>
    ensures { result ≡ spec.struct_gap draft.now layout named.now }
{
    match draft.pointers.get(layout) {
        Some(row) => word_gap(draft, layout, named.name, row.as_slice()),
        None => None,
    }
}

fn words_gap(draft: &ShapeDraft, structs: &[StructType]) -> Option<Mistake>
    ensures { result ≡ spec.words_gap draft.now 0 structs.now }
{
    for (layout, named) in structs.iter().enumerate() {
        if let Some(gap) = struct_gap(draft, layout, named) {
            return Some(gap);
        }
    }
    None
}

fn globals_gap(draft: &ShapeDraft, module: &Module, globals: &[GlobalItem]) -> Option<Mistake>
    ensures { result ≡ spec.globals_gap «module».now draft.now globals.now }
{
    for global in globals {
        if is_opaque(module, global.held) && !draft.has_global_shape(global.symbol) {
            return Some(Mistake::MissingGlobal(global.symbol.number() as usize));
        }
    }
    None
}

/// The first root slot without a shape of a function, whose root slots these are.
fn slot_gap(
    draft: &ShapeDraft,
    number: usize,
    function: &Function,
    slots: &[bool],
) -> Option<Mistake>
    ensures { result ≡ spec.slot_gap draft.now number function.now 0 slots.now }
{
    for (slot, root) in slots.iter().enumerate() {
        if *root && !draft.has_root_shape(function, slot) {
            return Some(Mistake::MissingRoot(number, slot));
        }
    }
    None
}

fn roots_gap_in(draft: &ShapeDraft, number: usize, function: &Function) -> Option<Mistake>
    ensures { result ≡ spec.roots_gap_in draft.now number function.now (slice_get draft.now.slots number) }
{
    match draft.slots.get(number) {
        Some(slots) => slot_gap(draft, number, function, slots.as_slice()),
        None => None,
    }
}

fn roots_gap(draft: &ShapeDraft, functions: &[Function]) -> Option<Mistake>
    ensures { result ≡ spec.roots_gap draft.now 0 functions.now }
{
    for (number, function) in functions.iter().enumerate() {
        if let Some(gap) = roots_gap_in(draft, number, function) {
            return Some(gap);
        }
    }
    None
}

/// The first shape that is missing: of a word, else of a global, else of a root slot.
pub fn shapes_gap(draft: &ShapeDraft, module: &Module) -> Option<Mistake>
    ensures { result ≡ spec.shapes_gap «module».now draft.now }
{
    if let Some(gap) = words_gap(draft, module.structs.as_slice()) {
        return Some(gap);
    }
    if let Some(gap) = globals_gap(draft, module, module.globals.as_slice()) {
        return Some(gap);
    }
    roots_gap(draft, module.functions.as_slice())
}
