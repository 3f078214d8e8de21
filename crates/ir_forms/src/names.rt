//! Names: where they are defined, and where they are used.
ghost use Rattle.std.specs.Prelude.{◌≡◌, Ok, Err, if◌then◌else◌, nat_lt, IfOk};
ghost use Rattle.ir_forms.specs.Cursor as place;
ghost use Rattle.ir_forms.specs.Input.{Reads};
ghost use Rattle.ir_forms.specs.Intrinsics.{is_intrinsic as intrinsic_name, is_left_out as left_out_name};
ghost use Rattle.ir_forms.specs.Names as form;

use crate::fault::Fault;
use crate::input::Input;
use crate::intrinsics::{is_intrinsic, is_left_out};
use crate::table::Table;
use crate::uses::{LocalUse, StructUse, SymbolUse, Wanted};
use ir_ast::{
    BlockId, LocalSort, Runtime, StructNameId, SymbolId, SymbolSort, TypeId, ValueId, key_of_number,
};
use ir_tokens::Kind;
use items::Items;
use name_text::decimal;
use pools::LayoutId;
use std::alloc::{AllocError, Global};

/// A number of 32 bits, or else this fault.
pub fn numbered(number: usize, fault: Fault) -> Result<u32, Fault>
    ensures { result ≡ (if nat_lt number 4294967296 then Ok number else Err fault) }
{
    if number < 4294967296 {
        Ok(number as u32)
    } else {
        Err(fault)
    }
}

/// Whether this is the place.
pub fn is_at(wanted: usize, place: Option<usize>) -> bool
    ensures { result ≡ form.is_at wanted place }
{
    place == Some(wanted)
}

/// Whether a number that is written is this one.
fn is_number(next: u32, written: Option<u64>) -> bool
    ensures { result ≡ form.is_at next written }
{
    match written {
        Some(number) => number == next as u64,
        None => false,
    }
}

fn is_struct(sort: Option<Option<LayoutId>>) -> bool
    ensures { result ≡ form.is_struct sort }
{
    matches!(sort, Some(Some(_)))
}

fn is_symbol(sort: Option<SymbolSort>) -> bool
    ensures { result ≡ form.is_symbol sort }
{
    matches!(
        sort,
        Some(SymbolSort::Global(_) | SymbolSort::Declared(_) | SymbolSort::Defined(_))
    )
}

/// Whether a name is one that is declared, and no more.
fn is_declared(sort: Option<SymbolSort>) -> bool
    ensures { result ≡ form.is_declared sort }
{
    matches!(sort, Some(SymbolSort::Declared(_)))
}

/// Whether a name that means this is that of something outside: it is only declared, and is no function of the runtime.
pub fn is_outside(sort: Option<SymbolSort>, name: &[u8]) -> bool
    ensures { result ≡ form.is_outside sort name.now }
{
    is_declared(sort) && Runtime::of(name).is_none()
}

/// Whether a name that means this so far may be an operand.
fn may_be_operand(wide: bool, sort: Option<SymbolSort>, name: &[u8]) -> bool
    ensures { result ≡ form.may_be_operand wide sort name.now }
{
    match sort {
        Some(SymbolSort::Declared(_)) => Runtime::of(name).is_none() && wide,
        Some(SymbolSort::Defined(_)) => false,
        _ => true,
    }
}

fn is_local(sort: Option<LocalSort>) -> bool
    ensures { result ≡ form.is_local sort }
{
    matches!(
        sort,
        Some(
            LocalSort::Value(_)
                | LocalSort::Slot(_)
                | LocalSort::Element { .. }
                | LocalSort::Block(_)
        )
    )
}

impl<'a> Input<'a> {
    /// A struct's name in a type, here or further on defined.
    #[tactic(auto, unfolding(crate::specs::Names::struct_name))]
    pub fn struct_name(&mut self, alloc: Global) -> Result<StructNameId, Fault>
        ensures { Reads (form.struct_name.read self.old) result self.new }
    {
        let start = self.cursor.start();
        let number = self.struct_names.mention_next(alloc, &self.cursor, None)?;
        let name = StructNameId::new(numbered(number, self.limit())?);
        self.struct_uses.push(StructUse { name, start })?;
        self.cursor.skip();
        Ok(name)
    }

    /// The name of a struct that is defined here.
    #[tactic(auto, unfolding(crate::specs::Names::new_struct))]
    pub fn new_struct(&mut self, alloc: Global) -> Result<StructNameId, Fault>
        ensures { Reads (form.new_struct.read self.old) result self.new }
    {
        let number = self.struct_names.mention_next(alloc, &self.cursor, None)?;
        let name = StructNameId::new(numbered(number, self.limit())?);
        let layout = LayoutId::new(numbered(self.structs.len(), self.limit())?);
        if is_struct(self.struct_names.sort(number)) {
            return Err(Fault::DefinedTwice(self.cursor.start()));
        }
        self.struct_names.define(number, Some(layout));
        self.cursor.skip();
        Ok(name)
    }

    /// Whether the next token's global name is one of an intrinsic that is left out.
    fn names_left_out(&self, alloc: Global) -> Result<bool, AllocError>
        ensures { IfOk result (λ is. is ≡ left_out_name self.now.wide (place.spelled self.now.cursor)) }
    {
        match self.cursor.borrowed() {
            Some(name) => Ok(is_left_out(self.wide, name)),
            None => {
                let name = self.cursor.spelled(alloc)?;
                Ok(is_left_out(self.wide, name.as_slice()))
            }
        }
    }

    /// Whether the next token's global name is one of an intrinsic.
    fn names_intrinsic(&self, alloc: Global) -> Result<bool, AllocError>
        ensures { IfOk result (λ is. is ≡ intrinsic_name (place.spelled self.now.cursor)) }
    {
        match self.cursor.borrowed() {
            Some(name) => Ok(is_intrinsic(name)),
            None => {
                let name = self.cursor.spelled(alloc)?;
                Ok(is_intrinsic(name.as_slice()))
            }
        }
    }

    /// A global name that is defined here, as this.
    #[tactic(auto, unfolding(crate::specs::Names::new_symbol))]
    pub fn new_symbol(&mut self, alloc: Global, sort: SymbolSort) -> Result<SymbolId, Fault>
        ensures { Reads ((form.new_symbol sort).read self.old) result self.new }
    {
        if self.names_left_out(alloc)? {
            return Err(self.left_out());
        }
        let number = self
            .symbols
            .mention_next(alloc, &self.cursor, SymbolSort::Unknown)?;
        let symbol = SymbolId::new(numbered(number, self.limit())?);
        if is_symbol(self.symbols.sort(number)) {
            return Err(Fault::DefinedTwice(self.cursor.start()));
        }
        self.symbols.define(number, sort);
        self.cursor.skip();
        Ok(symbol)
    }

    /// The name of a function that is called.
    #[tactic(auto, unfolding(crate::specs::Names::callee))]
    pub fn callee(&mut self, alloc: Global) -> Result<SymbolId, Fault>
        ensures { Reads (form.callee.read self.old) result self.new }
    {
        if self.names_left_out(alloc)? {
            return Err(self.left_out());
        }
        self.used_symbol(alloc, true)
    }

    /// Whether the name that is here may be an operand.
    fn is_operand(&self, alloc: Global) -> Result<bool, AllocError>
        ensures { IfOk result (λ is. is ≡ form.may_be_operand self.now.wide (form.sort_of_symbol self.now) (place.spelled self.now.cursor)) }
    {
        let sort = self.symbol_sort(alloc)?;
        match self.cursor.borrowed() {
            Some(name) => Ok(may_be_operand(self.wide, sort, name)),
            None => {
                let name = self.cursor.spelled(alloc)?;
                Ok(may_be_operand(self.wide, sort, name.as_slice()))
            }
        }
    }

    /// The name of a global, or of something outside, as an operand.
    #[tactic(auto, unfolding(crate::specs::Names::used_global))]
    pub fn used_global(&mut self, alloc: Global) -> Result<SymbolId, Fault>
        ensures { Reads (form.used_global.read self.old) result self.new }
    {
        if self.names_intrinsic(alloc)? {
            return Err(self.left_out());
        }
        if !self.is_operand(alloc)? {
            return Err(self.left_out());
        }
        self.used_symbol(alloc, false)
    }

    /// What the next token's global name means so far.
    pub fn symbol_sort(&self, alloc: Global) -> Result<Option<SymbolSort>, AllocError>
        ensures { IfOk result (λ sort. sort ≡ form.sort_of_symbol self.now) }
    {
        match self.symbols.find_next(alloc, &self.cursor)? {
            Some(number) => Ok(self.symbols.sort(number)),
            None => Ok(None),
        }
    }

    /// A use of a global name.
    #[tactic(auto, unfolding(crate::specs::Names::used_symbol))]
    fn used_symbol(&mut self, alloc: Global, is_call: bool) -> Result<SymbolId, Fault>
        ensures { Reads ((form.used_symbol is_call).read self.old) result self.new }
    {
        let start = self.cursor.start();
        let length = self.cursor.size();
        let number = self
            .symbols
            .mention_next(alloc, &self.cursor, SymbolSort::Unknown)?;
        let symbol = SymbolId::new(numbered(number, self.limit())?);
        self.symbol_uses.push(SymbolUse {
            symbol,
            is_call,
            start,
            length,
        })?;
        self.cursor.skip();
        Ok(symbol)
    }

    /// A local name that has to mean this, here or further on.
    #[tactic(auto, unfolding(crate::specs::Names::used_local))]
    fn used_local(&mut self, alloc: Global, wanted: Wanted) -> Result<ValueId, Fault>
        ensures { Reads ((form.used_local wanted).read self.old) result self.new }
    {
        let start = self.cursor.start();
        let number = self
            .locals
            .mention_local(alloc, &self.cursor, LocalSort::Unknown)?;
        let value = ValueId::new(numbered(number, self.limit())?);
        let used = LocalUse {
            value,
            wanted,
            start,
        };
        self.local_uses.push(used)?;
        self.cursor.skip();
        Ok(value)
    }

    /// A local name as an operand.
    pub fn used_value(&mut self, alloc: Global) -> Result<ValueId, Fault>
        ensures { Reads (form.used_value.read self.old) result self.new }
    {
        self.used_local(alloc, Wanted::Value)
    }

    /// The name of a block.
    #[tactic(auto, unfolding(crate::specs::Names::used_label))]
    fn used_label(&mut self, alloc: Global, wanted: Wanted) -> Result<ValueId, Fault>
        ensures { Reads ((form.used_label wanted).read self.old) result self.new }
    {
        match self.kind() {
            Kind::LocalName | Kind::LocalNumber => self.used_local(alloc, wanted),
            _ => Err(self.refuse(false)),
        }
    }

    /// The name of a block from which this one is entered, the entry or another.
    pub fn incoming_label(&mut self, alloc: Global) -> Result<ValueId, Fault>
        ensures { Reads (form.incoming_label.read self.old) result self.new }
    {
        self.used_label(alloc, Wanted::Block)
    }

    /// `label %b`, a branch target.
    #[tactic(auto, unfolding(crate::specs::Names::target))]
    pub fn target(&mut self, alloc: Global) -> Result<ValueId, Fault>
        ensures { Reads (form.target.read self.old) result self.new }
    {
        self.expect(Kind::Label)?;
        self.used_label(alloc, Wanted::Target)
    }

    /// The name of a value that is defined here; its type is set later.
    #[tactic(auto, unfolding(crate::specs::Names::new_value))]
    pub fn new_value(&mut self, alloc: Global) -> Result<ValueId, Fault>
        ensures { Reads (form.new_value.read self.old) result self.new }
    {
        let number = self
            .locals
            .mention_local(alloc, &self.cursor, LocalSort::Unknown)?;
        let value = ValueId::new(numbered(number, self.limit())?);
        if is_local(self.locals.sort(number)) {
            return Err(Fault::DefinedTwice(self.cursor.start()));
        }
        if self.values >= 1000000 {
            return Err(self.limit());
        }
        self.values += 1;
        self.cursor.skip();
        Ok(value)
    }

    /// The type of the value that this name means.
    pub fn set_type(&mut self, value: ValueId, shown: TypeId)
        ensures { (form.set_type value shown).read self.old ≡ Ok (tt, self.new) }
    {
        self.locals
            .define(value.number() as usize, LocalSort::Value(shown));
    }

    /// This name means a slot that holds a value of this type.
    pub fn set_slot(&mut self, value: ValueId, held: TypeId)
        ensures { (form.set_slot value held).read self.old ≡ Ok (tt, self.new) }
    {
        self.locals
            .define(value.number() as usize, LocalSort::Slot(held));
    }

    /// The value that this name means is the one of the getelementptr at this place of this block's body.
    pub fn set_element(&mut self, value: ValueId, block: BlockId, place: u32)
        ensures { (form.set_element value block place).read self.old ≡ Ok (tt, self.new) }
    {
        self.locals.define(value.number() as usize, LocalSort::Element { block, place });
    }

    /// The label of a block.
    #[tactic(auto, unfolding(crate::specs::Names::new_label))]
    pub fn new_label(&mut self, alloc: Global, block: BlockId) -> Result<ValueId, Fault>
        ensures { Reads ((form.new_label block).read self.old) result self.new }
    {
        let number = self
            .locals
            .mention_local(alloc, &self.cursor, LocalSort::Unknown)?;
        let label = ValueId::new(numbered(number, self.limit())?);
        if is_local(self.locals.sort(number)) {
            return Err(Fault::DefinedTwice(self.cursor.start()));
        }
        self.locals.define(number, LocalSort::Block(block));
        self.cursor.skip();
        Ok(label)
    }

    /// A number of the function is taken.
    #[tactic(auto, unfolding(crate::specs::Names::take_number))]
    pub fn take_number(&mut self) -> Result<(), Fault>
        ensures { Reads (form.take_number.read self.old) result self.new }
    {
        if self.unnamed >= u32::MAX {
            return Err(self.limit());
        }
        self.unnamed += 1;
        Ok(())
    }

    /// Whether the number that is written is the next one.
    fn is_next(&self, alloc: Global) -> Result<bool, AllocError>
        ensures { IfOk result (λ next. next ≡ form.is_written_next self.now) }
    {
        match self.cursor.borrowed() {
            Some(digits) => Ok(is_number(self.unnamed, decimal(digits))),
            None => {
                let digits = self.cursor.spelled(alloc)?;
                Ok(is_number(self.unnamed, decimal(digits.as_slice())))
            }
        }
    }

    /// The number that is written is the next one, and is taken.
    #[tactic(auto, unfolding(crate::specs::Names::next_number))]
    pub fn next_number(&mut self, alloc: Global) -> Result<(), Fault>
        ensures { Reads (form.next_number.read self.old) result self.new }
    {
        if !self.is_next(alloc)? {
            return Err(Fault::WrongNumber(self.cursor.start()));
        }
        self.take_number()
    }

    /// The number of a value that is defined here.
    #[tactic(auto, unfolding(crate::specs::Names::numbered_value))]
    pub fn numbered_value(&mut self, alloc: Global) -> Result<ValueId, Fault>
        ensures { Reads (form.numbered_value.read self.old) result self.new }
    {
        self.next_number(alloc)?;
        self.new_value(alloc)
    }

    /// A value for which no name is written.
    #[tactic(auto, unfolding(crate::specs::Names::unnamed_value))]
    pub fn unnamed_value(&mut self, alloc: Global) -> Result<ValueId, Fault>
        ensures { Reads (form.unnamed_value.read self.old) result self.new }
    {
        let key = key_of_number(alloc, self.unnamed)?;
        self.take_number()?;
        let number = self
            .locals
            .mention(alloc, key.as_slice(), LocalSort::Unknown)?;
        let value = ValueId::new(numbered(number, self.limit())?);
        if self.values >= 1000000 {
            return Err(self.limit());
        }
        self.values += 1;
        Ok(value)
    }

    /// The number of a block as its label.
    #[tactic(auto, unfolding(crate::specs::Names::numbered_label))]
    pub fn numbered_label(&mut self, alloc: Global, block: BlockId) -> Result<ValueId, Fault>
        ensures { Reads ((form.numbered_label block).read self.old) result self.new }
    {
        self.next_number(alloc)?;
        self.new_label(alloc, block)
    }

    /// The label of a block for which none is written.
    #[tactic(auto, unfolding(crate::specs::Names::unnamed_label))]
    pub fn unnamed_label(&mut self, alloc: Global, block: BlockId) -> Result<ValueId, Fault>
        ensures { Reads ((form.unnamed_label block).read self.old) result self.new }
    {
        let key = key_of_number(alloc, self.unnamed)?;
        self.take_number()?;
        let number = self
            .locals
            .mention(alloc, key.as_slice(), LocalSort::Unknown)?;
        let label = ValueId::new(numbered(number, self.limit())?);
        self.locals.define(number, LocalSort::Block(block));
        Ok(label)
    }

    /// Text in quotes.
    #[tactic(auto, unfolding(crate::specs::Names::quoted))]
    pub fn quoted(&mut self, alloc: Global) -> Result<Items<u8>, Fault>
        ensures { Reads (form.quoted.read self.old) result self.new }
    {
        if !self.sees(Kind::Quoted) {
            return Err(self.refuse(false));
        }
        let text = self.cursor.spelled(alloc)?;
        self.skip();
        Ok(text)
    }
}

fn wants_value(wanted: Wanted) -> bool
    ensures { result ≡ form.wants_value wanted }
{
    matches!(wanted, Wanted::Value)
}

/// Whether the block with this number is allowed where this is wanted.
fn wants_block(wanted: Wanted, block: u32) -> bool
    ensures { result ≡ form.wants_block wanted block }
{
    match wanted {
        Wanted::Value => false,
        Wanted::Block => true,
        Wanted::Target => block != 0,
    }
}

/// Whether a name of this sort is what is wanted.
fn is_wanted(wanted: Wanted, sort: Option<LocalSort>) -> bool
    ensures { result ≡ form.is_wanted wanted sort }
{
    match &sort {
        Some(LocalSort::Value(_) | LocalSort::Slot(_) | LocalSort::Element { .. }) => {
            wants_value(wanted)
        }
        Some(LocalSort::Block(block)) => wants_block(wanted, block.number()),
        _ => false,
    }
}

/// Where the first use is of a local name that is not what is wanted there, if there is one.
pub fn first_missing(locals: &Table<LocalSort>, uses: &[LocalUse]) -> Option<u32>
    ensures { result ≡ form.first_missing locals.now uses.now }
{
    let missing = uses.iter().find(|used| !is_wanted(
        used.wanted,
        locals.sort(used.value.number() as usize),
    ))?;
    Some(missing.start)
}
