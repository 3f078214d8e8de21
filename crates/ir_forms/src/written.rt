//! Types as they are written, and which of them are allowed where.
ghost use Rattle.std.specs.Prelude.{◌≡◌, ◌≤◌, Ok};
ghost use Rattle.ir_forms.specs.Input.{Reads};
ghost use Rattle.ir_forms.specs.Written as form;

use crate::fault::Fault;
use crate::input::Input;
use crate::names::numbered;
use ir_ast::{IrType, TypeId};
use ir_tokens::Kind;
use name_text::decimal;
use std::alloc::Global;

/// What a type is before its stars.
#[derive(Clone, Copy)]
pub enum Base {
    /// An integer of this number of bits.
    Integer(u32),
    /// `float`.
    Float,
    /// `double`.
    Double,
    /// A named struct.
    Named,
    /// `ptr`, which takes no stars.
    Opaque,
    /// An array, or a struct that is written out.
    Aggregate,
}

/// What a value of a type is: one word, of this sort.
#[derive(Clone, Copy)]
pub enum Word {
    Pointer,
    /// An integer of this number of bits.
    Integer(u32),
    /// A floating point number of 32 bits.
    Float,
    /// A floating point number of 64 bits.
    Double,
}

/// A type of floating point numbers.
#[derive(Clone, Copy)]
pub enum FloatType {
    /// `float`
    Single,
    /// `double`
    Double,
}

/// A type as it is written: a base with stars after it.
#[derive(Clone, Copy)]
pub struct WrittenType {
    pub base: Base,
    pub stars: u32,
    /// The type's place in the table.
    pub id: TypeId,
    /// How many levels more it might have.
    pub room: u32,
}

/// How many levels a type has at most over its first.
pub const ROOM: u32 = 63;

/// Kinds of tokens with which a type begins that is not read yet, or is left out.
pub fn begins_unread_type(kind: Kind) -> bool
    ensures { result ≡ form.begins_unread_type kind }
{
    matches!(
        kind,
        Kind::LocalNumber | Kind::Less | Kind::Dots | Kind::Target
    )
}

/// Whether the type is a pointer.
fn is_pointer(written: &WrittenType) -> bool
    ensures { result ≡ form.is_pointer written.now }
{
    written.stars > 0 || matches!(written.base, Base::Opaque)
}

/// Whether the base is a type of numbers.
fn is_number_base(base: Base) -> bool
    ensures { result ≡ form.is_number_base base }
{
    matches!(base, Base::Integer(_) | Base::Float | Base::Double)
}

/// Whether a value of this type is one word: a number or a pointer.
pub fn is_scalar(written: &WrittenType) -> bool
    ensures { result ≡ form.is_scalar written.now }
{
    is_pointer(written) || is_number_base(written.base)
}

/// The word that a type without stars is.
fn word_of_base(base: Base) -> Word
    ensures { result ≡ form.word_of_base base }
{
    match base {
        Base::Integer(bits) => Word::Integer(bits),
        Base::Float => Word::Float,
        Base::Double => Word::Double,
        _ => Word::Pointer,
    }
}

/// The word that a type is. An array or a struct counts as a pointer, and no value has such a type.
pub fn word_of(written: &WrittenType) -> Word
    ensures { result ≡ form.word_of written.now }
{
    if written.stars == 0 {
        word_of_base(written.base)
    } else {
        Word::Pointer
    }
}

/// Whether a word is a floating point number.
pub fn is_float_word(word: Word) -> bool
    ensures { result ≡ form.is_float_word word }
{
    matches!(word, Word::Float | Word::Double)
}

/// Whether the type is one of floating point numbers.
fn is_float(written: &WrittenType) -> bool
    ensures { result ≡ form.is_float written.now }
{
    is_float_word(word_of(written))
}

/// Whether a function may take and return a value of this type: a number, a reference, `i8*` or `ptr`.
pub fn is_passed(written: &WrittenType) -> bool
    ensures { result ≡ form.is_passed written.now }
{
    match written.base {
        Base::Integer(bits) => written.stars == 0 || written.stars == 1 && bits == 8,
        Base::Float | Base::Double | Base::Opaque => written.stars == 0,
        Base::Named => written.stars == 1,
        Base::Aggregate => false,
    }
}

/// Whether a global may have this type: a number, a reference or `ptr`.
pub fn is_held(written: &WrittenType) -> bool
    ensures { result ≡ form.is_held written.now }
{
    match written.base {
        Base::Integer(_) | Base::Float | Base::Double | Base::Opaque => written.stars == 0,
        Base::Named => written.stars == 1,
        Base::Aggregate => false,
    }
}

/// The type of floating point numbers that a word names.
fn float_of(word: &[u8]) -> Option<FloatType>
    ensures { result ≡ form.float_of word.now }
{
    if word == b"float".as_slice() {
        Some(FloatType::Single)
    } else if word == b"double".as_slice() {
        Some(FloatType::Double)
    } else {
        None
    }
}

/// What it is before its stars.
pub fn float_base(float: FloatType) -> Base
    ensures { result ≡ form.float_base float }
{
    match float {
        FloatType::Single => Base::Float,
        FloatType::Double => Base::Double,
    }
}

/// What it is in the table of types.
pub fn float_entry(float: FloatType) -> IrType
    ensures { result ≡ form.float_entry float }
{
    match float {
        FloatType::Single => IrType::Float,
        FloatType::Double => IrType::Double,
    }
}

impl<'a> Input<'a> {
    /// The type of floating point numbers that the next token names, where the wide forms may stand.
    #[tactic(auto, unfolding(crate::specs::Written::float_here))]
    pub fn float_here(&self) -> Option<FloatType>
        ensures { result ≡ form.float_here self.now }
    {
        if self.wide && self.sees(Kind::LeftOut) {
            float_of(self.cursor.spelling())
        } else {
            None
        }
    }

    /// The place of a type in the table, which has it from now on.
    #[tactic(auto, unfolding(crate::specs::Written::intern))]
    pub fn intern(&mut self, new: IrType) -> Result<TypeId, Fault>
        ensures { Reads ((form.intern new).read self.old) result self.new }
    {
        let id = self.types.number(new)?;
        Ok(TypeId::new(numbered(id.number() as usize, self.limit())?))
    }

    /// An integer type.
    #[tactic(auto, unfolding(crate::specs::Written::integer, crate::specs::Written::bits_at))]
    pub fn integer(&mut self) -> Result<u32, Fault>
        ensures { Reads (form.integer.read self.old) result self.new }
    {
        match decimal(self.cursor.name()) {
            Some(bits) if bits >= 1 && bits <= 64 => {
                self.skip();
                Ok(bits as u32)
            }
            _ => Err(Fault::OutOfRange(self.cursor.start())),
        }
    }

    /// A type with at most `room` levels over its first.
    #[tactic(auto, unfolding(crate::specs::Written::type_within))]
    pub fn type_within(&mut self, alloc: Global, room: u32) -> Result<WrittenType, Fault>
        requires { room ≤ 63 }
        ensures { Reads ((form.type_within room).read self.old) result self.new }
    {
        self.part(alloc, room + 1)
    }

    /// Any type but `void`.
    #[tactic(auto, unfolding(crate::specs::Written::any_type))]
    pub fn any_type(&mut self, alloc: Global) -> Result<WrittenType, Fault>
        ensures { Reads (form.any_type.read self.old) result self.new }
    {
        self.type_within(alloc, ROOM)
    }

    /// The type before here is allowed, or else has this fault. Where the text ends, the fault is that of its end.
    pub fn allow(&self, allowed: bool, fault: Fault) -> Result<(), Fault>
        ensures { Reads ((form.allow allowed fault).read self.now) result self.now }
    {
        if allowed {
            Ok(())
        } else if self.sees(Kind::End) {
            Err(self.refuse(false))
        } else {
            Err(fault)
        }
    }

    /// A type that a word holds, with at most `room` levels over its first.
    #[tactic(auto, unfolding(crate::specs::Written::scalar_within))]
    pub fn scalar_within(&mut self, alloc: Global, room: u32) -> Result<WrittenType, Fault>
        requires { room ≤ 63 }
        ensures { Reads ((form.scalar_within room).read self.old) result self.new }
    {
        let fault = self.left_out();
        let written = self.type_within(alloc, room)?;
        self.allow(is_scalar(&written), fault)?;
        Ok(written)
    }

    /// A type that a word holds.
    #[tactic(auto, unfolding(crate::specs::Written::scalar))]
    pub fn scalar(&mut self, alloc: Global) -> Result<WrittenType, Fault>
        ensures { Reads (form.scalar.read self.old) result self.new }
    {
        self.scalar_within(alloc, ROOM)
    }

    /// The type of a call's result. Where the wide forms may stand, the types of the function's parameters may follow it.
    #[tactic(auto, unfolding(crate::specs::Written::result_type))]
    pub fn result_type(&mut self, alloc: Global) -> Result<WrittenType, Fault>
        ensures { Reads (form.result_type.read self.old) result self.new }
    {
        if !self.wide {
            return self.scalar(alloc);
        }
        let fault = self.left_out();
        let written = self.type_before(alloc)?;
        self.allow(is_scalar(&written), fault)?;
        Ok(written)
    }

    /// A type of floating point numbers.
    #[tactic(auto, unfolding(crate::specs::Written::float_scalar))]
    pub fn float_scalar(&mut self, alloc: Global) -> Result<WrittenType, Fault>
        ensures { Reads (form.float_scalar.read self.old) result self.new }
    {
        let written = self.scalar(alloc)?;
        if !is_float(&written) {
            return Err(self.refuse(false));
        }
        Ok(written)
    }

    /// A type of integers, or a pointer type.
    #[tactic(auto, unfolding(crate::specs::Written::integer_scalar))]
    pub fn integer_scalar(&mut self, alloc: Global) -> Result<WrittenType, Fault>
        ensures { Reads (form.integer_scalar.read self.old) result self.new }
    {
        let written = self.scalar(alloc)?;
        if is_float(&written) {
            return Err(self.refuse(false));
        }
        Ok(written)
    }

    /// A pointer type: `ptr`, or a type with a star after it.
    #[tactic(auto, unfolding(crate::specs::Written::pointer_type))]
    pub fn pointer_type(&mut self, alloc: Global) -> Result<WrittenType, Fault>
        ensures { Reads (form.pointer_type.read self.old) result self.new }
    {
        let written = self.any_type(alloc)?;
        if !is_pointer(&written) {
            return Err(self.refuse(false));
        }
        Ok(written)
    }

    /// The type of a parameter or a result.
    #[tactic(auto, unfolding(crate::specs::Written::passed_type))]
    pub fn passed_type(&mut self, alloc: Global) -> Result<WrittenType, Fault>
        ensures { Reads (form.passed_type.read self.old) result self.new }
    {
        let fault = self.left_out();
        let written = self.type_within(alloc, ROOM)?;
        self.allow(is_passed(&written), fault)?;
        Ok(written)
    }

    /// The type of a global.
    #[tactic(auto, unfolding(crate::specs::Written::held_type))]
    pub fn held_type(&mut self, alloc: Global) -> Result<WrittenType, Fault>
        ensures { Reads (form.held_type.read self.old) result self.new }
    {
        let fault = self.left_out();
        let written = self.type_within(alloc, ROOM)?;
        self.allow(is_held(&written), fault)?;
        Ok(written)
    }
}
