//! Second mentions of a type.
ghost use Rattle.std.specs.Prelude.{◌≡◌, suc};
ghost use Rattle.ir_forms.specs.Input.{Reads, left};
ghost use Rattle.ir_forms.specs.Written as form;

use crate::fault::Fault;
use crate::input::Input;
use crate::names::is_at;
use crate::number::natural;
use crate::written::{FloatType, ROOM, WrittenType, begins_unread_type};
use ir_ast::{IrType, StructNameId, TypeId};
use ir_tokens::Kind;
use name_text::decimal;
use std::alloc::Global;

/// Whether two types of floating point numbers are one.
fn is_same_float(a: FloatType, b: FloatType) -> bool
    ensures { result ≡ form.is_same_float a b }
{
    match a {
        FloatType::Single => matches!(b, FloatType::Single),
        FloatType::Double => matches!(b, FloatType::Double),
    }
}

impl<'a> Input<'a> {
    /// The next token begins a type, as a token of this kind does.
    fn sees_type(&self, wanted: Kind) -> Result<(), Fault>
        ensures { Reads ((form.sees_type wanted).read self.now) result self.now }
    {
        if !self.sees(wanted) {
            return Err(self.refuse(begins_unread_type(self.kind())));
        }
        Ok(())
    }

    /// An integer of `bits` bits again.
    #[tactic(auto, unfolding(crate::specs::Written::integer_again, crate::specs::Written::bits_at))]
    fn integer_again(&mut self, bits: u32) -> Result<(), Fault>
        ensures { Reads ((form.integer_again bits).read self.old) result self.new }
    {
        self.sees_type(Kind::IntegerType)?;
        match decimal(self.cursor.name()) {
            Some(found) if found >= 1 && found <= 64 => {
                if found as u32 != bits {
                    return Err(self.refuse(false));
                }
                self.skip();
                Ok(())
            }
            _ => Err(Fault::OutOfRange(self.cursor.start())),
        }
    }

    /// The name of a struct again.
    #[tactic(auto, unfolding(crate::specs::Written::name_again, crate::specs::Written::is_named))]
    fn name_again(&mut self, alloc: Global, wanted: StructNameId) -> Result<(), Fault>
        ensures { Reads ((form.name_again wanted).read self.old) result self.new }
    {
        self.sees_type(Kind::LocalName)?;
        let place = self.struct_names.find_next(alloc, &self.cursor)?;
        if !is_at(wanted.number() as usize, place) {
            return Err(self.refuse(false));
        }
        self.skip();
        Ok(())
    }

    /// `float` or `double` again.
    #[tactic(auto, unfolding(crate::specs::Written::float_again))]
    fn float_again(&mut self, wanted: FloatType) -> Result<(), Fault>
        ensures { Reads ((form.float_again wanted).read self.old) result self.new }
    {
        match self.float_here() {
            Some(found) => {
                if !is_same_float(wanted, found) {
                    return Err(Fault::Unexpected(self.cursor.start()));
                }
                self.skip();
                Ok(())
            }
            None => Err(self.refuse(begins_unread_type(self.kind()))),
        }
    }

    /// The length of an array again.
    #[tactic(auto, unfolding(crate::specs::Written::length_again, crate::specs::Written::length_at))]
    fn length_again(&mut self, wanted: u64) -> Result<(), Fault>
        ensures { Reads ((form.length_again wanted).read self.old) result self.new }
    {
        if !self.sees(Kind::Number) {
            return Err(self.refuse(false));
        }
        let Some(length) = natural(self.cursor.spelling()) else {
            return Err(Fault::OutOfRange(self.cursor.start()));
        };
        if length != wanted {
            return Err(self.refuse(false));
        }
        self.skip();
        Ok(())
    }

    /// The type with this place again, which has at most `levels` levels.
    #[cycle(mentions)]
    #[tactic(auto, unfolding(crate::specs::Written::again_within))]
    fn again_within(&mut self, alloc: Global, levels: u32, id: TypeId) -> Result<(), Fault>
        ensures { Reads ((form.again_within levels id).read self.old) result self.new }
    {
        if levels == 0 {
            return Err(self.refuse(false));
        }
        self.again_by(alloc, levels - 1, id)?;
        self.no_parameters()
    }

    /// The type with this place again, whose parts have at most `levels` levels.
    #[cycle(mentions)]
    fn again_by(&mut self, alloc: Global, levels: u32, id: TypeId) -> Result<(), Fault>
        ensures { Reads ((form.again_over (form.again_within levels) id).read self.old) result self.new }
    {
        let shown = self.types.get(id);
        match &shown {
            Some(IrType::Integer(bits)) => self.integer_again(*bits),
            Some(IrType::Float) => self.float_again(FloatType::Single),
            Some(IrType::Double) => self.float_again(FloatType::Double),
            Some(IrType::Named(wanted)) => self.name_again(alloc, *wanted),
            Some(IrType::Pointer(pointee)) => {
                self.again_within(alloc, levels, *pointee)?;
                self.expect(Kind::Star)
            }
            Some(IrType::Opaque) => {
                self.sees_type(Kind::Ptr)?;
                self.skip();
                Ok(())
            }
            Some(IrType::Array { length, part }) => self.array_again(alloc, levels, *length, *part),
            Some(IrType::EmptyStruct) => {
                self.sees_type(Kind::OpenBrace)?;
                self.skip();
                self.expect(Kind::CloseBrace)
            }
            Some(IrType::Struct { first, rest }) => {
                self.sees_type(Kind::OpenBrace)?;
                self.skip();
                self.again_within(alloc, levels, *first)?;
                self.fields_again(alloc, levels, *rest)
            }
            _ => Err(self.refuse(false)),
        }
    }

    /// An array of this length and part again, where the part has at most `levels` levels.
    #[cycle(mentions)]
    fn array_again(
        &mut self,
        alloc: Global,
        levels: u32,
        length: u64,
        part: TypeId,
    ) -> Result<(), Fault>
        ensures { Reads ((form.array_again (form.again_within levels) length part).read self.old) result self.new }
    {
        self.sees_type(Kind::OpenSquare)?;
        self.skip();
        self.length_again(length)?;
        self.expect(Kind::X)?;
        self.again_within(alloc, levels, part)?;
        self.expect(Kind::CloseSquare)
    }

    /// The fields of this struct again, after others, up to the brace that closes.
    #[cycle(mentions)]
    fn fields_again(&mut self, alloc: Global, levels: u32, rest: TypeId) -> Result<(), Fault>
        ensures { Reads ((form.all_fields_again (form.again_within levels) rest).read self.old) result self.new }
    {
        let mut rest = rest;
        for _turn in 0..self.left() + 1 {
            let shown = self.types.get(rest);
            match &shown {
                Some(
                    IrType::Struct {
                        first,
                        rest: afterwards,
                    },
                ) => {
                    self.expect(Kind::Comma)?;
                    self.again_within(alloc, levels, *first)?;
                    rest = *afterwards;
                }
                _ => return self.expect(Kind::CloseBrace),
            }
        }
        Err(self.refuse(false))
    }

    /// A second mention of a type.
    #[tactic(auto, unfolding(crate::specs::Written::again))]
    pub fn again(&mut self, alloc: Global, written: &WrittenType) -> Result<(), Fault>
        ensures { Reads ((form.again written.now).read self.old) result self.new }
    {
        self.again_within(alloc, ROOM + 1, written.id)
    }

    /// A star, with room for this number of further levels.
    fn further_star(&mut self, room: u32) -> Result<(), Fault>
        ensures { Reads ((form.further_star room).read self.old) result self.new }
    {
        if !self.sees(Kind::Star) {
            return Err(self.refuse(false));
        }
        if room == 0 {
            return Err(self.limit());
        }
        self.skip();
        Ok(())
    }

    /// The type of pointers to a type that is mentioned here again. Returns its place.
    fn starred_again(&mut self, alloc: Global, written: &WrittenType) -> Result<TypeId, Fault>
        ensures { Reads ((form.starred_again written.now).read self.old) result self.new }
    {
        let start = self.cursor.start();
        self.again(alloc, written)?;
        self.further_star(written.room)?;
        self.intern_pointer(start, IrType::Pointer(written.id))
    }

    /// The type of pointers to a type that is written before it: `ptr`, or that type again and a star. Returns its place.
    #[tactic(auto, unfolding(crate::specs::Written::pointer_again))]
    pub fn pointer_again(&mut self, alloc: Global, written: &WrittenType) -> Result<TypeId, Fault>
        ensures { Reads ((form.pointer_again written.now).read self.old) result self.new }
    {
        if self.sees(Kind::Ptr) {
            self.opaque_type()
        } else {
            self.starred_again(alloc, written)
        }
    }
}
