//! Types inside of types.
ghost use Rattle.std.specs.Prelude.{◌≡◌, ◌≤◌, ◌-◌, [], suc};
ghost use Rattle.grammar.specs.Many.{many_from};
ghost use Rattle.ir_forms.specs.Input.{Reads, left};
ghost use Rattle.ir_forms.specs.Written as form;

use crate::fault::Fault;
use crate::input::Input;
use crate::number::natural;
use crate::starts::makes_level;
use crate::written::{Base, ROOM, WrittenType, begins_unread_type, float_base, float_entry};
use ir_ast::{IrType, TypeId};
use ir_tokens::Kind;
use items::Items;
use std::alloc::Global;

impl<'a> Input<'a> {
    /// This type, with room for this number of further levels.
    fn interned(&mut self, base: Base, room: u32, new: IrType) -> Result<WrittenType, Fault>
        ensures { Reads ((form.interned base room new).read self.old) result self.new }
    {
        let id = self.intern(new)?;
        Ok(WrittenType {
            base,
            stars: 0,
            id,
            room,
        })
    }

    /// The length of an array.
    #[tactic(auto, unfolding(crate::specs::Written::array_length, crate::specs::Written::length_at))]
    fn array_length(&mut self) -> Result<u64, Fault>
        ensures { Reads (form.array_length.read self.old) result self.new }
    {
        if !self.sees(Kind::Number) {
            return Err(self.refuse(false));
        }
        let Some(length) = natural(self.cursor.spelling()) else {
            return Err(Fault::OutOfRange(self.cursor.start()));
        };
        self.skip();
        Ok(length)
    }

    /// At most `room` stars after a type that is written from `start` on. Returns the room for further levels that is left.
    pub fn pointers(
        &mut self,
        start: u32,
        room: u32,
        pointee: TypeId,
    ) -> Result<(u32, TypeId), Fault>
        ensures { Reads ((form.pointers start room pointee).read self.old) result self.new }
    {
        if !self.sees(Kind::Star) {
            return Ok((room, pointee));
        }
        if room == 0 {
            return Err(self.limit());
        }
        self.skip();
        let pointer = self.intern_pointer(start, IrType::Pointer(pointee))?;
        self.pointers(start, room - 1, pointer)
    }

    /// The stars after a type that is written from `start` on. Returns the room for further levels that is left.
    fn stars_after(&mut self, start: u32, part: &WrittenType) -> Result<(u32, TypeId), Fault>
        ensures { Reads ((form.stars_after start part.now part.now.base).read self.old) result self.new }
    {
        match part.base {
            Base::Opaque => Ok((part.room, part.id)),
            _ => self.pointers(start, part.room, part.id),
        }
    }

    /// A type that is written from `start` on, with the stars after it.
    #[tactic(auto, unfolding(crate::specs::Written::starred))]
    fn starred(&mut self, start: u32, part: WrittenType) -> Result<WrittenType, Fault>
        ensures { Reads ((form.starred start part).read self.old) result self.new }
    {
        let (room, id) = self.stars_after(start, &part)?;
        self.no_parameters()?;
        Ok(WrittenType {
            base: part.base,
            stars: part.room.saturating_sub(room),
            id,
            room,
        })
    }

    /// The type of a call's result before the types of the function's parameters, or without them.
    #[tactic(auto, unfolding(crate::specs::Written::type_before))]
    pub fn type_before(&mut self, alloc: Global) -> Result<WrittenType, Fault>
        ensures { Reads (form.type_before.read self.old) result self.new }
    {
        let start = self.cursor.start();
        let part = self.base(alloc, ROOM)?;
        let (room, id) = self.stars_after(start, &part)?;
        Ok(WrittenType {
            base: part.base,
            stars: part.room.saturating_sub(room),
            id,
            room,
        })
    }

    /// No function type.
    pub fn no_parameters(&self) -> Result<(), Fault>
        ensures { Reads (form.no_parameters.read self.now) result self.now }
    {
        if self.sees(Kind::OpenRound) {
            return Err(self.left_out());
        }
        Ok(())
    }

    /// A comma before a further field, or nothing before the brace that closes.
    #[tactic(auto, unfolding(crate::specs::Written::after_field))]
    fn after_field(&mut self) -> Result<(), Fault>
        ensures { Reads (form.after_field.read self.old) result self.new }
    {
        if self.sees(Kind::CloseBrace) {
            return Ok(());
        }
        self.expect(Kind::Comma)?;
        if self.sees(Kind::CloseBrace) {
            return Err(self.refuse(false));
        }
        Ok(())
    }

    /// The fault of a type that passes the limit of levels.
    #[tactic(auto, unfolding(crate::specs::Written::no_type, crate::specs::Written::sees_level))]
    fn no_type(&self) -> Fault
        ensures { form.no_type.read self.now ≡ Err result }
    {
        let kind = self.kind();
        if makes_level(kind, self.cursor.spelling()) {
            self.limit()
        } else {
            self.refuse(begins_unread_type(kind))
        }
    }

    /// The fault of `void`, which begins no type but a function type, which is left out.
    fn no_void(&self) -> Fault
        ensures { form.no_void.read self.now ≡ Err result }
    {
        self.refuse(matches!(self.cursor.kind_after(), Kind::OpenRound))
    }

    /// `float` or `double`, where the wide forms may stand, with room for this number of further levels.
    fn float_written(&mut self, room: u32) -> Result<WrittenType, Fault>
        ensures { Reads ((form.float_written room).read self.old) result self.new }
    {
        match self.float_here() {
            Some(float) => {
                self.skip();
                self.interned(float_base(float), room, float_entry(float))
            }
            None => Err(self.refuse(begins_unread_type(self.kind()))),
        }
    }

    /// The struct that has this field before those of another struct.
    fn field_before(&mut self, field: WrittenType, whole: WrittenType) -> Result<WrittenType, Fault>
        ensures { Reads ((form.field_before field whole).read self.old) result self.new }
    {
        let first = field.id;
        let rest = whole.id;
        let room = field.room.min(whole.room);
        self.interned(Base::Aggregate, room, IrType::Struct { first, rest })
    }

    /// The struct with these fields.
    #[tactic(auto, unfolding(crate::specs::Written::struct_of))]
    fn struct_of(&mut self, room: u32, fields: &[WrittenType]) -> Result<WrittenType, Fault>
        ensures { Reads ((form.struct_of room fields.now).read self.old) result self.new }
    {
        let mut whole = self.interned(Base::Aggregate, room, IrType::EmptyStruct)?;
        for at in (0..fields.len()).rev() {
            whole = self.field_before(fields[at], whole)?;
        }
        Ok(whole)
    }

    /// A type of at most `levels` levels.
    #[cycle(types)]
    #[tactic(auto, unfolding(crate::specs::Written::firm))]
    pub fn part(&mut self, alloc: Global, levels: u32) -> Result<WrittenType, Fault>
        ensures { Reads ((form.part levels).read self.old) result self.new }
    {
        if levels == 0 {
            return Err(self.no_type());
        }
        let start = self.cursor.start();
        let base = self.base(alloc, levels - 1)?;
        self.starred(start, base)
    }

    /// A type before its stars, of at most `room` levels over its first.
    #[cycle(types)]
    fn base(&mut self, alloc: Global, room: u32) -> Result<WrittenType, Fault>
        ensures { Reads ((form.base room (form.firm room)).read self.old) result self.new }
    {
        match self.kind() {
            Kind::IntegerType => {
                let bits = self.integer()?;
                self.interned(Base::Integer(bits), room, IrType::Integer(bits))
            }
            Kind::LocalName => {
                let name = self.struct_name(alloc)?;
                self.interned(Base::Named, room, IrType::Named(name))
            }
            Kind::OpenSquare => self.array(alloc, room),
            Kind::OpenBrace => self.braced(alloc, room),
            Kind::Ptr => {
                let id = self.opaque_type()?;
                Ok(WrittenType {
                    base: Base::Opaque,
                    stars: 0,
                    id,
                    room,
                })
            }
            Kind::LeftOut => self.float_written(room),
            Kind::Void => Err(self.no_void()),
            kind => Err(self.refuse(begins_unread_type(kind))),
        }
    }

    /// `[n x T]`, whose part has at most `levels` levels.
    #[cycle(types)]
    fn array(&mut self, alloc: Global, levels: u32) -> Result<WrittenType, Fault>
        ensures { Reads ((form.array (form.firm levels)).read self.old) result self.new }
    {
        self.skip();
        let length = self.array_length()?;
        self.expect(Kind::X)?;
        let part = self.part(alloc, levels)?;
        self.expect(Kind::CloseSquare)?;
        let array = IrType::Array {
            length,
            part: part.id,
        };
        self.interned(Base::Aggregate, part.room, array)
    }

    /// `{ T, .. }`, whose fields have at most `levels` levels.
    #[cycle(types)]
    fn braced(&mut self, alloc: Global, levels: u32) -> Result<WrittenType, Fault>
        ensures { Reads ((form.braced levels (form.firm levels)).read self.old) result self.new }
    {
        self.skip();
        let fields = self.fields(alloc, levels)?;
        self.expect(Kind::CloseBrace)?;
        self.struct_of(levels, fields.as_slice())
    }

    /// The fields of a struct, of at most `levels` levels.
    #[cycle(types)]
    fn fields(&mut self, alloc: Global, levels: u32) -> Result<Items<WrittenType>, Fault>
        ensures { Reads (many_from form.at_brace (form.field (form.firm levels)).read (suc (left self.old)) [] self.old) result self.new }
    {
        let mut found = Items::new(alloc);
        for _turn in 0..self.left() + 1 {
            if self.sees(Kind::CloseBrace) {
                return Ok(found);
            }
            found.push(self.field(alloc, levels)?)?;
        }
        Ok(found)
    }

    /// A field of a struct, of at most `levels` levels.
    #[cycle(types)]
    fn field(&mut self, alloc: Global, levels: u32) -> Result<WrittenType, Fault>
        ensures { Reads ((form.field (form.firm levels)).read self.old) result self.new }
    {
        let part = self.part(alloc, levels)?;
        self.after_field()?;
        Ok(part)
    }

    /// `{ T, .. }` as the definition of a named struct. Returns its place.
    #[tactic(auto, unfolding(crate::specs::Written::struct_body))]
    pub fn struct_body(&mut self, alloc: Global) -> Result<TypeId, Fault>
        ensures { Reads (form.struct_body.read self.old) result self.new }
    {
        Ok(self.braced(alloc, ROOM)?.id)
    }
}
