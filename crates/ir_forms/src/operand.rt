//! Constants and operands.
ghost use Rattle.std.specs.Prelude.{◌≡◌};
ghost use Rattle.ir_forms.specs.Input.{Reads};
ghost use Rattle.ir_forms.specs.Operand as form;

use crate::fault::Fault;
use crate::float_numbers::{float_bits, is_float};
use crate::input::Input;
use crate::number::constant;
use crate::written::Word;
use ir_ast::{Constant, Operand, SymbolId};
use ir_tokens::Kind;
use std::alloc::Global;

/// Kinds of tokens with which an operand begins that is left out: a constant expression, a vector or a packed struct.
pub fn begins_unread_operand(kind: Kind) -> bool
    ensures { result ≡ form.begins_unread_operand kind }
{
    matches!(
        kind,
        Kind::Bitcast
            | Kind::Getelementptr
            | Kind::Add
            | Kind::Sub
            | Kind::Mul
            | Kind::And
            | Kind::Or
            | Kind::Xor
            | Kind::Zext
            | Kind::Sext
            | Kind::Trunc
            | Kind::Icmp
            | Kind::Select
            | Kind::Less
    )
}

/// What `undef` and `zeroinitializer` are as a word of this sort.
fn zero_of(word: Word) -> Constant
    ensures { result ≡ form.zero_of word }
{
    match word {
        Word::Pointer => Constant::Null,
        Word::Integer(_) => Constant::Number(0),
        Word::Float | Word::Double => Constant::Float(0),
    }
}

/// What `true` and `false` are.
fn truth_of(word: Word, truth: bool) -> Constant
    ensures { result ≡ form.truth_of word truth }
{
    match word {
        Word::Integer(1) => Constant::Number(if truth { 1 } else { 0 }),
        _ => Constant::Truth(truth),
    }
}

/// How many bits an integer has; a pointer has 64.
fn bits_of_word(word: Word) -> u32
    ensures { result ≡ form.bits_of_word word }
{
    match word {
        Word::Integer(bits) => bits,
        _ => 64,
    }
}

/// Whether a word of this sort holds a number of 64 bits.
fn holds_float(word: Word, number: u64) -> bool
    ensures { result ≡ form.holds_float word number }
{
    match word {
        Word::Float => is_float(number),
        _ => true,
    }
}

/// A number that a word of this sort holds.
fn held_float(word: Word, number: Option<u64>) -> Option<u64>
    ensures { result ≡ form.held_float word number }
{
    let number = number?;
    if holds_float(word, number) {
        Some(number)
    } else {
        None
    }
}

/// Kinds of tokens with which an operand begins that is no global.
fn begins_other_operand(kind: Kind) -> bool
    ensures { result ≡ form.begins_other_operand kind }
{
    begins_unread_operand(kind)
        || matches!(
            kind,
            Kind::LocalName
                | Kind::LocalNumber
                | Kind::Number
                | Kind::True
                | Kind::False
                | Kind::Null
                | Kind::Undef
                | Kind::Zeroinitializer
        )
}

impl<'a> Input<'a> {
    /// A number, which has to be in the range of its type.
    #[tactic(auto, unfolding(crate::specs::Operand::number, crate::specs::Operand::number_at))]
    fn number(&mut self, word: Word) -> Result<Constant, Fault>
        ensures { Reads ((form.number word).read self.old) result self.new }
    {
        match constant(self.cursor.spelling(), bits_of_word(word)) {
            Some(number) => {
                self.skip();
                Ok(Constant::Number(number))
            }
            None => Err(Fault::OutOfRange(self.cursor.start())),
        }
    }

    /// The bits of the number that is here, if the word holds it.
    #[tactic(auto, unfolding(crate::specs::Operand::float_at))]
    fn float_at(&self, word: Word) -> Option<u64>
        ensures { result ≡ form.float_at word self.now }
    {
        held_float(word, float_bits(self.cursor.run()))
    }

    /// A floating point number, which its type has.
    #[tactic(auto, unfolding(crate::specs::Operand::float_number))]
    fn float_number(&mut self, word: Word) -> Result<Constant, Fault>
        ensures { Reads ((form.float_number word).read self.old) result self.new }
    {
        if !self.cursor.sees_float() {
            return Err(self.refuse(false));
        }
        match self.float_at(word) {
            Some(number) => {
                self.cursor.skip_run();
                Ok(Constant::Float(number))
            }
            None => Err(Fault::OutOfRange(self.cursor.start())),
        }
    }

    /// A number as a word of this sort.
    fn number_by(&mut self, word: Word) -> Result<Constant, Fault>
        ensures { Reads ((form.number_by word).read self.old) result self.new }
    {
        match word {
            Word::Float | Word::Double => self.float_number(word),
            _ => self.number(word),
        }
    }

    /// A word of no kind of its own: a floating point number with a minus.
    fn word_by(&mut self, word: Word) -> Result<Constant, Fault>
        ensures { Reads ((form.word_by word).read self.old) result self.new }
    {
        match word {
            Word::Float | Word::Double => self.float_number(word),
            _ => Err(self.refuse(begins_unread_operand(self.kind()))),
        }
    }

    /// A constant as a word of this sort.
    #[tactic(auto, unfolding(crate::specs::Operand::constant))]
    pub fn constant(&mut self, word: Word) -> Result<Constant, Fault>
        ensures { Reads ((form.constant word).read self.old) result self.new }
    {
        match self.kind() {
            Kind::Number => self.number_by(word),
            Kind::Word => self.word_by(word),
            Kind::True => {
                self.skip();
                Ok(truth_of(word, true))
            }
            Kind::False => {
                self.skip();
                Ok(truth_of(word, false))
            }
            Kind::Null => {
                self.skip();
                Ok(Constant::Null)
            }
            Kind::Undef | Kind::Zeroinitializer => {
                self.skip();
                Ok(zero_of(word))
            }
            kind => Err(self.refuse(begins_unread_operand(kind))),
        }
    }

    /// The global in a constant bitcast.
    #[tactic(auto, unfolding(crate::specs::Operand::cast_operand))]
    fn cast_operand(&mut self, alloc: Global) -> Result<SymbolId, Fault>
        ensures { Reads (form.cast_operand.read self.old) result self.new }
    {
        match self.kind() {
            Kind::GlobalName => self.used_global(alloc),
            kind => Err(self.refuse(begins_other_operand(kind))),
        }
    }

    /// `bitcast (T* @g to U*)`
    #[tactic(auto, unfolding(crate::specs::Operand::cast))]
    fn cast(&mut self, alloc: Global) -> Result<Operand, Fault>
        ensures { Reads (form.cast.read self.old) result self.new }
    {
        self.skip();
        self.expect(Kind::OpenRound)?;
        let from = self.pointer_type(alloc)?.id;
        let global = self.cast_operand(alloc)?;
        self.expect(Kind::To)?;
        let to = self.pointer_type(alloc)?.id;
        self.expect(Kind::CloseRound)?;
        Ok(Operand::CastGlobal { from, global, to })
    }

    /// A constant getelementptr of an address outside, whose offset is lost, where the wide forms may stand.
    #[tactic(auto, unfolding(crate::specs::Operand::element_operand))]
    fn element_operand(&mut self, alloc: Global, word: Word) -> Result<Operand, Fault>
        ensures { Reads ((form.element_operand word).read self.old) result self.new }
    {
        match word {
            Word::Pointer if self.wide => {
                self.lose();
                Ok(Operand::Global(self.outside(alloc, 3)?))
            }
            _ => Ok(Operand::Constant(self.constant(word)?)),
        }
    }

    /// An operand as a word of this sort.
    #[tactic(auto, unfolding(crate::specs::Operand::operand))]
    pub fn operand(&mut self, alloc: Global, word: Word) -> Result<Operand, Fault>
        ensures { Reads ((form.operand word).read self.old) result self.new }
    {
        match self.kind() {
            Kind::LocalName | Kind::LocalNumber => Ok(Operand::Local(self.used_value(alloc)?)),
            Kind::GlobalName => Ok(Operand::Global(self.used_global(alloc)?)),
            Kind::Bitcast => self.cast(alloc),
            Kind::Getelementptr => self.element_operand(alloc, word),
            _ => Ok(Operand::Constant(self.constant(word)?)),
        }
    }
}
