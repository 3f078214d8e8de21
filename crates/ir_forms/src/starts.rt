//! Kinds of tokens with which forms begin that are left out, and of flags.
ghost use Rattle.std.specs.Prelude.{◌≡◌};
ghost use Rattle.ir_forms.specs.Starts as spec;

use crate::cursor::same_kind;
use ir_tokens::Kind;

/// Whether a type begins with a token of this kind, also one that is left out.
pub fn begins_any_type(kind: Kind) -> bool
    ensures { result ≡ spec.begins_any_type kind }
{
    matches!(
        kind,
        Kind::IntegerType
            | Kind::LocalName
            | Kind::LocalNumber
            | Kind::OpenSquare
            | Kind::OpenBrace
            | Kind::Less
            | Kind::Ptr
    )
}

/// Whether a word of a form that is left out is one of a type.
fn is_left_out_type(word: &[u8]) -> bool
    ensures { result ≡ spec.is_left_out_type word.now }
{
    word == b"half".as_slice()
        || word == b"bfloat".as_slice()
        || word == b"float".as_slice()
        || word == b"double".as_slice()
        || word == b"x86_fp80".as_slice()
        || word == b"fp128".as_slice()
        || word == b"ppc_fp128".as_slice()
        || word == b"x86_mmx".as_slice()
        || word == b"x86_amx".as_slice()
        || word == b"metadata".as_slice()
        || word == b"token".as_slice()
}

/// Whether a token of this kind and spelling makes a level of a type, which is of any form.
pub fn makes_level(kind: Kind, word: &[u8]) -> bool
    ensures { result ≡ spec.makes_level kind word.now }
{
    match kind {
        Kind::Void | Kind::Label | Kind::Target => true,
        Kind::LeftOut => is_left_out_type(word),
        kind => begins_any_type(kind),
    }
}

/// What is called in place of a function by its name.
pub fn is_indirect_callee(kind: Kind) -> bool
    ensures { result ≡ spec.is_indirect_callee kind }
{
    matches!(
        kind,
        Kind::LocalName | Kind::LocalNumber | Kind::Bitcast | Kind::OpenRound
    )
}

/// Whether the instruction with this word has a result that may wrap.
fn may_wrap(word: Kind) -> bool
    ensures { result ≡ spec.may_wrap word }
{
    matches!(
        word,
        Kind::Add | Kind::Sub | Kind::Mul | Kind::Trunc | Kind::LeftOut
    )
}

/// Whether this is a flag of the instruction with this word.
pub fn is_flag_of(word: Kind, flag: Kind) -> bool
    ensures { result ≡ spec.is_flag_of word flag }
{
    match flag {
        Kind::Nuw => may_wrap(word) || same_kind(word, Kind::Getelementptr),
        Kind::Nsw => may_wrap(word),
        Kind::Nusw | Kind::Inbounds => same_kind(word, Kind::Getelementptr),
        Kind::Nneg => same_kind(word, Kind::Zext),
        Kind::Disjoint => same_kind(word, Kind::Or),
        Kind::Samesign => same_kind(word, Kind::Icmp),
        _ => false,
    }
}
