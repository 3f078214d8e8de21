//! The kinds of words.
ghost use Rattle.std.specs.Prelude.{◌≡◌, [], map};
ghost use Rattle.std.specs.List.{list_all, slice_index_or};
ghost use Rattle.ir_tokens.specs.Bytes.{is_digit as digit};
ghost use Rattle.ir_tokens.specs.Keywords as spec;

use crate::bytes::is_digit;
use crate::token::Kind;

/// The words that have kinds of their own, by their first letters.
static WORDS: [&[(&[u8], Kind)]; 26] = [
    &[
        (b"attributes", Kind::Attributes),
        (b"alloca", Kind::Alloca),
        (b"add", Kind::Add),
        (b"and", Kind::And),
        (b"align", Kind::Align),
        (b"ashr", Kind::LeftOut),
        (b"addrspacecast", Kind::LeftOut),
        (b"addrspace", Kind::LeftOut),
        (b"atomic", Kind::LeftOut),
        (b"atomicrmw", Kind::LeftOut),
        (b"asm", Kind::LeftOut),
        (b"alias", Kind::LeftOut),
    ],
    &[
        (b"bitcast", Kind::Bitcast),
        (b"br", Kind::Br),
        (b"bfloat", Kind::LeftOut),
        (b"blockaddress", Kind::LeftOut),
        (b"byval", Kind::LeftOut),
    ],
    &[
        (b"constant", Kind::Constant),
        (b"comdat", Kind::Comdat),
        (b"call", Kind::Call),
        (b"callbr", Kind::LeftOut),
        (b"catchpad", Kind::LeftOut),
        (b"catchret", Kind::LeftOut),
        (b"catchswitch", Kind::LeftOut),
        (b"cleanuppad", Kind::LeftOut),
        (b"cleanupret", Kind::LeftOut),
        (b"cmpxchg", Kind::LeftOut),
    ],
    &[
        (b"define", Kind::Define),
        (b"declare", Kind::Declare),
        (b"datalayout", Kind::Datalayout),
        (b"disjoint", Kind::Disjoint),
        (b"double", Kind::LeftOut),
        (b"dso_local_equivalent", Kind::LeftOut),
    ],
    &[
        (b"external", Kind::External),
        (b"extern_weak", Kind::ExternWeak),
        (b"eq", Kind::Eq),
        (b"extractelement", Kind::LeftOut),
        (b"extractvalue", Kind::LeftOut),
    ],
    &[
        (b"false", Kind::False),
        (b"fdiv", Kind::LeftOut),
        (b"frem", Kind::LeftOut),
        (b"fadd", Kind::LeftOut),
        (b"fsub", Kind::LeftOut),
        (b"fmul", Kind::LeftOut),
        (b"fneg", Kind::LeftOut),
        (b"fcmp", Kind::LeftOut),
        (b"fptrunc", Kind::LeftOut),
        (b"fpext", Kind::LeftOut),
        (b"fptoui", Kind::LeftOut),
        (b"fptosi", Kind::LeftOut),
        (b"float", Kind::LeftOut),
        (b"fp128", Kind::LeftOut),
        (b"fence", Kind::LeftOut),
        (b"freeze", Kind::LeftOut),
    ],
    &[
        (b"global", Kind::Global),
        (b"gc", Kind::Gc),
        (b"getelementptr", Kind::Getelementptr),
    ],
    &[(b"half", Kind::LeftOut)],
    &[
        (b"icmp", Kind::Icmp),
        (b"inbounds", Kind::Inbounds),
        (b"insertelement", Kind::LeftOut),
        (b"insertvalue", Kind::LeftOut),
        (b"inttoptr", Kind::LeftOut),
        (b"invoke", Kind::LeftOut),
        (b"indirectbr", Kind::LeftOut),
        (b"inalloca", Kind::LeftOut),
        (b"ifunc", Kind::LeftOut),
    ],
    &[],
    &[],
    &[
        (b"label", Kind::Label),
        (b"load", Kind::Load),
        (b"lshr", Kind::LeftOut),
        (b"landingpad", Kind::LeftOut),
    ],
    &[
        (b"mul", Kind::Mul),
        (b"musttail", Kind::LeftOut),
        (b"module", Kind::LeftOut),
        (b"metadata", Kind::LeftOut),
    ],
    &[
        (b"null", Kind::Null),
        (b"ne", Kind::Ne),
        (b"nsw", Kind::Nsw),
        (b"nuw", Kind::Nuw),
        (b"nusw", Kind::Nusw),
        (b"nneg", Kind::Nneg),
        (b"notail", Kind::Notail),
        (b"no_cfi", Kind::LeftOut),
    ],
    &[(b"or", Kind::Or), (b"opaque", Kind::LeftOut)],
    &[
        (b"ptr", Kind::Ptr),
        (b"phi", Kind::Phi),
        (b"ppc_fp128", Kind::LeftOut),
        (b"ptrtoint", Kind::LeftOut),
        (b"ptrtoaddr", Kind::LeftOut),
        (b"ptrauth", Kind::LeftOut),
        (b"personality", Kind::LeftOut),
        (b"prefix", Kind::LeftOut),
        (b"prologue", Kind::LeftOut),
        (b"poison", Kind::LeftOut),
        (b"preallocated", Kind::LeftOut),
    ],
    &[],
    &[(b"ret", Kind::Ret), (b"resume", Kind::LeftOut)],
    &[
        (b"source_filename", Kind::SourceFilename),
        (b"store", Kind::Store),
        (b"sub", Kind::Sub),
        (b"sext", Kind::Sext),
        (b"select", Kind::Select),
        (b"switch", Kind::Switch),
        (b"sgt", Kind::Sgt),
        (b"sge", Kind::Sge),
        (b"slt", Kind::Slt),
        (b"sle", Kind::Sle),
        (b"samesign", Kind::Samesign),
        (b"sdiv", Kind::LeftOut),
        (b"srem", Kind::LeftOut),
        (b"shl", Kind::LeftOut),
        (b"sitofp", Kind::LeftOut),
        (b"shufflevector", Kind::LeftOut),
        (b"sret", Kind::LeftOut),
    ],
    &[
        (b"type", Kind::Type),
        (b"target", Kind::Target),
        (b"triple", Kind::Triple),
        (b"true", Kind::True),
        (b"trunc", Kind::Trunc),
        (b"to", Kind::To),
        (b"tail", Kind::Tail),
        (b"thread_local", Kind::LeftOut),
        (b"token", Kind::LeftOut),
    ],
    &[
        (b"undef", Kind::Undef),
        (b"unreachable", Kind::Unreachable),
        (b"ugt", Kind::Ugt),
        (b"uge", Kind::Uge),
        (b"ult", Kind::Ult),
        (b"ule", Kind::Ule),
        (b"udiv", Kind::LeftOut),
        (b"urem", Kind::LeftOut),
        (b"uitofp", Kind::LeftOut),
        (b"uselistorder", Kind::LeftOut),
        (b"uselistorder_bb", Kind::LeftOut),
    ],
    &[
        (b"void", Kind::Void),
        (b"volatile", Kind::Volatile),
        (b"va_arg", Kind::LeftOut),
    ],
    &[],
    &[
        (b"x", Kind::X),
        (b"xor", Kind::Xor),
        (b"x86_fp80", Kind::LeftOut),
        (b"x86_mmx", Kind::LeftOut),
        (b"x86_amx", Kind::LeftOut),
    ],
    &[],
    &[
        (b"zeroinitializer", Kind::Zeroinitializer),
        (b"zext", Kind::Zext),
    ],
];

fn kind_in(mut entries: &[(&[u8], Kind)], word: &[u8]) -> Option<Kind>
    ensures { result ≡ spec.kind_in (map (λ entry. (entry.0.now, entry.1)) entries.entry.now) word.now }
{
    while let [entry, rest @ ..] = entries {
        if entry.0 == word {
            return Some(entry.1);
        }
        entries = rest;
    }
    None
}

fn kind_in_row(rows: &[&[(&[u8], Kind)]], at: usize, word: &[u8]) -> Option<Kind>
    ensures { result ≡ spec.kind_in (slice_index_or (map (λ row. map (λ entry. (entry.0.now, entry.1)) row.now) rows.now) at []) word.now }
{
    match rows.get(at) {
        Some(row) => kind_in(row, word),
        None => None,
    }
}

/// The kind of a word that has one of its own.
fn keyword(word: &[u8]) -> Option<Kind>
    ensures { result ≡ spec.kind_in spec.keywords word.now }
{
    match word {
        [] => None,
        [first, ..] => {
            if is_lowercase(*first) {
                kind_in_row(&WORDS, (*first - b'a') as usize, word)
            } else {
                None
            }
        }
    }
}

fn are_digits(bytes: &[u8]) -> bool
    ensures { result ≡ list_all digit bytes.now }
{
    bytes.iter().all(|byte| is_digit(*byte))
}

fn is_number(bytes: &[u8]) -> bool
    ensures { result ≡ spec.is_number bytes.now }
{
    match bytes {
        [] => false,
        [first, rest @ ..] => is_digit(*first) && are_digits(rest),
    }
}

fn is_integer_type(word: &[u8]) -> bool
    ensures { result ≡ spec.is_integer_type word.now }
{
    match word {
        [] => false,
        [first, rest @ ..] => *first == b'i' && is_number(rest),
    }
}

fn is_negative_number(word: &[u8]) -> bool
    ensures { result ≡ spec.is_negative_number word.now }
{
    match word {
        [] => false,
        [first, rest @ ..] => *first == b'-' && is_number(rest),
    }
}

fn is_lowercase(byte: u8) -> bool
    ensures { result ≡ spec.is_lowercase byte }
{
    byte.is_ascii_lowercase()
}

fn goes_on_lowercase(bytes: &[u8]) -> bool
    ensures { result ≡ list_all spec.is_lowercase_part bytes.now }
{
    bytes.iter().all(|byte| is_lowercase(*byte) || is_digit(*byte) || *byte == b'_')
}

fn is_lowercase_word(word: &[u8]) -> bool
    ensures { result ≡ spec.is_lowercase_word word.now }
{
    match word {
        [] => false,
        [first, rest @ ..] => is_lowercase(*first) && goes_on_lowercase(rest),
    }
}

fn other_word(word: &[u8]) -> Kind
    ensures { result ≡ spec.other_word word.now }
{
    if is_negative_number(word) {
        Kind::Number
    } else if is_lowercase_word(word) {
        Kind::LowercaseWord
    } else if word == b"...".as_slice() {
        Kind::Dots
    } else {
        Kind::Word
    }
}

/// The kind of what is written like a plain name and has no sign before it.
#[tactic(auto, unfolding(crate::specs::Keywords::word_kind))]
pub fn word_kind(word: &[u8]) -> Kind
    ensures { result ≡ spec.word_kind word.now }
{
    if is_integer_type(word) {
        return Kind::IntegerType;
    }
    match keyword(word) {
        Some(kind) => kind,
        None => other_word(word),
    }
}
