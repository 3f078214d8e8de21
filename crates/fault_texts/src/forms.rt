//! What was expected where a text goes on with no form: the form that its line begins.
use crate::near::spelled;
use ir_tokens::{Kind, Lexed, TEXT_LIMIT, Token, read_tokens};
use messages::{NamedText, Pointers};
use std::alloc::{AllocError, Global};

/// The form of an item of the module.
fn item_of(kind: Kind) -> &'static str {
    match kind {
        Kind::Define => "define T @f(T %a, ..) gc \"shadow-stack\" {",
        Kind::Declare => "declare T @f(T, ..)",
        Kind::GlobalName => "@g = global T CONSTANT",
        Kind::LocalName => "%T = type { T, .. }",
        Kind::LabelName | Kind::LabelNumber => "label:, and then an instruction on the next line",
        _ => "",
    }
}

/// The form of an instruction that is on integers, or chooses.
fn number_of(kind: Kind) -> &'static str {
    match kind {
        Kind::Add | Kind::Sub | Kind::Mul | Kind::And | Kind::Or | Kind::Xor => {
            "%v = add T V, W, and so sub, mul, and, or, xor"
        }
        Kind::Zext | Kind::Sext | Kind::Trunc => "%v = zext T V to U, and so sext, trunc",
        Kind::Icmp => "%v = icmp eq T V, W, and so ne, ugt, uge, ult, ule, sgt, sge, slt, sle",
        Kind::Select => "%v = select i1 V, T V, T W",
        Kind::Phi => "%v = phi T [ V, %b ], [ W, %c ]",
        _ => "",
    }
}

/// The form of an instruction that writes the type of a place.
fn of_place(kind: Kind, pointers: Pointers) -> &'static str {
    match (kind, pointers) {
        (Kind::Load, Pointers::Opaque) => "%v = load T, ptr V",
        (Kind::Load, Pointers::Typed) => "%v = load T, T* V",
        (Kind::Store, Pointers::Opaque) => "store T V, ptr W",
        (Kind::Store, Pointers::Typed) => "store T V, T* W",
        (Kind::Getelementptr, Pointers::Opaque) => "%v = getelementptr T, ptr V, i32 0, T W, ..",
        (Kind::Getelementptr, Pointers::Typed) => "%v = getelementptr T, T* V, i32 0, T W, ..",
        _ => "",
    }
}

/// The form of an instruction on memory, of a call, or of the end of a block.
fn other_of(kind: Kind, pointers: Pointers) -> &'static str {
    match kind {
        Kind::Load | Kind::Store | Kind::Getelementptr => of_place(kind, pointers),
        Kind::Alloca => "%v = alloca T",
        Kind::Bitcast => "%v = bitcast T V to U",
        Kind::Call | Kind::Tail | Kind::Notail => "call T @f(T V, ..)",
        Kind::Br => "br label %b, or br i1 V, label %a, label %b",
        Kind::Switch => "switch T V, label %d [ T CONSTANT, label %b .. ]",
        Kind::Ret => "ret void, or ret T V",
        _ => "",
    }
}

fn form_of(kind: Kind, pointers: Pointers) -> &'static str {
    let number = number_of(kind);
    if !number.is_empty() {
        return number;
    }
    other_of(kind, pointers)
}

/// The form of an item of the module that begins with these two, or of an instruction that gives a value.
fn item_before(first: Kind, word: Kind) -> &'static str {
    if matches!(first, Kind::LocalName) && !matches!(word, Kind::Type) {
        return "%v = INSTRUCTION; docs/TEXT.md has those that are read";
    }
    item_of(first)
}

/// The form of an instruction on floating point numbers, by its word.
fn float_form_of(word: &[u8]) -> &'static str {
    match word {
        b"fadd" | b"fsub" | b"fmul" | b"fdiv" | b"frem" => {
            "%v = fadd T V, W, and so fsub, fmul, fdiv, frem, where T is float or double"
        }
        b"fneg" => "%v = fneg T V, where T is float or double",
        b"fcmp" => {
            "%v = fcmp oeq T V, W, and so ogt, oge, olt, ole, one, ord, ueq, ugt, uge, ult, ule, une, uno, true, false, where T is float or double"
        }
        b"fpext" | b"fptrunc" => "%v = fpext float V to double, or %v = fptrunc double V to float",
        b"fptosi" | b"fptoui" => "%v = fptosi T V to iN, and so fptoui, where T is float or double",
        b"sitofp" | b"uitofp" => "%v = sitofp iN V to T, and so uitofp, where T is float or double",
        _ => "",
    }
}

/// A line of a text in which the wide forms may stand or not: its tokens, and the kind of pointers of the text.
#[derive(Clone, Copy)]
struct Line<'a> {
    text: &'a [u8],
    wide: bool,
    tokens: &'a [Token],
    pointers: Pointers,
}

/// The form of an instruction that begins with this token.
fn form_at(line: Line, token: &Token) -> &'static str {
    let form = form_of(token.kind, line.pointers);
    if form.is_empty() && line.wide {
        return float_form_of(spelled(line.text, token));
    }
    form
}

/// The form that is begun by the tokens of a line.
fn form_of_line(line: Line) -> &'static str {
    let [first, rest @ ..] = line.tokens else {
        return "";
    };
    let of_first = form_at(line, first);
    if !of_first.is_empty() {
        return of_first;
    }
    match rest {
        [_, word, ..] => {
            let of_word = form_at(line, word);
            if of_word.is_empty() {
                item_before(first.kind, word.kind)
            } else {
                of_word
            }
        }
        _ => item_of(first.kind),
    }
}

/// The tokens from the beginning of the line on which a place is, or of the line before where it begins its own.
fn from_line(tokens: &[Token], place: u32) -> &[Token] {
    let mut found: &[Token] = &[];
    for (index, token) in tokens.iter().enumerate() {
        if token.start >= place && index > 0 {
            return found;
        }
        if token.begins_line {
            found = tokens.get(index..).unwrap_or(&[]);
        }
    }
    found
}

/// The tokens of a text, if it is not too long.
pub fn lexed_of(alloc: Global, named: NamedText) -> Result<Option<Lexed>, AllocError> {
    if named.text.len() > TEXT_LIMIT {
        return Ok(None);
    }
    Ok(Some(read_tokens(alloc, named.text)?))
}

/// The form that was begun before a place of the text, in which the wide forms may stand or not.
pub fn form_before(
    alloc: Global,
    named: NamedText,
    wide: bool,
    place: usize,
) -> Result<&'static str, AllocError> {
    let Ok(place) = u32::try_from(place) else {
        return Ok("");
    };
    match lexed_of(alloc, named)? {
        Some(lexed) => {
            let tokens = lexed.tokens.as_slice();
            Ok(form_of_line(Line {
                text: named.text,
                wide,
                tokens: from_line(tokens, place),
                pointers: Pointers::of_tokens(tokens),
            }))
        }
        None => Ok(""),
    }
}

/// The form of a line of a trace, by its first word.
pub fn trace_form_of(word: &[u8]) -> &'static str {
    match word {
        b"trace" => "trace 1, or trace 2 where threads begin late",
        b"pool" => "pool L N, for each layout at most once",
        b"start" => "start @f N .., where N are its integer arguments",
        b"late" => "late @f N .., in a text that begins with `trace 2`",
        b"values" =>
            "values N .., the numbers from outside of the thread before it, where the module is read with `--forms wide`",
        b"steps" => "steps, after the lines of pools and threads",
        b"t" => "t I N, where thread I makes the next N steps",
        b"c" => "c N, where the collector makes the next N steps",
        b"end" => "end, with nothing after it",
        _ => {
            "a trace begins with `trace 1` or `trace 2`, has lines of pools and threads, then `steps` and lines of steps, and ends with `end`"
        }
    }
}

/// The form of a line of a certificate, by its first word.
pub fn cert_form_of(word: &[u8]) -> &'static str {
    match word {
        b"cert" => "cert 2 for a text with `ptr`, cert 1 for one with typed pointers",
        b"number" =>
            "number L N with N below 4294967296, after the first line, where the module is read with `--forms wide`",
        b"foreign" =>
            "foreign @f none, after the first line, where the module is read with `--forms wide`",
        b"layout" => "layout L WORD ref M",
        b"global" => "global @g ref M",
        b"root" => "root @f %s ref M",
        b"function" => "function @f may, or function @f none",
        b"param" =>
            "param %x [ref L] [nonnull] [below N], or with `--forms wide` param %x i64 for an address outside of the module",
        b"result" =>
            "result [ref L] [nonnull] [below N], or with `--forms wide` result i64 for an address outside of the module",
        b"block" => "block %b",
        b"slot" => "slot %s [nonnull] [holds %x]",
        b"end" => "end, after the last block of a section",
        [b'%', ..] => {
            "%v iN [below N], %v ref L [nonnull] [stale | fresh] [same %w], %v addr %x WORDS, %v addr @g, or with `--forms wide` %p i64 for an address outside of the module"
        }
        _ => "",
    }
}
