//! What is found at a fault of a module's text, in one sentence.
use crate::numbering::next_number;
use crate::site::{Site, put_quoted, put_word};
use crate::sorts::{Sort, sort_of};
use explain::Code;
use ir_ast::Runtime;
use ir_tokens::{Kind, TEXT_LIMIT};
use messages::Message;

/// The bytes with which a text in UTF-8 begins that says so.
pub(crate) const MARK: &[u8] = &[0xef, 0xbb, 0xbf];

/// L1: a byte with which no token begins.
pub(crate) fn put_bad_byte(out: &mut Message, text: &[u8], place: usize) {
    match text.get(place..) {
        Some([0xef, 0xbb, 0xbf, ..]) if place == 0 => {
            out.put("a byte order mark begins no token")
        }
        Some([b'"', ..] | [b'@' | b'%', b'"', ..]) => {
            out.put("this text in quotes does not end on its line")
        }
        Some([byte, ..]) => put_one_byte(out, *byte),
        _ => out.put("the text ends within a token"),
    }
}

/// The same of a byte that begins neither a mark nor a text in quotes.
fn put_one_byte(out: &mut Message, byte: u8) {
    if byte > 0x20 && byte < 0x7f {
        put_quoted(out, &[byte]);
    } else {
        out.put("the byte ");
        out.put_number(u64::from(byte));
    }
    out.put(" begins no token")
}

/// How many braces are open after a token.
fn open_braces(site: Site, from: usize) -> Option<usize> {
    let mut open: usize = 0;
    let mut has_some = false;
    for at in from..site.tokens.len() {
        match site.kind_of(at) {
            Kind::OpenBrace => {
                open = open.saturating_add(1);
                has_some = true;
            }
            Kind::CloseBrace => open = open.saturating_sub(1),
            _ => {}
        }
    }
    if has_some { Some(open) } else { None }
}

/// L2: the function or another item in which a text ends. The token is one after the last.
pub(crate) fn put_unfinished(out: &mut Message, site: Site) {
    out.put("the text ends inside ");
    match site.define() {
        Some(define) if !matches!(open_braces(site, define), Some(0)) => {
            put_name_or(out, site.name_after(define), "a function")
        }
        _ => out.put("an item"),
    }
}

/// A name, or other words where it is empty.
fn put_name_or(out: &mut Message, name: &[u8], otherwise: &str) {
    if name.is_empty() {
        out.put(otherwise)
    } else {
        put_word(out, name)
    }
}

/// L3: a token with which no form goes on.
fn put_unexpected(out: &mut Message, site: Site) {
    put_quoted(out, site.spelled());
    out.put(" is not expected here")
}

/// The name of a token: a label with the sign of blocks.
pub(crate) fn put_name(out: &mut Message, site: Site) {
    match site.spelled() {
        [label @ .., b':'] => {
            out.put("%");
            put_word(out, label)
        }
        name => put_word(out, name),
    }
}

/// L4: a name, or the case of a switch.
fn put_twice(out: &mut Message, site: Site) {
    if matches!(site.kind(), Kind::Number | Kind::True | Kind::False) {
        out.put("the case ");
        put_word(out, site.spelled());
        return out.put(" stands in this switch twice");
    }
    put_name(out, site);
    out.put(" is defined twice")
}

/// What a name means that is none of the sort that is wanted.
fn sort_text(sort: Sort) -> &'static str {
    match sort {
        Sort::None => " is not defined",
        Sort::Undeclared => " is not declared",
        Sort::Block => " is a block, and no value",
        Sort::Value => " is a value, and no block",
        Sort::Entry => " is the first block, to which nothing leads",
        Sort::Global => " is a global, and no function",
    }
}

/// Whether a name with its sign is that of a function of the runtime, or of one of LLVM's functions of numbers.
fn is_runtime(name: &[u8]) -> bool {
    match name {
        [b'@', name @ ..] => Runtime::of(name).is_some(),
        _ => false,
    }
}

/// L5: a name that is not defined, or means another thing.
fn put_not_defined(out: &mut Message, site: Site) {
    put_name(out, site);
    out.put(sort_text(match sort_of(site) {
        Sort::None if is_runtime(site.spelled()) => Sort::Undeclared,
        sort => sort,
    }))
}

/// The number of the type that comes last before a token on its line, as `i8`.
fn type_before(site: Site) -> Option<usize> {
    for at in (0..site.at).rev() {
        match (site.kind_of(at), site.spelled_of(at)) {
            (Kind::IntegerType, _) | (_, b"float" | b"double") => return Some(at),
            _ => {}
        }
        match site.tokens.get(at) {
            Some(token) if token.begins_line => return None,
            _ => {}
        }
    }
    None
}

/// A number from its first token on, as `0.1`.
fn number_at<'a>(site: Site<'a>) -> &'a [u8] {
    let start = match site.tokens.get(site.at) {
        Some(token) => token.start as usize,
        None => return &[],
    };
    let rest = site.text.get(start..).unwrap_or(&[]);
    let length = rest
        .iter()
        .take_while(|byte| !matches!(
            **byte,
            b' ' | b',' | b')' | b']' | b'\t' | b'\r' | b'\n' | b';'
        ))
        .count();
    rest.get(..length).unwrap_or(rest)
}

/// L6: a number and its type.
fn put_out_of_range(out: &mut Message, site: Site) {
    put_word(out, number_at(site));
    match (site.kind(), type_before(site)) {
        (Kind::IntegerType, _) => out.put(" is no type: an integer has 1 to 64 bits"),
        (_, Some(at)) if !matches!(site.kind_after(), Kind::X) => {
            out.put(" does not fit ");
            put_word(out, site.spelled_of(at))
        }
        _ => out.put(" is out of range"),
    }
}

/// What there is too much of at a token.
fn limit_text(site: Site) -> &'static str {
    match (site.kind(), site.kind_before(), site.kind_after()) {
        (Kind::Define, ..) | (_, Kind::Define, _) => "the module defines more than 65535 functions",
        (Kind::Declare, ..) | (_, Kind::Declare, _) => {
            "the module declares more than 65535 functions"
        }
        (Kind::GlobalName, _, Kind::Equals) => "the module has more than 4096 globals",
        (Kind::LabelName | Kind::LabelNumber, ..) => "the function has more than 65535 blocks",
        (Kind::LocalName | Kind::LocalNumber, ..) => "the function has more than 1000000 values",
        (
            Kind::Star
            | Kind::OpenSquare
            | Kind::OpenBrace
            | Kind::Less
            | Kind::IntegerType
            | Kind::Ptr,
            ..
        ) => "this type has more than 64 levels",
        _ => "a limit is passed here",
    }
}

/// L8: what there is too much of.
pub(crate) fn put_limit(out: &mut Message, text: &[u8], site: Option<Site>) {
    match site {
        Some(site) => out.put(limit_text(site)),
        None if text.len() > TEXT_LIMIT => out.put("the text has more than 16777216 bytes"),
        None => out.put("a limit is passed here"),
    }
}

/// L9: a number in place of a name, and the next one.
fn put_out_of_turn(out: &mut Message, site: Site) {
    put_name(out, site);
    out.put(" is out of turn");
    if let Some(number) = next_number(site) {
        out.put(": the next number is %");
        out.put_number(number)
    }
}

/// L10: a pointer type of the second kind.
fn put_other_pointer(out: &mut Message, site: Site) {
    out.put(if matches!(site.kind(), Kind::Ptr) {
        "`ptr` stands in a text that has pointers with a star"
    } else {
        "a pointer with a star stands in a text that has `ptr`"
    })
}

/// What is found at a token that is at fault by this code.
pub(crate) fn put_at_token(out: &mut Message, site: Site, code: Code) {
    match code {
        Code::L4 => put_twice(out, site),
        Code::L5 => put_not_defined(out, site),
        Code::L6 => put_out_of_range(out, site),
        Code::L9 => put_out_of_turn(out, site),
        Code::L10 => put_other_pointer(out, site),
        _ => put_unexpected(out, site),
    }
}
