//! The name of the module that is spelled most like another.
use ir_tokens::{Kind, Token};
use messages::Message;

fn same_at_front(one: &[u8], other: &[u8]) -> usize {
    one.iter()
        .zip(other.iter())
        .take_while(|pair| *pair.0 == *pair.1)
        .count()
}

fn same_at_back(one: &[u8], other: &[u8]) -> usize {
    one.iter()
        .rev()
        .zip(other.iter().rev())
        .take_while(|pair| *pair.0 == *pair.1)
        .count()
}

/// How many bytes of the longer name the other has at the same places, from the front and from the back.
fn likeness(one: &[u8], other: &[u8]) -> usize {
    let front = same_at_front(one, other);
    let most = one.len().min(other.len()).saturating_sub(front);
    front.saturating_add(same_at_back(one, other).min(most))
}

/// Whether two names differ by two neighbours alone that have changed places.
fn is_swapped(one: &[u8], other: &[u8]) -> bool {
    let at = same_at_front(one, other);
    match (one.get(at..), other.get(at..)) {
        (Some([first, second, rest @ ..]), Some([third, fourth, others @ ..])) => {
            *first == *fourth && *second == *third && rest == others
        }
        _ => false,
    }
}

/// Whether a name may have been meant by another: two neighbours have changed places, or at most two bytes differ, and more than half are
/// the same.
fn is_near(one: &[u8], other: &[u8]) -> bool {
    let longer = one.len().max(other.len());
    let alike = likeness(one, other);
    (longer > 2 && is_swapped(one, other))
        || (one != other && alike.saturating_add(2) >= longer && alike > longer / 2)
}

/// The bytes of a token.
pub(crate) fn spelled<'a>(text: &'a [u8], token: &Token) -> &'a [u8] {
    let start = token.start as usize;
    text.get(start..start.saturating_add(token.length as usize))
        .unwrap_or(&[])
}

/// The name after a sign of a name, or of a label.
fn bare(name: &[u8]) -> &[u8] {
    match name {
        [b'%' | b'@', rest @ ..] => rest,
        [rest @ .., b':'] => rest,
        _ => name,
    }
}

fn is_name(kind: Kind) -> bool {
    matches!(kind, Kind::LocalName | Kind::LabelName)
}

/// Whether a token may name what this name is to name.
fn is_of_sort(token: &Token, name: &[u8]) -> bool {
    match name {
        [b'@', ..] => matches!(token.kind, Kind::GlobalName),
        _ => is_name(token.kind),
    }
}

/// The name of a text that was perhaps meant.
pub fn near<'a>(text: &'a [u8], tokens: &[Token], name: &[u8]) -> Option<&'a [u8]> {
    let mut best: Option<&'a [u8]> = None;
    let mut most: usize = 0;
    for token in tokens {
        let other = bare(spelled(text, token));
        let alike = likeness(bare(name), other);
        if is_of_sort(token, name) && is_near(bare(name), other) && alike > most {
            best = Some(other);
            most = alike;
        }
    }
    best
}

/// The one of some words that was perhaps meant.
pub fn near_word(words: &[&'static str], written: &[u8]) -> Option<&'static str> {
    let mut best: Option<&'static str> = None;
    let mut most: usize = 0;
    for word in words {
        let alike = likeness(written, word.as_bytes());
        if is_near(written, word.as_bytes()) && alike > most {
            best = Some(*word);
            most = alike;
        }
    }
    best
}

/// The sign of a name, and another name after it.
pub fn put_like(out: &mut Message, name: &[u8], other: &[u8]) {
    match name {
        [b'@', ..] => out.put("@"),
        [b'%', ..] => out.put("%"),
        _ => out.put(""),
    }
    out.put_bytes(other)
}
