//! What a name means that is not of the sort that its place wants.
use crate::site::Site;
use ir_tokens::Kind;

/// What a name means in its text.
#[derive(Clone, Copy)]
pub(crate) enum Sort {
    /// Nothing: it is not defined.
    None,
    /// The same, of a function that would be declared.
    Undeclared,
    Block,
    Value,
    /// The first block of its function.
    Entry,
    Global,
}

/// A name without its sign, or without the colon of a label.
fn bare(name: &[u8]) -> &[u8] {
    match name {
        [b'%' | b'@', rest @ ..] => rest,
        [rest @ .., b':'] => rest,
        _ => name,
    }
}

/// Whether the token with this number has the name of the site's token.
fn is_named(site: Site, at: usize) -> bool {
    bare(site.spelled_of(at)) == bare(site.spelled())
}

/// What a token of the function says of the local name.
fn local_at(site: Site, at: usize, in_head: bool) -> Option<Sort> {
    match site.kind_of(at) {
        Kind::LabelName | Kind::LabelNumber if is_named(site, at) => {
            if matches!(site.kind_of(at.saturating_sub(1)), Kind::OpenBrace) {
                Some(Sort::Entry)
            } else {
                Some(Sort::Block)
            }
        }
        Kind::LocalName | Kind::LocalNumber if is_named(site, at) => {
            match site.kind_of(at.saturating_add(1)) {
                Kind::Equals => Some(Sort::Value),
                Kind::Comma | Kind::CloseRound if in_head => Some(Sort::Value),
                _ => None,
            }
        }
        _ => None,
    }
}

/// What a local name means in the function that begins with this word `define`.
fn local_sort(site: Site, define: usize) -> Sort {
    let mut in_head = true;
    for at in define.saturating_add(1)..site.tokens.len() {
        match site.kind_of(at) {
            Kind::Define => return Sort::None,
            Kind::OpenBrace => in_head = false,
            _ => {}
        }
        if let Some(sort) = local_at(site, at, in_head) {
            return sort;
        }
    }
    Sort::None
}

/// What a global name means.
fn global_sort(site: Site) -> Sort {
    for at in 0..site.tokens.len() {
        if matches!(site.kind_of(at), Kind::GlobalName) && is_named(site, at) {
            if matches!(site.kind_of(at.saturating_add(1)), Kind::Equals) {
                return Sort::Global;
            }
        }
    }
    Sort::None
}

/// Whether a token is the name of a type, which a value's may be too.
fn is_type(site: Site) -> bool {
    let ends_line = match site.tokens.get(site.at.saturating_add(1)) {
        Some(token) => token.begins_line,
        None => true,
    };
    !ends_line
        && matches!(
            site.kind_after(),
            Kind::LocalName | Kind::LocalNumber | Kind::Star | Kind::GlobalName | Kind::CloseSquare
        )
        && !matches!(site.kind_before(), Kind::Label)
}

/// What the name of a token means, which is not what its place wants.
pub(crate) fn sort_of(site: Site) -> Sort {
    match (site.kind(), site.define()) {
        (Kind::GlobalName, _) => global_sort(site),
        (_, Some(_)) if is_type(site) => Sort::None,
        (Kind::LocalName | Kind::LocalNumber, Some(define)) => local_sort(site, define),
        _ => Sort::None,
    }
}
