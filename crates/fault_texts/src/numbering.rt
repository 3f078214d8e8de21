//! Which number the next value or block of a function has for which no name is written.
use crate::site::Site;
use ir_tokens::Kind;

/// How many tokens of a call are looked at at most before the function's name.
const BEFORE_NAME: usize = 16;

/// Where the parameters of the function of this word `define` begin: at the bracket after its name.
fn open_of(site: Site, define: usize) -> Option<usize> {
    for at in define..site.tokens.len() {
        if matches!(site.kind_of(at), Kind::GlobalName) {
            return Some(at.saturating_add(1));
        }
    }
    None
}

/// Whether a parameter ends before this token that has a number, or for which nothing is written.
fn ends_numbered(site: Site, at: usize) -> bool {
    !matches!(
        site.kind_of(at.saturating_sub(1)),
        Kind::LocalName | Kind::OpenRound
    )
}

/// How many parameters have numbers of those from this bracket on that end before the site's token.
fn numbered_parameters(site: Site, open: usize) -> u64 {
    let mut count: u64 = 0;
    let mut depth: usize = 0;
    for at in open..site.at {
        match site.kind_of(at) {
            Kind::OpenRound => depth = depth.saturating_add(1),
            Kind::CloseRound if depth > 1 => depth = depth.saturating_sub(1),
            Kind::CloseRound => return count.saturating_add(u64::from(ends_numbered(site, at))),
            Kind::Comma if depth == 1 => {
                count = count.saturating_add(u64::from(ends_numbered(site, at)));
            }
            _ => {}
        }
    }
    count
}

/// Where the body of a function begins after the bracket of its parameters, if that is before the site's token.
fn brace_of(site: Site, open: usize) -> Option<usize> {
    for at in open..site.at {
        if matches!(site.kind_of(at), Kind::OpenBrace) {
            return Some(at);
        }
    }
    None
}

/// Whether a call gives no value that begins at a token.
fn gives_nothing(site: Site, call: usize) -> bool {
    for at in call..call.saturating_add(BEFORE_NAME) {
        match site.kind_of(at) {
            Kind::Void => return true,
            Kind::GlobalName => return false,
            _ => {}
        }
    }
    true
}

/// Whether a number is taken at a token of a body: it is written, or a call gives a value without a name.
fn takes_number(site: Site, at: usize) -> bool {
    let begins = match site.tokens.get(at) {
        Some(token) => token.begins_line,
        None => false,
    };
    match site.kind_of(at) {
        Kind::LabelNumber => true,
        Kind::LocalNumber => matches!(site.kind_of(at.saturating_add(1)), Kind::Equals),
        Kind::Call | Kind::Tail | Kind::Notail => begins && !gives_nothing(site, at),
        _ => false,
    }
}

/// Whether the first block, which begins after this brace, is written without a label.
fn is_unlabelled(site: Site, brace: usize) -> bool {
    !matches!(
        site.kind_of(brace.saturating_add(1)),
        Kind::LabelName | Kind::LabelNumber
    )
}

/// How many numbers are taken in a body from this brace on before the site's token.
fn numbered_in_body(site: Site, brace: usize) -> u64 {
    let mut count = u64::from(is_unlabelled(site, brace));
    for at in brace..site.at {
        if takes_number(site, at) {
            count = count.saturating_add(1);
        }
    }
    count
}

/// The next number at a token of a function, where each one before it is in turn.
pub(crate) fn next_number(site: Site) -> Option<u64> {
    let open = open_of(site, site.define()?)?;
    let parameters = numbered_parameters(site, open);
    match brace_of(site, open) {
        Some(brace) => Some(parameters.saturating_add(numbered_in_body(site, brace))),
        None => Some(parameters),
    }
}
