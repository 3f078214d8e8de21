//! A pair, and the line that names it.
ghost use Rattle.std.specs.Prelude.{◌≡◌, ◌==◌, ◌<◌, option_map};
ghost use Rattle.std.specs.List.{slice_split};
ghost use Rattle.pair_lists.specs.Lists as spec;
ghost use Rattle.pair_lists.specs.Lists.{pair_in, paths_of, sign_of, two_paths};

/// The paths of a module and its certificate, of which none is empty.
#[derive(Clone, Copy)]
pub struct Pair<'a> {
    pub of_module: &'a str,
    pub certificate: &'a str,
}

/// Whether a line need not name a pair.
pub(crate) fn is_silent(line: &str) -> bool
    ensures { result ≡ spec.is_silent line.now }
{
    match line.as_bytes() {
        [] => true,
        [first, ..] => *first == b';',
    }
}

/// The pair of a line whose paths have this sign between them.
fn pair_around(line: &str, sign: char) -> Option<Pair<'_>>
    requires { sign < 128 }
    ensures { option_map paths_of result ≡ two_paths (slice_split (λ b. b == sign) line.now) }
{
    let (of_module, certificate) = line.split_once(sign)?;
    if certificate.split_once(sign).is_some() {
        return None;
    }
    if of_module.is_empty() || certificate.is_empty() {
        return None;
    }
    Some(Pair {
        of_module,
        certificate,
    })
}

/// The pair that a line names.
pub(crate) fn pair_in(line: &str) -> Option<Pair<'_>>
    ensures { option_map paths_of result ≡ pair_in line.now }
{
    if line.as_bytes().contains(&b'\t') {
        pair_around(line, '\t')
    } else {
        pair_around(line, ' ')
    }
}
