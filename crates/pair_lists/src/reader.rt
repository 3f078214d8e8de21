//! How a list is read.
ghost use Rattle.std.specs.Prelude.{◌≡◌, ◌+◌, IfOk, IfErr, map};
ghost use Rattle.std.specs.Str.Lines.{lines};
ghost use Rattle.pair_lists.specs.Lists.{ArePairs, IsListFault, IsWrongAt};

use crate::fault::ListFault;
use crate::pair::{Pair, is_silent, pair_in};
use std::alloc::{AllocError, Global};

/// The lines of a text.
fn lines_of(alloc: Global, text: &str) -> Result<Vec<&str>, AllocError>
    ensures { IfOk result (λ found. map (λ line. line.now) found.items ≡ lines text.now) }
{
    text.lines().collect(alloc)
}

/// The pairs of these lines, or the first line that is none.
fn pairs_of<'a>(alloc: Global, found: &[&'a str]) -> Result<Vec<Pair<'a>>, ListFault>
    ensures pairs { IfOk result (λ pairs. ArePairs (map (λ line. line.now) found.now) pairs.items) }
    ensures fault { IfErr result (IsWrongAt (map (λ line. line.now) found.now)) }
{
    let mut pairs = Vec::new(alloc);
    for (place, line) in found.iter().enumerate() {
        if is_silent(line) {
            continue;
        }
        match pair_in(line) {
            Some(pair) => pairs.push(pair)?,
            None => {
                drop(pairs);
                return Err(ListFault::Line(place + 1));
            }
        }
    }
    Ok(pairs)
}

/// Reads a list. Paths are UTF-8.
pub fn read_pairs(alloc: Global, text: &[u8]) -> Result<Vec<Pair<'_>>, ListFault>
    ensures pairs { IfOk result (λ pairs. ArePairs (lines text.now) pairs.items) }
    ensures fault { IfErr result (IsListFault text.now) }
{
    match str::from_utf8(text) {
        Ok(text) => {
            let found = lines_of(alloc, text)?;
            let pairs = pairs_of(alloc, found.as_slice());
            drop(found);
            pairs
        }
        Err(_) => Err(ListFault::NotText),
    }
}
