ghost use Rattle.std.specs.Prelude.{ℕ, ◌≡◌, List, ◌∷◌, false, IfNone, IfSome};
ghost use Rattle.thread_order.specs.Marks.{are_marked};

/// Whether these are the roots that are not null, in their order.
pub fn are_marked(marked: &[u32], roots: &[u32]) -> bool
    ensures { result ≡ are_marked marked.now roots.now }
{
    let mut left = marked;
    for root in roots {
        let Some(rest) = without_root(left, *root) else {
            return false;
        };
        left = rest;
    }
    left.is_empty()
}

/// What is left of the marks after a root: null has none.
fn without_root(marked: &[u32], root: u32) -> Option<&[u32]>
    ensures none { (more : List ℕ) → IfNone result (are_marked marked.now (root ∷ more) ≡ false) }
    ensures some { (more : List ℕ) → IfSome result (λ rest. are_marked marked.now (root ∷ more) ≡ are_marked rest.now more) }
{
    if root == 0 {
        return Some(marked);
    }
    match marked {
        [first, rest @ ..] if *first == root => Some(rest),
        _ => None,
    }
}
