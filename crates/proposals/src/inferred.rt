use certs::{Family, Promise};
use layout_flow::Leads;
use pools::LayoutId;

/// What is known of an operand.
#[derive(Clone, Copy)]
pub enum Shown {
    Nothing,
    /// An integer, and what it is below.
    Number(Option<u64>),
    Null,
    Cell { layout: LayoutId, nonnull: bool },
    /// An address outside of the module.
    Outside,
}

/// What is promised of a parameter or of a result, as far as it was found.
#[derive(Clone, Copy, PartialEq, Eq)]
pub enum InferredPromise {
    Nothing,
    /// An integer, and what it is below.
    Number(Option<u64>),
    /// A reference to the layout that its type says.
    Reference { nonnull: bool },
    /// `i8*` or `ptr`: a reference to this layout.
    AnyReference { layout: LayoutId, nonnull: bool },
    /// A pointer: an address outside of the module.
    Outside,
}

impl InferredPromise {
    /// The most that can be promised of a value of this family, which leads there; `below` is that of a promise, if it has one.
    pub fn of(family: Family, nonnull: bool, below: Option<u64>, leads: Leads) -> InferredPromise {
        match family {
            Family::Number(_) => InferredPromise::Number(below),
            Family::Reference(_) => InferredPromise::Reference { nonnull },
            Family::AnyReference | Family::Opaque => match leads {
                Leads::To(layout) => InferredPromise::AnyReference { layout, nonnull },
                Leads::Outside => InferredPromise::Outside,
                Leads::Nowhere => InferredPromise::Nothing,
            },
            Family::Address => match leads {
                Leads::Outside => InferredPromise::Outside,
                Leads::To(_) | Leads::Nowhere => InferredPromise::Nothing,
            },
            Family::Nothing => InferredPromise::Nothing,
        }
    }

    /// What is left of it where this is known.
    pub fn weakened(self, shown: Shown) -> InferredPromise {
        match self {
            InferredPromise::Nothing => InferredPromise::Nothing,
            InferredPromise::Number(below) => InferredPromise::Number(weaker_bound(
                below,
                below_shown(shown),
            )),
            InferredPromise::Reference { nonnull } => weakened_reference(nonnull, shown),
            InferredPromise::Outside => weakened_outside(shown),
            InferredPromise::AnyReference { layout, nonnull } => {
                weakened_any(layout, nonnull, shown)
            }
        }
    }

    /// Whether an address outside is promised.
    pub fn is_outside(self) -> bool {
        matches!(self, InferredPromise::Outside)
    }

    /// It as a certificate writes it.
    pub fn promise(self) -> Option<Promise> {
        match self {
            InferredPromise::Nothing => None,
            InferredPromise::Number(below) => number_promise(below),
            InferredPromise::Reference { nonnull } => reference_promise(nonnull),
            InferredPromise::AnyReference { layout, nonnull } => Some(Promise {
                layout: Some(layout),
                nonnull,
                below: None,
                number: false,
            }),
            InferredPromise::Outside => Some(Promise {
                layout: None,
                nonnull: false,
                below: None,
                number: true,
            }),
        }
    }

    /// The layout that is promised of an `i8*` or a `ptr`.
    pub fn layout(self) -> Option<LayoutId> {
        match self {
            InferredPromise::AnyReference { layout, .. } => Some(layout),
            _ => None,
        }
    }

    /// Whether it is of an integer.
    pub fn is_number(self) -> bool {
        matches!(self, InferredPromise::Number(_))
    }

    /// What an integer is promised to be below.
    pub fn below(self) -> Option<u64> {
        match self {
            InferredPromise::Number(below) => below,
            _ => None,
        }
    }
}

/// What is left of the promise of a reference whose type says its layout. Where an address outside is known, no other promise is kept.
fn weakened_reference(nonnull: bool, shown: Shown) -> InferredPromise {
    match shown {
        Shown::Outside => InferredPromise::Outside,
        shown => InferredPromise::Reference {
            nonnull: nonnull && is_nonnull(shown),
        },
    }
}

/// The same of a reference whose type says none.
fn weakened_any(layout: LayoutId, nonnull: bool, shown: Shown) -> InferredPromise {
    match shown {
        Shown::Outside => InferredPromise::Outside,
        shown => {
            if is_other(layout, shown) {
                InferredPromise::Nothing
            } else {
                InferredPromise::AnyReference {
                    layout,
                    nonnull: nonnull && is_nonnull(shown),
                }
            }
        }
    }
}

/// What is left of the promise of an address outside. What was known to be a reference may turn out to be one too.
fn weakened_outside(shown: Shown) -> InferredPromise {
    match shown {
        Shown::Outside | Shown::Cell { .. } => InferredPromise::Outside,
        _ => InferredPromise::Nothing,
    }
}

fn number_promise(below: Option<u64>) -> Option<Promise> {
    if below.is_none() {
        return None;
    }
    Some(Promise {
        layout: None,
        nonnull: false,
        below,
        number: false,
    })
}

fn reference_promise(nonnull: bool) -> Option<Promise> {
    if !nonnull {
        return None;
    }
    Some(Promise {
        layout: None,
        nonnull,
        below: None,
        number: false,
    })
}

/// The larger of two bounds; None is no bound.
pub fn weaker_bound(one: Option<u64>, other: Option<u64>) -> Option<u64> {
    match (one, other) {
        (Some(one), Some(other)) => Some(one.max(other)),
        _ => None,
    }
}

/// The smaller of two bounds; None is no bound.
pub fn smaller(one: Option<u64>, other: Option<u64>) -> Option<u64> {
    match (one, other) {
        (Some(one), Some(other)) => Some(one.min(other)),
        (Some(one), None) => Some(one),
        (None, other) => other,
    }
}

fn below_shown(shown: Shown) -> Option<u64> {
    match shown {
        Shown::Number(below) => below,
        _ => None,
    }
}

fn is_nonnull(shown: Shown) -> bool {
    match shown {
        Shown::Cell { nonnull, .. } => nonnull,
        _ => false,
    }
}

/// Whether a cell of another layout is known, or no reference.
fn is_other(layout: LayoutId, shown: Shown) -> bool {
    match shown {
        Shown::Cell { layout: other, .. } => other != layout,
        Shown::Null => false,
        Shown::Nothing | Shown::Number(_) | Shown::Outside => true,
    }
}
