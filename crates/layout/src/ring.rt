ghost use Rattle.std.specs.Prelude.{◌≡◌, [], slice_get, None, Some, OnOk, IfOk};
ghost use Rattle.layout.specs.Layouts.{StructHoldsItself};
ghost use Rattle.layout.specs.Ring.{IsFirstIfAny};
ghost use Rattle.layout.specs.Tours.{IsTour, IsAdvance, IsSettling, AreIncreasing, IsCount, LooksBack, seen, at_start, with_top, opened, recorded, parts_of, is_new, new_among, least, place_of, lowest, if_new};
ghost use Rattle.types.specs.References.{layout_of_struct};

use ir_ast::{IrType, Module, TypeId};
use items::Items;
use std::alloc::{AllocError, Global};
use types::body_named;

/// The types that a type has in it, by value: at most two.
#[derive(Clone, Copy)]
pub struct Parts {
    pub first: Option<TypeId>,
    pub other: Option<TypeId>,
}

const NO_PARTS: Parts = Parts {
    first: None,
    other: None,
};

/// A tour through the types of a module, for the first struct in a ring: a type that holds itself. A type stays open until all of its parts were
/// met and left. The types that hold a type and that it holds are its group, which is left as a whole.
#[derive(Drop)]
pub struct Tour {
    /// For each type its place, once it was met.
    pub places: Items<Option<usize>>,
    /// The types whose groups are not left, each at its place.
    pub met: Vec<TypeId>,
    /// The places of the types that are open: each of them holds the next.
    pub path: Vec<usize>,
    /// The places where groups begin, as far as is known.
    pub bounds: Vec<usize>,
    /// The first struct in a ring, of the types that are no longer open.
    pub first: Option<usize>,
}

impl Tour {
    fn new(alloc: Global, count: usize) -> Result<Tour, AllocError>
        ensures { IfOk result (λ tour. seen tour ≡ at_start count) }
    {
        let places = vec![in alloc; None; count]?;
        Ok(Tour {
            places: Items::from_vec(places),
            met: Vec::new(alloc),
            path: Vec::new(alloc),
            bounds: Vec::new(alloc),
            first: None,
        })
    }

    fn is_new(&self, written: TypeId) -> bool
        ensures { result ≡ is_new self.now.places written }
    {
        match self.places.get(written.number() as usize) {
            Some(place) => place.is_none(),
            None => false,
        }
    }

    fn if_new(&self, part: Option<TypeId>) -> Option<TypeId>
        ensures { result ≡ if_new self.now.places part }
    {
        let part = part?;
        if self.is_new(part) { Some(part) } else { None }
    }

    /// A part that was not met so far.
    fn new_among(&self, parts: Parts) -> Option<TypeId>
        ensures { result ≡ new_among self.now.places parts }
    {
        match self.if_new(parts.first) {
            Some(part) => Some(part),
            None => self.if_new(parts.other),
        }
    }

    /// The place of a type, if its group is not left.
    fn place_of(&self, part: Option<TypeId>) -> Option<usize>
        ensures { result ≡ place_of self.now.places self.now.met.items part }
    {
        let part = part?;
        let place = (*self.places.get(part.number() as usize)?)?;
        match self.met.get(place) {
            Some(there) if there.number() == part.number() => Some(place),
            _ => None,
        }
    }

    /// The lowest place of a part whose group is not left.
    fn lowest(&self, parts: Parts) -> Option<usize>
        ensures { result ≡ lowest self.now.places self.now.met.items parts }
    {
        least(self.place_of(parts.first), self.place_of(parts.other))
    }

    fn type_at(&self, place: usize) -> Option<TypeId>
        ensures { result ≡ slice_get self.now.met.items place }
    {
        match self.met.get(place) {
            Some(written) => Some(*written),
            None => None,
        }
    }

    /// Meets a type.
    fn open(&mut self, written: TypeId) -> Result<(), AllocError>
        requires { slice_get self.old.places written ≡ Some None }
        ensures { OnOk result (seen self.new ≡ opened written (seen self.old)) }
    {
        let place = self.met.len();
        self.met.push(written)?;
        self.path.push(place)?;
        self.bounds.push(place)?;
        self.places.set(written.number() as usize, Some(place));
        Ok(())
    }

    /// Records a type in a ring.
    fn record_one(&mut self, module: &Module, written: TypeId)
        ensures { seen self.new ≡ recorded (layout_of_struct «module».now (slice_get «module».now.types written)) (seen self.old) }
    {
        self.first = least(self.first, named_struct(module, written));
    }

    /// A type is in a ring with each part whose group is not left. One group begins no later than the lowest of them, and goes on up to here.
    fn look_back(&mut self, module: &Module, written: TypeId)
        requires increasing { AreIncreasing self.old.bounds.items }
        ensures { LooksBack «module».now (slice_get «module».now.types written) (seen self.old) (seen self.new) }
    {
        if let Some(at) = self.lowest(parts_of(module, written)) {
            let left = count_before(self.bounds.as_slice(), at + 1);
            self.bounds.truncate(left);
            self.record_one(module, written);
        }
    }

    /// Leaves the type that was on top of the path, and where its group begins there, the group.
    fn close(&mut self, module: &Module, place: usize, written: TypeId)
        requires tour { IsTour «module».now (with_top place (seen self.old)) }
        requires at { slice_get self.old.met.items place ≡ Some written }
        requires none_new { new_among self.old.places (parts_of «module».now (slice_get «module».now.types written)) ≡ None }
        ensures { IsAdvance «module».now (with_top place (seen self.old)) (seen self.new) }
    {
        self.look_back(module, written);
        let left = count_before(self.bounds.as_slice(), place);
        if left < self.bounds.len() {
            self.bounds.truncate(left);
            self.met.truncate(place);
        }
    }

    /// One step from the type that was on top of the path.
    fn advance(&mut self, module: &Module, place: usize) -> Result<(), AllocError>
        requires { IsTour «module».now (with_top place (seen self.old)) }
        ensures { OnOk result (IsAdvance «module».now (with_top place (seen self.old)) (seen self.new)) }
    {
        let Some(written) = self.type_at(place) else {
            return Ok(());
        };
        match self.new_among(parts_of(module, written)) {
            Some(part) => {
                self.path.push(place)?;
                self.open(part)?;
            }
            None => self.close(module, place, written),
        }
        Ok(())
    }

    /// Goes through a type and all types in it, if it was not met so far.
    fn settle(&mut self, module: &Module, written: TypeId) -> Result<(), AllocError>
        requires tour { IsTour «module».now (seen self.old) }
        requires none_open { self.old.path.items ≡ [] }
        ensures { OnOk result (IsSettling «module».now written (seen self.old) (seen self.new)) }
    {
        if !self.is_new(written) {
            return Ok(());
        }
        self.open(written)?;
        while let Some(place) = self.path.pop() {
            self.advance(module, place)?;
        }
        Ok(())
    }
}

/// The parts of a type.
fn parts_of(module: &Module, written: TypeId) -> Parts
    ensures { result ≡ parts_of «module».now (slice_get «module».now.types written) }
{
    let Some(kind) = module.types.get(written) else {
        return NO_PARTS;
    };
    match kind {
        IrType::Array { part, .. } => Parts {
            first: Some(part),
            other: None,
        },
        IrType::Struct { first, rest } => Parts {
            first: Some(first),
            other: Some(rest),
        },
        IrType::Named(name) => Parts {
            first: body_named(module, name),
            other: None,
        },
        _ => NO_PARTS,
    }
}

/// The number of the named struct that a type is.
fn named_struct(module: &Module, written: TypeId) -> Option<usize>
    ensures { result ≡ layout_of_struct «module».now (slice_get «module».now.types written) }
{
    match module.types.get(written)? {
        IrType::Named(name) => match module.struct_of.get(name.number() as usize) {
            Some(Some(layout)) => Some(layout.number() as usize),
            _ => None,
        },
        _ => None,
    }
}

/// The lesser of two numbers, as far as they are there.
fn least(one: Option<usize>, other: Option<usize>) -> Option<usize>
    ensures { result ≡ least one other }
{
    match (one, other) {
        (Some(one), Some(other)) => Some(one.min(other)),
        (Some(one), None) => Some(one),
        (None, other) => other,
    }
}

/// How many of some increasing places are before a limit.
fn count_before(places: &[usize], limit: usize) -> usize
    requires { AreIncreasing places.now }
    ensures { IsCount places.now limit result }
{
    let mut left = places.len();
    while left > 0 && places[left - 1] >= limit {
        left -= 1;
    }
    left
}

/// The first struct that holds itself.
pub(crate) fn first_ring(alloc: Global, module: &Module) -> Result<Option<usize>, AllocError>
    ensures { IfOk result (IsFirstIfAny (StructHoldsItself «module».now)) }
{
    let count = module.types.count();
    let mut tour = Tour::new(alloc, count)?;
    for number in 0..count {
        tour.settle(module, TypeId::new(number as u32))?;
    }
    Ok(tour.first)
}
