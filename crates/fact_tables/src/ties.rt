//! Values that are listed as the same, one after the other: groups of them, each of one class.
ghost use Rattle.std.specs.Prelude.{◌≡◌, ◌⊎◌, ◌<◌, ◌==◌, ℕ, if◌then◌else◌, None, Some, nat_eq, length, IfOk, OnOk};
ghost use Rattle.indexmap.specs.IndexMap.{get};
ghost use Rattle.fact_tables.specs.Chains.{listed};
ghost use Rattle.fact_tables.specs.Ties.{moved, AreTies, AreListed, group_of, class_now, known_now, in_group, is_place, group_at, class_in};

use crate::chains::Chains;
use crate::class_id::ClassId;
use crate::known::Known;
use indexmap::IndexMap;
use ir_ast::ValueId;
use std::alloc::{AllocError, Global};

/// The class of some values, and how many they are.
#[derive(Clone, Copy)]
pub(crate) struct Group {
    pub class: ClassId,
    pub size: usize,
}

/// The values that were tied, in groups.
#[derive(Drop)]
pub struct Ties {
    tied: Vec<ValueId>,
    groups: Vec<Group>,
    /// The group of each value that was tied.
    places: IndexMap<usize, usize>,
    /// The values of each group.
    members: Chains,
}

impl Ties {
    /// Each value is alone.
    pub fn new(alloc: Global) -> Self
        ensures ties { AreTies result }
        ensures alone { (c : ℕ) → class_now result c ≡ c }
    {
        Ties {
            tied: Vec::new(alloc),
            groups: Vec::new(alloc),
            places: IndexMap::new(alloc),
            members: Chains::new(alloc),
        }
    }

    /// The values that were tied.
    pub fn tied(&self) -> &[ValueId]
        ensures { result.now ≡ self.now.tied.items }
    {
        self.tied.as_slice()
    }

    /// What a class is now.
    pub fn class(&self, c: ClassId) -> ClassId
        ensures { result ≡ class_now self.now c }
    {
        match self.places.get(&c.number()).copied() {
            Some(place) => group_at(&self.groups, place).class,
            None => c,
        }
    }

    /// What is known of a value now.
    pub fn known(&self, known: Known) -> Known
        ensures { result ≡ known_now self.now known }
    {
        match known {
            Known::Cell {
                class,
                layout,
                stale,
            } => Known::Cell {
                class: self.class(class),
                layout,
                stale,
            },
            _ => known,
        }
    }

    /// The class of a value becomes that of another.
    pub fn tie(&mut self, v: ValueId, w: ValueId) -> Result<(), AllocError>
        requires { AreTies self.old }
        ensures ties { OnOk result (AreTies self.new) }
        ensures moved { OnOk result ((c : ℕ) → class_now self.new c ≡ moved (class_now self.old v) (class_now self.old w) (class_now self.old c)) }
    {
        let from = self.place(v)?;
        let to = self.place(w)?;
        if from == to {
            return Ok(());
        }
        let one = group_at(&self.groups, from);
        let other = group_at(&self.groups, to);
        let class = other.class;
        if one.size < other.size {
            self.merge(from, to, class)
        } else {
            self.merge(to, from, class)
        }
    }

    /// The place of the group of a value, which is one of its own if the value was not tied.
    fn place(&mut self, v: ValueId) -> Result<usize, AllocError>
        requires { AreTies self.old }
        ensures ties { OnOk result (AreTies self.new) }
        ensures same { OnOk result ((c : ℕ) → class_now self.new c ≡ class_now self.old c) }
        ensures kept { OnOk result ((c place : ℕ) → group_of self.old c ≡ Some place → group_of self.new c ≡ Some place) }
        ensures of { IfOk result (λ place. group_of self.new v ≡ Some place) }
    {
        match self.places.get(&(v.number() as usize)).copied() {
            Some(place) => Ok(place),
            None => self.add_group(v),
        }
    }

    /// A value that was not tied has a group of its own.
    fn add_group(&mut self, v: ValueId) -> Result<usize, AllocError>
        requires ties { AreTies self.old }
        requires alone { group_of self.old v ≡ None }
        ensures ties { OnOk result (AreTies self.new) }
        ensures same { OnOk result ((c : ℕ) → class_now self.new c ≡ class_now self.old c) }
        ensures kept { OnOk result ((c place : ℕ) → group_of self.old c ≡ Some place → group_of self.new c ≡ Some place) }
        ensures of { IfOk result (λ place. group_of self.new v ≡ Some place) }
    {
        let number = v.number() as usize;
        let place = self.groups.len();
        self.tied.push(v)?;
        self.groups.push(Group {
            class: ClassId::new(number),
            size: 1,
        })?;
        self.members.add(place, number)?;
        self.places.insert(number, place)?;
        Ok(place)
    }

    /// The values of one group are of another, whose class is this one of either.
    fn merge(&mut self, from: usize, to: usize, class: ClassId) -> Result<(), AllocError>
        requires ties { AreTies self.old }
        requires apart { from ≡ to → ⊥ }
        requires of { (group_of self.old class ≡ Some from) ⊎ (group_of self.old class ≡ Some to) }
        requires within { to < length self.old.groups.items }
        ensures ties { OnOk result (AreTies self.new) }
        ensures groups { OnOk result ((c : ℕ) → group_of self.new c ≡ in_group from to (group_of self.old c)) }
        ensures class { OnOk result ((place : ℕ) → class_in self.new.groups.items place ≡ (if place == to then class else class_in self.old.groups.items place)) }
    {
        let one = group_at(&self.groups, from);
        let other = group_at(&self.groups, to);
        let list = self.members.list(*self.tied.allocator(), from)?;
        move_members(&mut self.places, &mut self.members, &list, from, to)?;
        self.groups[to] = Group {
            class,
            size: one.size.saturating_add(other.size),
        };
        Ok(())
    }
}

fn group_at(groups: &[Group], place: usize) -> Group
    ensures { result ≡ group_at groups.now place }
{
    match groups.get(place) {
        Some(group) => *group,
        None => Group {
            class: ClassId::new(0),
            size: 0,
        },
    }
}

/// The values of one group, which are all in this list, are of another.
fn move_members(
    places: &mut IndexMap<usize, usize>,
    members: &mut Chains,
    list: &[usize],
    from: usize,
    to: usize,
) -> Result<(), AllocError>
    requires apart { from ≡ to → ⊥ }
    requires listed { AreListed (get nat_eq places.old) (listed members.old) }
    requires all { list.now ≡ listed members.old from }
    ensures listed { OnOk result (AreListed (get nat_eq places.new) (listed members.new)) }
    ensures moved { OnOk result ((c : ℕ) → get nat_eq places.new c ≡ in_group from to (get nat_eq places.old c)) }
{
    for number in list {
        move_member(places, members, *number, from, to)?;
    }
    Ok(())
}

/// A value of one group is of another.
fn move_member(
    places: &mut IndexMap<usize, usize>,
    members: &mut Chains,
    number: usize,
    from: usize,
    to: usize,
) -> Result<(), AllocError>
    requires { AreListed (get nat_eq places.old) (listed members.old) }
    ensures listed { OnOk result (AreListed (get nat_eq places.new) (listed members.new)) }
    ensures moved { OnOk result (get nat_eq places.new number ≡ in_group from to (get nat_eq places.old number)) }
    ensures others { OnOk result ((c : ℕ) → (number ≡ c → ⊥) → get nat_eq places.new c ≡ get nat_eq places.old c) }
{
    if is_in(places, number, from) {
        members.add(to, number)?;
        places.insert(number, to)?;
    }
    Ok(())
}

/// Whether a value is in the group at a place.
fn is_in(places: &IndexMap<usize, usize>, number: usize, place: usize) -> bool
    ensures { result ≡ is_place place (get nat_eq places.now number) }
{
    match places.get(&number).copied() {
        Some(other) => other == place,
        None => false,
    }
}
