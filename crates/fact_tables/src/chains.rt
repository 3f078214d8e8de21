//! Lists by number, each as a chain of links from the newest on.
ghost use Rattle.std.specs.Prelude.{◌≡◌, ℕ, [], nat_eq, IfOk, OnOk};
ghost use Rattle.lemmas.specs.Lists.{IsIn};
ghost use Rattle.indexmap.specs.IndexMap.{get};
ghost use Rattle.fact_tables.specs.Chains.{listed};

use crate::uses::{Use, use_at};
use indexmap::IndexMap;
use std::alloc::{AllocError, Global};

/// The numbers that were added to each list.
#[derive(Drop)]
pub struct Chains {
    /// The newest link of each list.
    newest: IndexMap<usize, usize>,
    pub(crate) links: Vec<Use>,
}

impl Chains {
    /// Nothing is listed.
    pub fn new(alloc: Global) -> Self
        ensures { (list : ℕ) → listed result list ≡ [] }
    {
        Chains {
            newest: IndexMap::new(alloc),
            links: Vec::new(alloc),
        }
    }

    /// The newest link of a list.
    pub fn newest(&self, list: usize) -> Option<usize>
        ensures { result ≡ get nat_eq self.now.newest list }
    {
        self.newest.get(&list).copied()
    }

    /// A number is listed.
    pub fn add(&mut self, list: usize, number: usize) -> Result<(), AllocError>
        ensures kept { (other u : ℕ) → IsIn u (listed self.old other) → IsIn u (listed self.new other) }
        ensures added { OnOk result (IsIn number (listed self.new list)) }
    {
        let before = self.newest(list);
        let at = self.links.len();
        self.links.push(Use {
            user: number,
            before,
        })?;
        self.newest.insert(list, at)?;
        Ok(())
    }

    /// What is listed.
    pub fn list(&self, alloc: Global, list: usize) -> Result<Vec<usize>, AllocError>
        ensures { IfOk result (λ numbers. numbers.items ≡ listed self.now list) }
    {
        let mut numbers = Vec::new(alloc);
        let mut at = self.newest(list);
        for step in 0..self.links.len() {
            let Some(found) = use_at(&self.links, at) else {
                return Ok(numbers);
            };
            numbers.push(found.user)?;
            at = found.before;
        }
        Ok(numbers)
    }
}
