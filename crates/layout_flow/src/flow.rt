use crate::numbers::ValueNumbers;
use crate::reading::evidence_of;
use crate::spread::{Found, layouts_of_values};
use ir_ast::{FuncId, Module, ValueId};
use layout::Program;
use number_tables::row_or;
use pools::LayoutId;
use std::alloc::{AllocError, Global};

/// Where a value of type `i8*` or `ptr` leads.
#[derive(Clone, Copy)]
pub enum Leads {
    /// To cells of this layout.
    To(LayoutId),
    /// Out of the module.
    Outside,
    /// To several of these, or it is not known.
    Nowhere,
}

/// The layouts of a module's values of type `i8*` and `ptr`, and of what its functions return of these types, and which of them are
/// addresses outside of the module. They are found by what flows in over the whole module: cells that are allocated, names outside,
/// what is loaded, arguments and results of calls. Where nothing flows in they are found by what the uses ask.
#[derive(Drop)]
pub struct LayoutFlow {
    numbers: ValueNumbers,
    found: Vec<Found>,
    /// The layout of what nothing tells.
    otherwise: Option<LayoutId>,
}

impl LayoutFlow {
    pub fn of(alloc: Global, program: &Program) -> Result<LayoutFlow, AllocError> {
        let numbers = ValueNumbers::of(alloc, program.module())?;
        match found_in(alloc, program, &numbers) {
            Ok(found) => Ok(LayoutFlow {
                numbers,
                found,
                otherwise: first_layout(program.module()),
            }),
            Err(refused) => {
                drop(numbers);
                Err(refused)
            }
        }
    }

    /// Where a value leads.
    pub fn of_value(&self, func: FuncId, value: ValueId) -> Leads {
        self.leads(self.numbers.of_value(func, value))
    }

    /// Where what a function returns leads.
    pub fn of_result(&self, func: FuncId) -> Leads {
        self.leads(self.numbers.of_result(func))
    }

    fn leads(&self, number: u32) -> Leads {
        match (
            row_or(&self.found, number as usize, Found::Nothing),
            self.otherwise,
        ) {
            (Found::One(layout), _) | (Found::Nothing, Some(layout)) => Leads::To(layout),
            (Found::Outside, _) => Leads::Outside,
            (Found::Several, _) | (Found::Nothing, None) => Leads::Nowhere,
        }
    }
}

fn found_in(
    alloc: Global,
    program: &Program,
    numbers: &ValueNumbers,
) -> Result<Vec<Found>, AllocError> {
    let evidence = evidence_of(alloc, program, numbers)?;
    let found = layouts_of_values(alloc, program.layouts(), &evidence, numbers.count());
    drop(evidence);
    found
}

/// The first layout of a module, if it has one.
fn first_layout(module: &Module) -> Option<LayoutId> {
    if module.structs.is_empty() {
        None
    } else {
        Some(LayoutId::new(0))
    }
}
