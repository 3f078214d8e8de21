//! A whole module with `ptr` for each pointer.
ghost use Rattle.std.specs.Prelude.{◌≡◌, map, IfOk};
ghost use Rattle.copies.specs.Tables.{tables_of};
ghost use Rattle.copies.specs.Opaque as spec;
ghost use Rattle.copies.specs.Opaque.{opaque_module};

use crate::made_opaque::{MadeOpaque, all_opaque};
use crate::of_module::{Certified, Defined, copy_certified, joined};
use crate::tables::{Tables, copy_tables};
use crate::type_numbers::{Renumbered, new_number, opaque_types};
use ir_ast::{Declare, Global as GlobalWord, Module, StructType, TypeId};
use std::alloc::{AllocError, Global};

impl MadeOpaque for StructType {
    ghost use Rattle.copies.specs.Opaque.{opaque_struct};

    ghost opaque = { opaque_struct };

    fn made_opaque(&self, _alloc: Global, numbers: &[TypeId]) -> Result<StructType, AllocError> {
        Ok(StructType {
            name: self.name,
            body: new_number(numbers, self.body),
        })
    }
}

impl MadeOpaque for TypeId {
    ghost use Rattle.copies.specs.Opaque.{new_number};

    ghost opaque = { new_number };

    fn made_opaque(&self, _alloc: Global, numbers: &[TypeId]) -> Result<TypeId, AllocError> {
        Ok(new_number(numbers, *self))
    }
}

impl MadeOpaque for Declare {
    ghost use Rattle.copies.specs.Opaque.{opaque_declare};

    ghost opaque = { opaque_declare };

    fn made_opaque(&self, alloc: Global, numbers: &[TypeId]) -> Result<Declare, AllocError> {
        Ok(Declare {
            symbol: self.symbol,
            runtime: self.runtime,
            returned: new_number(numbers, self.returned),
            parameters: all_opaque(alloc, numbers, self.parameters.as_slice())?,
        })
    }
}

impl MadeOpaque for GlobalWord {
    ghost use Rattle.copies.specs.Opaque.{opaque_global};

    ghost opaque = { opaque_global };

    fn made_opaque(&self, _alloc: Global, numbers: &[TypeId]) -> Result<GlobalWord, AllocError> {
        Ok(GlobalWord {
            symbol: self.symbol,
            is_constant: self.is_constant,
            held: new_number(numbers, self.held),
            initial: self.initial,
        })
    }
}

fn opaque_defined(
    alloc: Global,
    numbers: &[TypeId],
    of_module: &Module,
) -> Result<Defined, AllocError>
    ensures structs { IfOk result (λ made. made.structs ≡ map (spec.opaque_struct numbers.now) of_module.now.structs) }
    ensures globals { IfOk result (λ made. made.globals ≡ map (spec.opaque_global numbers.now) of_module.now.globals) }
    ensures declares { IfOk result (λ made. made.declares ≡ map (spec.opaque_declare numbers.now) of_module.now.declares) }
    ensures functions { IfOk result (λ made. made.functions ≡ map (spec.opaque_function numbers.now) of_module.now.functions) }
{
    let structs = all_opaque(alloc, numbers, of_module.structs.as_slice())?;
    let globals = all_opaque(alloc, numbers, of_module.globals.as_slice())?;
    let declares = all_opaque(alloc, numbers, of_module.declares.as_slice())?;
    let functions = all_opaque(alloc, numbers, of_module.functions.as_slice())?;
    Ok(Defined {
        structs,
        globals,
        declares,
        functions,
    })
}

/// The tables of a module with these types in the place of its own.
fn with_types(alloc: Global, of_module: &Module, made: Renumbered) -> Result<Tables, AllocError>
    ensures { IfOk result (λ tables. tables ≡ record (tables_of of_module.now) { types = made.types }) }
{
    let tables = copy_tables(alloc, of_module)?;
    Ok(Tables {
        types: made.types,
        struct_names: tables.struct_names,
        struct_of: tables.struct_of,
        symbols: tables.symbols,
        sorts: tables.sorts,
        wide: tables.wide,
    })
}

/// The module with `ptr` in the place of each pointer type, and with the global in the place of each bitcast of one.
pub fn opaque(alloc: Global, of_module: &Module) -> Result<Module, AllocError>
    ensures { IfOk result (λ made. made ≡ opaque_module of_module.now) }
{
    let made = opaque_types(alloc, &of_module.types)?;
    let defined = match opaque_defined(alloc, made.numbers.as_slice(), of_module) {
        Ok(defined) => defined,
        Err(refused) => {
            drop(made);
            return Err(refused);
        }
    };
    let tables = match with_types(alloc, of_module, made) {
        Ok(tables) => tables,
        Err(refused) => {
            drop(defined);
            return Err(refused);
        }
    };
    match copy_certified(alloc, of_module) {
        Ok(Certified { shapes, trusted }) => Ok(joined(tables, defined, shapes, trusted)),
        Err(refused) => {
            drop(tables);
            drop(defined);
            Err(refused)
        }
    }
}
