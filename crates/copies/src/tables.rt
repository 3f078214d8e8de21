//! Copies of the tables of names and types.
ghost use Rattle.std.specs.Prelude.{◌≡◌, IfOk};
ghost use Rattle.copies.specs.Tables.{tables_of};

use ir_ast::{Module, Names, SymbolSort, TypeId, Types};
use items::Items;
use pools::LayoutId;
use std::alloc::{AllocError, Global};

/// The names and types that a module mentions, and what its names stand for.
#[derive(Drop)]
pub struct Tables {
    pub types: Types,
    pub struct_names: Names,
    pub struct_of: Items<Option<LayoutId>>,
    pub symbols: Names,
    pub sorts: Items<SymbolSort>,
    /// Whether the wide forms may stand in the text of the module.
    pub wide: bool,
}

/// The same names. A table holds no name twice, so each name is new where its turn comes; another table would be refused.
pub fn copy_names(alloc: Global, names: &Names) -> Result<Names, AllocError>
    ensures { IfOk result (λ copy. copy ≡ names.now) }
{
    let mut copy = Names::new(alloc, names.key());
    for number in 0..names.count() {
        if copy.number(alloc, names.name_at(number))? != number {
            return Err(AllocError);
        }
    }
    Ok(copy)
}

/// The same types. A table holds no type twice, so each type is new where its turn comes; another table would be refused.
pub fn copy_types(alloc: Global, types: &Types) -> Result<Types, AllocError>
    ensures { IfOk result (λ copy. copy ≡ types.now) }
{
    let mut copy = Types::new(alloc, types.key());
    for number in 0..types.count() {
        let Some(written) = types.get(TypeId::new(number as u32)) else {
            return Err(AllocError);
        };
        if copy.number(written)?.number() as usize != number {
            return Err(AllocError);
        }
    }
    Ok(copy)
}

/// Names, with what each stands for.
#[derive(Drop)]
struct Table<T> {
    names: Names,
    each: Items<T>,
}

/// The same names, for the same.
fn copy_table<T: Copy + Drop>(
    alloc: Global,
    names: &Names,
    each: &Items<T>,
) -> Result<Table<T>, AllocError>
    ensures names { IfOk result (λ copy. copy.names ≡ names.now) }
    ensures each { IfOk result (λ copy. copy.each ≡ each.now) }
{
    let names = copy_names(alloc, names)?;
    let each = Items::from_slice(alloc, each.as_slice())?;
    Ok(Table { names, each })
}

/// The tables of a module.
pub fn copy_tables(alloc: Global, of_module: &Module) -> Result<Tables, AllocError>
    ensures { IfOk result (λ tables. tables ≡ tables_of of_module.now) }
{
    let types = copy_types(alloc, &of_module.types)?;
    let structs = copy_table(alloc, &of_module.struct_names, &of_module.struct_of)?;
    let symbols = copy_table(alloc, &of_module.symbols, &of_module.sorts)?;
    Ok(Tables {
        types,
        struct_names: structs.names,
        struct_of: structs.each,
        symbols: symbols.names,
        sorts: symbols.each,
        wide: of_module.wide,
    })
}
