//! Whether a text has added to the tables of its module.
ghost use Rattle.std.specs.Prelude.{◌≡◌, true};

use copies::Tables;
use ir_ast::{Module, Names, TypeId, Types};
use pools::LayoutId;

fn same_types(one: &Types, other: &Types) -> bool
    ensures { result ≡ true → other.now ≡ one.now }
{
    if one.count() != other.count() {
        return false;
    }
    for number in 0..one.count() {
        if one.get(TypeId::new(number as u32)) != other.get(TypeId::new(number as u32)) {
            return false;
        }
    }
    true
}

fn same_names(one: &Names, other: &Names) -> bool
    ensures { result ≡ true → other.now ≡ one.now }
{
    if one.count() != other.count() {
        return false;
    }
    for number in 0..one.count() {
        if one.name_at(number) != other.name_at(number) {
            return false;
        }
    }
    true
}

fn same_structs(one: &[Option<LayoutId>], other: &[Option<LayoutId>]) -> bool
    ensures { result ≡ true → other.now ≡ one.now }
{
    one == other
}

/// Whether the types, and the names of structs and globals, are those of the module, and the forms too.
pub fn same_tables(of_module: &Module, tables: &Tables) -> bool
    ensures types { result ≡ true → tables.now.types ≡ of_module.now.types }
    ensures struct_names { result ≡ true → tables.now.struct_names ≡ of_module.now.struct_names }
    ensures struct_of { result ≡ true → tables.now.struct_of ≡ of_module.now.struct_of }
    ensures symbols { result ≡ true → tables.now.symbols ≡ of_module.now.symbols }
    ensures wide { result ≡ true → tables.now.wide ≡ of_module.now.wide }
{
    same_types(&of_module.types, &tables.types)
        && same_names(&of_module.struct_names, &tables.struct_names)
        && same_structs(of_module.struct_of.as_slice(), tables.struct_of.as_slice())
        && same_names(&of_module.symbols, &tables.symbols)
        && of_module.wide == tables.wide
}
