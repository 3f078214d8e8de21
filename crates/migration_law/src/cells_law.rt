//! A migrated module has the same cells.
ghost use Rattle.migration_law.specs.MigratedCells.{AreMigratedCells};
ghost use Rattle.migration_law.specs.PartsBefore.{AreWholeBefore};

/// The opaque text of a module, with the shapes of its migrated certificates, has the module's layouts and the words of its globals, where each
/// global and each struct is what its name names, and the parts of each type of the table come before it. In a whole module they do.
pub fn same_cells_law()
    ensures cells { AreMigratedCells }
    ensures before { AreWholeBefore }
{}
