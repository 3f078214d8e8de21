//! What is migrated fits.
ghost use Rattle.migration_law.specs.MigratedFits.{AreMigratedFitting, AreMigratedForeign};
ghost use Rattle.migration_law.specs.TypedModules.{ArePrintableTyped};

/// Sections that fit a module fit its opaque text once they are migrated, where each getelementptr is of a typed pointer, and each
/// parameter's value has the parameter's type. In a printable module of a typed text each getelementptr is so. Functions outside that fit a
/// module fit its opaque text.
pub fn migrated_law()
    ensures fits { AreMigratedFitting }
    ensures foreign { AreMigratedForeign }
    ensures typed { ArePrintableTyped }
{}
