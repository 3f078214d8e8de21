//! Rows of tables.
ghost use Rattle.std.specs.Prelude.{◌≡◌};
ghost use Rattle.lowering.specs.Rows as spec;

/// What stands before a row at this place.
pub(crate) fn before_row(place: usize) -> &'static [u8]
    ensures { result.now ≡ spec.before_row place }
{
    if place == 0 { b"" } else { b", " }
}
