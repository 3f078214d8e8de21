//! Law of replaced functions: sections, shapes and functions outside that fit a module fit it where the code of another function is replaced.
#![tactic(auto)]

ghost use Rattle.replaced_fits.specs.ReplacedFits.{AreWithinClosed, OthersStayFitting, PointersStay, ShapesStayFitting, ForeignStaysFitting};

use ir_print_law::grown_law;

/// Sections that fit a module fit it where the code of one function is replaced, with some section of that function; and so do the module's
/// shapes, if each root slot of the new function has one, and functions outside of it. The module's types are within its table: so they are where
/// it is whole and its numbers are within its tables.
pub fn replaced_fits_law()
    ensures closed { AreWithinClosed }
    ensures others { OthersStayFitting }
    ensures pointers { PointersStay }
    ensures shapes { ShapesStayFitting }
    ensures foreign { ForeignStaysFitting }
{
    grown_law();
}
