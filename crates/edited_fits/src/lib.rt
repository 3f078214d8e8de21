//! Law of edits: certificates that fit the module of a session fit it after each edit, where its types are within its table.
#![tactic(auto)]

ghost use Rattle.edited_fits.specs.EditedFits.{EditsStayFitting};

use certificate::cert_law;
use recheck::fitting_law;
use replaced_fits::replaced_fits_law;

/// Certificates that fit the module of a session fit it after each edit that is accepted, where the module's types are within its table.
pub fn edited_fits_law()
    ensures { EditsStayFitting }
{
    cert_law();
    fitting_law();
    replaced_fits_law();
}
