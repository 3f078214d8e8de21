ghost use Rattle.recheck.specs.Fitting.{EditsKeepFitting};

use answers::fit_law;
use certificate::cert_law;

/// Certificates that fit the module fit it after each edit that adds nothing to the module's tables: each edit of a section, and each of
/// code that mentions no new name and no new type.
pub fn fitting_law()
    ensures { EditsKeepFitting }
{
    cert_law();
    fit_law();
}
