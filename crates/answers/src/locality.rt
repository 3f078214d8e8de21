//! What is asked of one function depends on its own text, on its certificate, and on what it sees of the functions that it calls.
ghost use Rattle.answers.specs.Laws.{FitAlone, RootsFitAlone, StayCertified, StayRefused, StayGiven};

/// Among other functions and other certificates the answer to a function stays what it is, where its own text and certificate
/// are the same, and the functions that it calls look the same to it. The module's tables and layouts have to be the same.
/// What its blocks begin with depends on no other function and no other certificate at all.
pub fn locality_law()
    ensures certified { StayCertified }
    ensures refused { StayRefused }
    ensures given { StayGiven }
{}

/// Among other functions the same certificates and the same shapes fit a function, where the module's tables are the same.
pub fn fit_law()
    ensures sections { FitAlone }
    ensures roots { RootsFitAlone }
{}
