//! What is read fits, and what is printed is read again.
ghost use Rattle.certificate.specs.Laws.{AreFitting, AreShaped, AreForeignFitting, ArePrintedAgain, ArePrintedAlike, StayFitting};

/// Certificates that are read fit their module. What is printed of certificates that fit is a text of such certificates, where
/// each of the module's names is found as what it names. Certificates fit after one section is replaced, if all others fitted.
pub fn cert_law()
    ensures fit { AreFitting }
    ensures shaped { AreShaped }
    ensures foreign { AreForeignFitting }
    ensures printed { ArePrintedAgain }
    ensures alike { ArePrintedAlike }
    ensures replaced { StayFitting }
{}
