//! Law of replaced functions: what is printed of the module is what was printed of it, with the text of the new function in the old one's place.
#![tactic(auto)]

ghost use Rattle.replaced_text.specs.ReplacedText.{AreReplacedPrinted};

use ir_print_law::{grown_law, replaced_law};

/// Where one function of a whole module is replaced, what is printed of the module is what was printed before, with the text of the function that
/// was read in the place of the old one's. So by `ir_print_law::whole_law` this text, if it is within the limit, is one of that module again.
pub fn replaced_text_law()
    ensures { AreReplacedPrinted }
{
    grown_law();
    replaced_law();
}
