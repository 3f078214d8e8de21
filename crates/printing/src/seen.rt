//! The words of what is seen at another place.
use diagnosis::{Missing, Seen};

/// What is said of a claim of which this is missing.
fn text_of_claim(missing: &Missing) -> &'static str {
    match missing {
        Missing::Null | Missing::Nonnull | Missing::SlotNonnull => {
            "the claim, whose `nonnull` is not shown"
        }
        Missing::Fresh | Missing::InSlot(_) | Missing::Twin(_) | Missing::InPhi(_) => {
            "the claim, whose `fresh` is not shown"
        }
        Missing::Layout => "the claim, whose layout is another",
        Missing::Below => "the claim, whose `below` is not shown",
        Missing::Holds => "the claim, whose `holds` is not shown",
        Missing::Stale => "the claim, which is not `stale`",
        _ => "the claim",
    }
}

/// What is said of another place.
pub(crate) fn text_of_note(seen: &Seen) -> &'static str {
    match seen {
        Seen::Lost => "this call may reach a safepoint: {it} is stale from here on",
        Seen::Passed => "{function} passes {it} here, which is stale",
        Seen::Returned => "{function} returns {it} here, which is stale",
        Seen::Defined => "{it} is defined here",
        Seen::DefinedIn => "{it} is defined here, in {definer}",
        Seen::Uncompared => "{it} is defined here, and not compared with null on the way",
        Seen::Base => "{it} is the base of {place} from here on",
        Seen::Used => "{it} is used here: LLVM's verifier refuses this too",
        Seen::CallResult => "{it} is the result of this call",
        Seen::ComesIn => "{it} comes in here from {here}",
        Seen::Unfresh => "{base} is fresh up to here, and not after it",
        Seen::UnfreshInSlot => {
            "what {it} holds is fresh up to here, and not after it; {base} is loaded from there"
        }
        Seen::UnfreshTwin => "{it} is fresh up to here, and not after it; {base} is the same cell",
        Seen::Promise => "the promise",
        Seen::Mark => "the mark of {function}",
        Seen::Section => "the certificate of {function}",
        Seen::Listed => "what {here} lists comes after this line",
        Seen::Claim(missing) => text_of_claim(missing),
    }
}
