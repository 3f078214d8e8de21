//! The words of each case of a diagnosis: a sentence, what stands beside the caret, and what mends it. A hole, as `{it}`, is filled by a
//! name.
use block_rules::Rule;
use diagnosis::{Beyond, Case, Cause, Entries, Held, Missing, Mistyped, Outside, Target, Unkept};

/// The words of a case. What is empty is not said.
#[derive(Clone, Copy)]
pub(crate) struct Page {
    pub(crate) sentence: &'static str,
    pub(crate) label: &'static str,
    pub(crate) mend: &'static str,
    /// A further way that mends it.
    pub(crate) other: &'static str,
}

/// A case whose mends have words of their own.
fn said(sentence: &'static str, label: &'static str) -> Page {
    worded(sentence, label, "", "")
}

/// A case with nothing beside the caret.
fn mended(sentence: &'static str, mend: &'static str) -> Page {
    worded(sentence, "", mend, "")
}

fn worded(
    sentence: &'static str,
    label: &'static str,
    mend: &'static str,
    other: &'static str,
) -> Page {
    Page {
        sentence,
        label,
        mend,
        other,
    }
}

/// The words of a case.
pub(crate) fn text_of(case: &Case) -> Page {
    match case {
        Case::Unknown(cause) => of_unknown(cause),
        Case::Mistyped(mistyped) => of_mistyped(mistyped),
        Case::Argument(word) | Case::Result(word) => of_promise(word),
        Case::Edge(missing, _) => of_edge(missing),
        Case::Entries(entries) => of_entries(entries),
        Case::Outside(outside) => of_outside(outside),
        Case::Unrooted(held) => of_slot(held),
        Case::Rule(rule) => of_rule(*rule),
        case => of_place(case),
    }
}

/// K3 to K7, of references and places.
fn of_place(case: &Case) -> Page {
    match case {
        Case::NullablePlace => said("{it} may be null", "a place in the cell of {it}"),
        Case::NullableBase => said("{it} may be null", "used as the base of a place"),
        Case::Beyond(beyond) => of_beyond(beyond),
        Case::Loose => said("{it} is not known to be below {number}", INDEX),
        Case::Bytes => mended("an offset in bytes leads to no word that is known", FIELD),
        Case::OutsideCell => mended("this leads outside the words of {it}", FIELD),
        Case::OtherStruct { .. } => mended(
            "{it} refers to ",
            "write the struct to which {it} refers, or allocate {it} with the number of the one that is written",
        ),
        Case::Unbarred(target) => said(UNBARRED, label_of_store(target)),
        Case::OtherObject => said(OTHER_OBJECT, "the place is in the cell of {base}"),
        Case::NoObject => said(OTHER_OBJECT, "the place is in the cell of no object"),
        _ => said("{it} is stale here", ""),
    }
}

const INDEX: &str = "an index into an array of {number} elements";

const FIELD: &str =
    "name a field by its index: getelementptr T, .., i32 0, i32 FIELD, with the struct type T of {it}";

const UNBARRED: &str = "{it} is stored into {place} without llvm.gcwrite";

const OTHER_OBJECT: &str =
    "{callee} names {it} as the object, and the place is not known to be in that";

fn label_of_store(target: &Target) -> &'static str {
    match target {
        Target::Global => "a global is never fresh",
        Target::Cell => "a word of {base}, which is not fresh",
        Target::Other => "neither a slot nor a word of a fresh cell",
    }
}

fn of_beyond(beyond: &Beyond) -> Page {
    match beyond {
        Beyond::Signed => worded(
            "{it} may be negative: an index is a number with a sign",
            INDEX,
            "write it with more bits, which are zero: zext {type} {it} to i64, and lead by that",
            "",
        ),
        Beyond::Words => worded(
            "{it} is small enough, and some of these elements are outside the words of {base}",
            INDEX,
            "write the struct type of {base}, or compare {it} with a smaller number and branch before",
            "",
        ),
    }
}

/// K1.
fn of_unknown(cause: &Cause) -> Page {
    let sentence = match cause {
        Cause::Parameter => {
            "{it} is not known here: the certificate does not say to which layout this parameter refers"
        }
        Cause::Result => {
            "{it} is not known here: the certificate does not say to which layout the result of the call refers"
        }
        Cause::NotYet => "{it} is not known here: it is not defined on the way to this instruction",
        Cause::OneWay(_) => {
            "{it} is not known here: {definer} defines it, and another way to {here} does not lead through {definer}"
        }
        Cause::FromNothing =>
            "{it} is not known here: it comes from a place that is not known, or from null",
        Cause::Unlisted => "{it} is not known here: {here} does not list it",
        Cause::Stale => "{it} is stale here, and {here} does not list it",
    };
    said(sentence, "")
}

/// K2.
fn of_mistyped(mistyped: &Mistyped) -> Page {
    match mistyped {
        Mistyped::Layout => said("the module has no layout with the number {it}", ""),
        Mistyped::Place => mended(
            "what is read or written at {it} does not have the type of the word there",
            "write the type of the word, or lead to the right one; a reference is of one layout",
        ),
        Mistyped::Outside => mended(
            "{it} is an address outside of the module, and none may stand here",
            "keep it in a register, away from references: no cell, no global and no slot holds it, and no reference is stored where it leads",
        ),
        Mistyped::Address => mended("{it} is an address, and a value is wanted here", LOAD),
        Mistyped::Slot => mended("{it} is a slot, and a value is wanted here", LOAD),
        Mistyped::Stored => mended(
            "{it} does not have the type of the word at {place}",
            "store a reference to the layout of that word, which the certificate or the type of {place} says",
        ),
        Mistyped::Argument => mended(
            "{it} does not have the type of the parameter of {callee}",
            "give a value of the type that the parameter has",
        ),
        Mistyped::Handed => mended(
            "{it} is a reference, and {callee} is outside of the module",
            "give it numbers, null or data: a function outside takes no reference",
        ),
        mistyped => of_operand(mistyped),
    }
}

const LOAD: &str = "load from {it} first, and use what is loaded";

const OWN_TYPE: &str = "write the type that the value has";

/// K2 of what may stand in one kind of operand alone.
fn of_operand(mistyped: &Mistyped) -> Page {
    match mistyped {
        Mistyped::Only => mended("{it} does not have the type that is written", OWN_TYPE),
        Mistyped::SlotType => said(
            "{it} is a slot, and is written under a type that is not its own",
            "",
        ),
        Mistyped::Rooted => said("{it} is a slot, and @llvm.gcroot gets it as `i8**`", ""),
        Mistyped::Object => said(
            "{it} is no reference to a cell, and is named as the object",
            "",
        ),
        Mistyped::Entry => mended(
            "{it} is an address, and no address comes in for a phi",
            "let the reference come in, and write the getelementptr after the phi",
        ),
        Mistyped::Ordered => mended(
            "{it} is a reference, and references are compared by eq and ne alone",
            "compare by eq or ne: where a cell is says nothing of it",
        ),
        _ => mended(
            "an operand does not have the type that is written",
            OWN_TYPE,
        ),
    }
}

/// K8.
fn of_slot(held: &Held) -> Page {
    match held {
        Held::Reference => said(
            "{it} holds references, and no llvm.gcroot names it",
            "the collector does not look here: at a safepoint it may free what only this slot holds",
        ),
        Held::AnyReference => mended(
            "{it} holds references of a layout that its type does not say",
            "write alloca T*, where T is the struct to which it refers, and cast what is stored and what is loaded",
        ),
        Held::Address => mended(
            "{it} holds addresses, and a slot holds integers or references",
            "hold the reference in the slot in place of the address, and compute the address where it is used",
        ),
    }
}

/// K13 and K14, up to whose promise it is.
fn of_promise(word: &Unkept) -> Page {
    match word {
        Unkept::Null => mended(
            "this is null, and the certificate promises `nonnull`",
            "give a reference that is not null",
        ),
        Unkept::Nonnull => mended(
            "{it} may be null, and the certificate promises `nonnull`",
            "compare {it} with null and branch before",
        ),
        Unkept::Below => mended(
            "{it} is not known to be as small as the certificate promises",
            "compare {it} by icmp ult and branch before",
        ),
        Unkept::Layout => mended(
            "{it} refers to another layout than the certificate promises",
            "give a reference to the layout that is promised",
        ),
        Unkept::Outside => mended(
            "{it} is an address outside of the module, and the certificate does not promise `i64`",
            "promise `i64`, and nothing else, where addresses outside alone are given",
        ),
        Unkept::Inside => mended(
            "{it} is no address outside of the module, and the certificate promises `i64`",
            "give an address outside",
        ),
        Unkept::Other => mended(
            "{it} is not known to keep what the certificate promises",
            "show it before",
        ),
    }
}

/// K15, up to the claim.
fn of_edge(missing: &Missing) -> Page {
    let (mend, other) = mends_of_edge(missing);
    worded(sentence_of_edge(missing), "this edge", mend, other)
}

fn sentence_of_edge(missing: &Missing) -> &'static str {
    match missing {
        Missing::All => "{it} is not known at the end of {here}, and {to} claims ",
        Missing::OneWay(_) => {
            "{it} is not known at the end of {here}, to which a way leads that is not through {definer}, and {to} claims "
        }
        Missing::Entry => "{it} has no entry for {here}, and {to} claims ",
        Missing::Stale => "{it} is stale on the edge from {here} to {to}, which claims ",
        Missing::Null => "null comes in on the edge from {here} to {to}, which claims ",
        Missing::Nonnull => "{it} may be null on the edge from {here} to {to}, which claims ",
        Missing::Fresh => "{it} is not fresh on the edge from {here} to {to}, which claims ",
        Missing::InSlot(_) => {
            "{it} is fresh, and {place} holds it too on the edge from {here} to {to}, which claims "
        }
        Missing::Twin(_) => {
            "{it} is fresh, and {place} is the same on the edge from {here} to {to}, which claims "
        }
        Missing::InPhi(_) => {
            "{it} is fresh, and the phi {place} takes it in on the edge from {here} to {to}, which claims "
        }
        Missing::Layout => "{it} refers to another layout than {to} claims: ",
        Missing::Below =>
            "{it} is not known to be so small on the edge from {here} to {to}, which claims ",
        Missing::SlotNonnull => "{it} may hold null on the edge from {here} to {to}, which claims ",
        Missing::Holds =>
            "{it} is not known to hold that on the edge from {here} to {to}, which claims ",
        Missing::Other =>
            "{it} is not known to be so on the edge from {here} to {to}, which claims ",
    }
}

const WITHOUT_NONNULL: &str = "or take `nonnull` out of the claim, where nothing in {to} needs it";

const WITHOUT_FRESH: &str =
    "or take `fresh` out of the claim; a reference that is stored into its cell then needs llvm.gcwrite";

/// What mends an edge in the module, and in the certificate.
fn mends_of_edge(missing: &Missing) -> (&'static str, &'static str) {
    match missing {
        Missing::Entry => ("add an entry `[ VALUE, {here} ]` to the phi", ""),
        Missing::Null => (
            "let a reference that is not null come in, or lead this edge to another block",
            WITHOUT_NONNULL,
        ),
        Missing::Nonnull => (
            "compare {it} with null and branch, before this edge",
            WITHOUT_NONNULL,
        ),
        Missing::Layout => (
            "claim the layout to which {it} refers, or make it one of the layout that is claimed",
            "",
        ),
        Missing::Below => (
            "compare {it} by icmp ult and branch, before this edge",
            "or take `below` out of the claim, where nothing in {to} needs it",
        ),
        Missing::SlotNonnull => (
            "store into {it} what is not null, before this edge",
            WITHOUT_NONNULL,
        ),
        Missing::Holds => (
            "store it into {it} before this edge",
            "or take `holds` out of the claim, where nothing in {to} needs it",
        ),
        missing => mends_of_holders(missing),
    }
}

/// What mends a claim that is not shown since something else leads to the cell, or for no reason that has words.
fn mends_of_holders(missing: &Missing) -> (&'static str, &'static str) {
    match missing {
        Missing::Fresh | Missing::InPhi(_) => (
            "take `fresh` out of the claim; a reference that is stored into its cell then needs llvm.gcwrite",
            "",
        ),
        Missing::InSlot(_) => (
            "add `slot {place} holds {it}` under `block {to}`: with `fresh` all that leads to the cell is claimed",
            WITHOUT_FRESH,
        ),
        Missing::Twin(_) => (
            "add `same {it}` to the claim of {place}: with `fresh` all that leads to the cell is claimed",
            WITHOUT_FRESH,
        ),
        _ => ("claim what is known, or take the claim out", ""),
    }
}

/// K16.
fn of_entries(entries: &Entries) -> Page {
    match entries {
        Entries::Missing(_) => mended(
            "{it} has no entry for {to}, which leads to {here}",
            "add an entry `[ VALUE, {to} ]`",
        ),
        Entries::Extra(_) => mended(
            "{it} has an entry for {to}, which does not lead to {here}",
            "take the entry for {to} out",
        ),
        Entries::Other => mended(
            "{it} does not have one entry for each block that leads to {here}",
            "write one entry for each block that leads here, and none for another",
        ),
    }
}

/// K18 of a function outside.
fn of_outside(outside: &Outside) -> Page {
    match outside {
        Outside::OnlyDeclared => worded(
            "{callee} is only declared, and the module is the whole program",
            "",
            "define {callee} in this module, as llvm-link does of two texts",
            "or read it with `--forms wide`, where a certificate may trust functions outside (docs/CERTIFICATES.md)",
        ),
        Outside::Untrusted => worded(
            "{callee} is outside of the module, and the certificate does not trust it",
            "",
            "write `foreign {callee} none` after the first line of the certificate, if {callee} keeps what that promises",
            "docs/CERTIFICATES.md says what is promised: it reaches no safepoint, and touches no cell and none of the program's data",
        ),
        Outside::OtherCount => mended(
            "{callee} is outside of the module, and is not called as it is declared",
            "call it with as many arguments as it is declared with; it gives a number or nothing",
        ),
    }
}

/// A rule that says the same of each instruction.
fn of_rule(rule: Rule) -> Page {
    match rule {
        Rule::K9 => worded(
            "this llvm.gcroot may not be here",
            "",
            "call llvm.gcroot once for each slot, in the entry block after the allocas and before all else",
            "its first argument is the slot, and its second one null",
        ),
        Rule::K10 => worded(
            "{it} is a slot, and is used as a value",
            "the slot itself, and not what it holds",
            "load from {it} first, and use what is loaded",
            "",
        ),
        Rule::K11 => mended(
            "{it} is made by an alloca outside the entry block",
            "write the alloca in the entry block: what it makes is there once, for all turns of a loop",
        ),
        rule => of_function(rule),
    }
}

/// A rule on a function or on what it calls.
fn of_function(rule: Rule) -> Page {
    match rule {
        Rule::K12 => mended(
            "{function} has references, and no `gc \"shadow-stack\"`",
            "write `gc \"shadow-stack\"` after the parameters of {function}",
        ),
        Rule::K17 => mended(
            "{function} is marked `none`, and {callee} may reach a safepoint",
            "write `function {function} may`; what its callers hold over a call of it they then load again after it",
        ),
        Rule::K18 => worded(
            "{callee} is no function of the module or of the runtime with these types",
            "",
            "define {callee} in the module, or call it with the types that it is defined or declared with",
            "`dgc explain K18` names the functions of the runtime",
        ),
        Rule::K19 => mended(
            "{it} is led to a type that is not its own",
            "cast {it} to i8* and back to the same struct only",
        ),
        _ => mended(
            "a thread starts at a function that takes a reference",
            "start the thread at a function that takes integers",
        ),
    }
}
