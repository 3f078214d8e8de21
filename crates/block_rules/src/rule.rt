ghost use Rattle.std.specs.Prelude.{◌≡◌, Some};
ghost use Rattle.block_rules.specs.RuleNames.{rule_name};

use std::fmt;

/// The rules, as they are printed.
#[derive(Clone, Copy, Debug, PartialEq, Eq)]
pub enum Rule {
    /// A value is not available here.
    K1,
    /// An operand is of another type.
    K2,
    /// A reference is stale.
    K3,
    /// The base of a place may be null.
    K4,
    /// A word outside the layout, or an index that is not known to be small enough.
    K5,
    /// A reference is stored without a barrier in a cell that is not fresh.
    K6,
    /// The object of a barrier is neither null nor in the class of the base.
    K7,
    /// An alloca of a pointer that is no reference slot with a gcroot.
    K8,
    /// A gcroot outside the head, a second one, not on a slot, or with metadata.
    K9,
    /// A slot is used otherwise than by load, store, gcroot and bitcast.
    K10,
    /// An alloca outside the entry block.
    K11,
    /// References in a function without a shadow stack.
    K12,
    /// What is promised of a parameter is not implied by its argument.
    K13,
    /// What is promised of the result is not implied.
    K14,
    /// A claim of the target is not implied on an edge.
    K15,
    /// A phi's entry is missing, or is for a block that is no predecessor, or two for one block differ.
    K16,
    /// A function that is marked `none` may reach a safepoint.
    K17,
    /// An unknown callee, another number of arguments, or a runtime name that is declared with another type.
    K18,
    /// A bitcast to another layout.
    K19,
    /// A start function takes a reference.
    K20,
}

impl Rule {
    /// The rule as it is printed.
    pub fn name(self) -> &'static str
        ensures { result.now ≡ rule_name self }
    {
        match self {
            Rule::K1 => "K1",
            Rule::K2 => "K2",
            Rule::K3 => "K3",
            Rule::K4 => "K4",
            Rule::K5 => "K5",
            Rule::K6 => "K6",
            Rule::K7 => "K7",
            Rule::K8 => "K8",
            Rule::K9 => "K9",
            Rule::K10 => "K10",
            Rule::K11 => "K11",
            Rule::K12 => "K12",
            Rule::K13 => "K13",
            Rule::K14 => "K14",
            Rule::K15 => "K15",
            Rule::K16 => "K16",
            Rule::K17 => "K17",
            Rule::K18 => "K18",
            Rule::K19 => "K19",
            Rule::K20 => "K20",
        }
    }
}

impl fmt::Display for Rule {
    ghost output = { λ rule. Some (rule_name rule) };

    fn fmt<W: fmt::Write>(&self, f: &mut fmt::Formatter<W>) -> fmt::Result {
        write!(f, "{}", self.name())
    }
}
