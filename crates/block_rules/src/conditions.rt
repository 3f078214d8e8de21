ghost use Rattle.std.specs.Prelude.{◌≡◌};
ghost use Rattle.block_rules.specs.FirstFailing.{first_failing};

use crate::rule::Rule;

/// The number of the first condition that fails.
pub fn first_failing(conditions: &[(Rule, bool)]) -> Option<Rule>
    ensures { result ≡ first_failing conditions.now }
{
    for (rule, holds) in conditions {
        if !*holds {
            return Some(*rule);
        }
    }
    None
}
