//! Kinds of tokens with which forms begin that are left out.
ghost use Rattle.std.specs.Prelude.{◌≡◌};
ghost use Rattle.ir_text.specs.Starts as spec;

use ir_tokens::Kind;

/// Types without a name.
pub fn begins_unread_item(kind: Kind) -> bool
    ensures { result ≡ spec.begins_unread_item kind }
{
    matches!(kind, Kind::LocalNumber)
}

/// Globals without a first value.
pub fn is_external(kind: Kind) -> bool
    ensures { result ≡ spec.is_external kind }
{
    matches!(kind, Kind::External | Kind::ExternWeak)
}
