//! The limit of edits as a number. The call does nothing: its contract is the law.
ghost use Rattle.std.specs.Prelude.{◌≡◌};
ghost use Rattle.edit_session.specs.declared.limits.TheConstants.{MAX_EDITS};

/// At most 1,000 edits are applied.
pub fn limit_as_a_number()
    ensures { MAX_EDITS ≡ 1000 }
{}
