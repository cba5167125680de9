//! The limits of names as numbers. The call does nothing: its contract is the law.
ghost use Rattle.std.specs.Prelude.{◌≡◌};
ghost use Rattle.duct_units.specs.declared.name.TheConstants.{MAX_NAME_BYTES};

/// A name has at most 32 bytes.
pub fn limits_as_numbers()
    ensures { MAX_NAME_BYTES ≡ 32 }
{}
