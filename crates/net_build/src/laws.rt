//! Laws of the network of a project. Each is the contract of a call that has nothing to do.
ghost use Rattle.std.specs.Prelude.{◌≡◌, ◌*◌};
ghost use Rattle.duct_definitions.specs.declared.limits.TheConstants.{MAX_SECTIONS};
ghost use Rattle.size_catalogue.specs.declared.limits.TheConstants.{MAX_LIST_SIZES};

use crate::limits::{MAX_ASKED, MAX_SECTION_ASKED};

/// The most that a rule is asked about, as a number and by the limits of docs/FORMATS.md.
pub fn limits_as_numbers()
    ensures asked { MAX_ASKED ≡ 288_000 }
    ensures section { MAX_SECTION_ASKED ≡ MAX_LIST_SIZES * MAX_LIST_SIZES }
    ensures sizes { MAX_ASKED ≡ MAX_SECTIONS * MAX_SECTION_ASKED }
{}
