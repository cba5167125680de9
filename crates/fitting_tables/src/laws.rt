//! Laws of junction coefficients. Each is the contract of a call that has nothing to do.
ghost use Rattle.std.specs.Prelude.{◌≡◌, length, pos, neg_ℤ};
ghost use Rattle.fitting_tables.specs.Reading.{header};
ghost use Rattle.fitting_tables.specs.Coefficient.{coefficient_of, HoldsOnPairs};
ghost use Rattle.fitting_tables.specs.Worked.{four_cells};

use crate::limits::{COLUMNS, MAX_BREAKPOINTS, MAX_RATIO, MAX_TABLES, MAX_VALUE, MIN_VALUE};

/// The limits of docs/FORMATS.md, "Fittings", as numbers. Ratios and coefficients are in thousandths.
pub fn limits_as_numbers()
    ensures columns { (COLUMNS ≡ 4) × (length header ≡ 4) }
    ensures tables { MAX_TABLES ≡ 32 }
    ensures breakpoints { MAX_BREAKPOINTS ≡ 20 }
    ensures ratio { MAX_RATIO ≡ 1_000_000 }
    ensures value { (MIN_VALUE ≡ neg_ℤ (pos 1_000_000)) × (MAX_VALUE ≡ pos 1_000_000) }
{}

/// On a breakpoint of each ratio the coefficient is the value of the cell.
pub fn on_a_breakpoint_pair()
    ensures { HoldsOnPairs }
{}

/// Areas 500 and 1000, flows 250 and 750, values 100, 300, 200 and -101: beyond the last breakpoints the last value
/// holds, below the first ones the first; midway the mean of 124.75 is rounded up.
pub fn a_worked_coefficient()
    ensures beyond { coefficient_of four_cells 2_000 900 ≡ neg_ℤ (pos 101) }
    ensures below { coefficient_of four_cells 100 0 ≡ pos 100 }
    ensures between { coefficient_of four_cells 750 500 ≡ pos 125 }
{}
