//! Laws of scripts. Each is the contract of a call that has nothing to do.
ghost use Rattle.std.specs.Prelude.{◌≡◌, Result, List, ℕ};
ghost use Rattle.duct_units.specs.declared.fault.Fault.{Fault};
ghost use Rattle.edit_script.specs.declared.reading.TheConstants.{MAX_LINES};
ghost use Rattle.edit_script.specs.declared.script.ScriptLine.{ScriptLine};
ghost use Rattle.edit_script.specs.Scripts.{IsReading};

/// Bytes have one reading: the lines of a script, or the fault for which they are refused.
#[tactic(auto, using(crate::proofs::OneReading::one_reading))]
pub fn bytes_have_one_reading()
    ensures { (bytes : List ℕ) (first second : Result (List ScriptLine) Fault)
        → IsReading bytes first → IsReading bytes second → first ≡ second }
{}

/// A script has at most 1,000 lines.
pub fn limit_as_a_number()
    ensures { MAX_LINES ≡ 1000 }
{}
