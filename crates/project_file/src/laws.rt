//! Laws of a project file. Each is the contract of a call that has nothing to do.
ghost use Rattle.std.specs.Prelude.{◌≡◌, ℕ, List, length, true, false, Ok, Some};
ghost use Rattle.toml.specs.Data.{Data, Members, get_member, same_key};
ghost use Rattle.project_file.specs.Energy.{energy_keys};
ghost use Rattle.project_file.specs.Limits.{limits_keys};
ghost use Rattle.project_file.specs.ProjectFile.{reading};
ghost use Rattle.project_file.specs.Projects.{IsProject};
ghost use Rattle.project_file.specs.Raised.{raised, with_member};
ghost use Rattle.project_file.specs.SectionTables.{section_keys};
ghost use Rattle.project_file.specs.TopTable.{is_format, top_keys};
ghost use Rattle.project_file.specs.declared.project.Project.{Project as ProjectData};
ghost use Rattle.project_file.specs.declared.format.Format.TheVariants.{One, Two};

use crate::limits::{MAX_HEIGHT, MAX_VELOCITY};
use duct_definitions::{
    MAX_DENSITY, MAX_DEVICE, MAX_FLOW, MAX_LEAK, MAX_LENGTH, MAX_LOCAL, MAX_SECTIONS,
};
use fan_points::{MAX_HOURS, MAX_TARIFF, MAX_WORTH};

/// The limits of docs/FORMATS.md, "Project file", as numbers. Density is in g/m3, hours are those of a year, the tariff
/// in hundredths of a cent per kWh, worth, coefficients and leaks in thousandths, velocity in mm/s, height and length
/// in mm, pressure in dPa, airflow in l/s.
pub fn limits_as_numbers()
    ensures keys { (length top_keys ≡ 6) × (length energy_keys ≡ 3) × (length limits_keys ≡ 3) }
    ensures section_keys { (length (section_keys One) ≡ 12) × (length (section_keys Two) ≡ 13) }
    ensures sections { MAX_SECTIONS ≡ 500 }
    ensures density { MAX_DENSITY ≡ 2_000 }
    ensures energy { (MAX_HOURS ≡ 8_784) × (MAX_TARIFF ≡ 1_000_000) × (MAX_WORTH ≡ 1_000_000) }
    ensures limits { (MAX_VELOCITY ≡ 1_000_000) × (MAX_HEIGHT ≡ 1_000_000) }
    ensures section { (MAX_LENGTH ≡ 1_000_000) × (MAX_LOCAL ≡ 1_000_000) × (MAX_DEVICE ≡ 20_000) }
    ensures airflow { (MAX_FLOW ≡ 200_000) × (MAX_LEAK ≡ 200) }
{}

/// A project that was read has an airflow of each of its sections.
pub fn a_project_has_an_airflow_of_each_section()
    ensures { (p : ProjectData) → IsProject p → length p.flows.sections ≡ length p.sections }
{}

/// A value that is put at a key stands there, and at every other key stands what stood there.
pub fn a_value_is_put_at_its_key()
    ensures here { (key : List ℕ) (value : Data) (ms : Members)
        → get_member key (with_member key value ms) ≡ Some value }
    ensures others { (other key : List ℕ) (value : Data) (ms : Members) → same_key other key ≡ false
        → get_member other (with_member key value ms) ≡ get_member other ms }
{}

/// A raised document is of format 2, and it is read as the same project: what is migrated means what it meant.
pub fn a_raised_document_is_the_same_project()
    ensures format { (doc : Members) (p : ProjectData) → reading (Some doc) ≡ Ok p → is_format 2 (raised doc) ≡ true }
    ensures project { (doc : Members) (p : ProjectData) → reading (Some doc) ≡ Ok p → reading (Some (raised doc)) ≡ Ok p }
{}
