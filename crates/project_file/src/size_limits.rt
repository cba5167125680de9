//! What the project asks of the size of every section.
ghost use Rattle.std.specs.Prelude.{◌≡◌, IfSome, IfOk};
ghost use Rattle.toml.specs.View.{table_view};
ghost use Rattle.duct_units.specs.Rules.{unless_refused, first_broken};
ghost use Rattle.project_file.specs.Limits.{AreLimits, limits_in, limits_of, limits_rules};

use crate::limits::{MAX_HEIGHT, MAX_VELOCITY};
use duct_units::{Fault, Reason};
use toml::Table;
use toml_fields::{has_key, has_only, optional_flag_at, optional_number_at, table_at};

/// What the project asks of the size of every section.
#[derive(Clone, Copy)]
pub(crate) struct SizeLimits {
    /// The greatest velocity, mm/s.
    pub velocity: Option<u64>,
    /// The greatest height, mm.
    pub height: Option<u64>,
    /// Whether no section may be larger than its neighbour.
    pub taper: bool,
}

/// The limits of the table `rules`, or its first refusal; no limits where the key is absent.
pub(crate) fn read_limits(document: &Table) -> Result<SizeLimits, Fault>
    ensures value { let doc = table_view document.now in
        result ≡ unless_refused (first_broken (limits_rules doc)) (limits_in doc) }
    ensures bounds { IfOk result AreLimits }
{
    if !has_key(document, "rules") {
        return Ok(SizeLimits {
            velocity: None,
            height: None,
            taper: false,
        });
    }
    let Some(table) = table_at(document, "rules") else {
        return Err(Fault::of_file(Reason::Field));
    };
    if !has_only(table, &["velocity", "height", "taper"]) {
        return Err(Fault::of_file(Reason::Key));
    }
    match limits_of(table) {
        Some(limits) => Ok(limits),
        None => Err(Fault::of_file(Reason::Field)),
    }
}

fn limits_of(table: &Table) -> Option<SizeLimits>
    ensures value { result ≡ limits_of (table_view table.now) }
    ensures bounds { IfSome result AreLimits }
{
    Some(SizeLimits {
        velocity: optional_number_at(table, "velocity", 1, MAX_VELOCITY)?,
        height: optional_number_at(table, "height", 1, MAX_HEIGHT)?,
        taper: optional_flag_at(table, "taper")?.unwrap_or(false),
    })
}
