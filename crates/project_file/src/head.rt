//! The head of the top table: the format, the name and the density of the air.
ghost use Rattle.std.specs.Prelude.{◌≡◌, IfOk};
ghost use Rattle.toml.specs.View.{table_view};
ghost use Rattle.duct_units.specs.Rules.{unless_refused, first_broken};
ghost use Rattle.project_file.specs.TopTable.{head_rules, head_in, format_rules, format_in, IsHead};

use crate::format::Format;
use duct_definitions::MAX_DENSITY;
use duct_units::{Fault, Name, Reason};
use toml::Table;
use toml_fields::{has_only, integer_at, name_at, number_at};

/// The format, the name and the density of the air.
#[derive(Clone, Copy)]
pub(crate) struct Head {
    pub format: Format,
    pub name: Name,
    /// g/m3.
    pub density: u64,
}

/// The head of the top table, or its first refusal; before it a key that isn't listed.
pub(crate) fn read_head(document: &Table) -> Result<Head, Fault>
    ensures value { let doc = table_view document.now in
        result ≡ unless_refused (first_broken (head_rules doc)) (head_in doc) }
    ensures bounds { IfOk result IsHead }
{
    if !has_only(
        document,
        &["format", "name", "density", "energy", "rules", "section"],
    ) {
        return Err(Fault::of_file(Reason::Key));
    }
    let format = read_format(document)?;
    let Some(name) = name_at(document, "name") else {
        return Err(Fault::of_file(Reason::Field));
    };
    let Some(density) = number_at(document, "density", 1, MAX_DENSITY) else {
        return Err(Fault::of_file(Reason::Field));
    };
    Ok(Head {
        format,
        name,
        density,
    })
}

fn read_format(document: &Table) -> Result<Format, Fault>
    ensures { let doc = table_view document.now in
        result ≡ unless_refused (first_broken (format_rules doc)) (format_in doc) }
{
    match integer_at(document, "format") {
        Some(1) => Ok(Format::One),
        Some(2) => Ok(Format::Two),
        Some(_) => Err(Fault::of_file(Reason::Format)),
        None => Err(Fault::of_file(Reason::Field)),
    }
}
