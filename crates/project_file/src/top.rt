//! The top table.
ghost use Rattle.std.specs.Prelude.{◌≡◌, IfOk};
ghost use Rattle.toml.specs.View.{table_view};
ghost use Rattle.duct_units.specs.Rules.{unless_refused, first_broken};
ghost use Rattle.file_definitions.specs.Reading.{ReadsAs};
ghost use Rattle.project_file.specs.TopTable.{top_rules, top_in, IsTop};
ghost use Rattle.project_file.specs.TableEntries.{top_entry};

use crate::energy_terms::read_energy;
use crate::head::{Head, read_head};
use crate::size_limits::{SizeLimits, read_limits};
use duct_units::{Fault, Reason};
use fan_points::Energy;
use toml::Table;
use toml_fields::Tables;

/// What the top table says: the sections are lent by the document.
#[derive(Drop)]
pub(crate) struct Top<'t> {
    pub head: Head,
    pub energy: Energy,
    pub limits: SizeLimits,
    pub sections: Tables<'t>,
}

/// The top table, or the first of its rules that is broken: its head, the table `energy`, the table `rules`, and an
/// array of tables for the sections.
pub(crate) fn read_top(document: &Table) -> Result<Top<'_>, Fault>
    ensures value { let doc = table_view document.now in
        ReadsAs top_entry result (unless_refused (first_broken (top_rules doc)) (top_in doc)) }
    ensures bounds { IfOk result (λ top. IsTop (top_entry top)) }
{
    let head = read_head(document)?;
    let energy = read_energy(document)?;
    let limits = read_limits(document)?;
    let Some(sections) = Tables::at(document, "section") else {
        return Err(Fault::of_file(Reason::Field));
    };
    Ok(Top {
        head,
        energy,
        limits,
        sections,
    })
}
