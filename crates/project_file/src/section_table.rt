//! What the table of a section says.
ghost use Rattle.std.specs.Prelude.{◌≡◌, IfSome};
ghost use Rattle.toml.specs.View.{table_view};
ghost use Rattle.project_file.specs.SectionTables.{section_of};
ghost use Rattle.project_file.specs.Sections.{IsTable};

use crate::limits::{MAX_HEIGHT, MAX_VELOCITY};
use crate::section_row::SectionRow;
use crate::size_limits::SizeLimits;
use duct_definitions::{MAX_DEVICE, MAX_FLOW, MAX_LEAK, MAX_LENGTH, MAX_LOCAL};
use duct_units::{Name, Side};
use section_tables::TreeSection;
use toml::Table;
use toml_fields::{name_at, number_at, optional_name_at, optional_number_at};

/// What the table of a section says, key by key, with the section's own limits alone.
#[derive(Clone, Copy)]
pub(crate) struct SectionTable {
    pub name: Name,
    pub side: Side,
    pub neighbour: Option<Name>,
    pub length: u64,
    pub list: Name,
    pub local: u64,
    pub junction: Option<Name>,
    pub device: u64,
    pub flow: Option<u64>,
    pub preset: Option<Name>,
    pub velocity: Option<u64>,
    pub height: Option<u64>,
    pub leak: u64,
}

/// What the table of a section says, where every key is of its kind and within its bound.
pub(crate) fn section_at(table: &Table) -> Option<SectionTable>
    ensures value { result ≡ section_of (table_view table.now) }
    ensures bounds { IfSome result IsTable }
{
    let tree = TreeSection::at(table)?;
    Some(SectionTable {
        name: tree.name,
        side: tree.side,
        neighbour: tree.neighbour,
        length: number_at(table, "length", 0, MAX_LENGTH)?,
        list: name_at(table, "list")?,
        local: optional_number_at(table, "local", 0, MAX_LOCAL)?.unwrap_or(0),
        junction: optional_name_at(table, "junction")?,
        device: optional_number_at(table, "device", 0, MAX_DEVICE)?.unwrap_or(0),
        flow: optional_number_at(table, "flow", 1, MAX_FLOW)?,
        preset: optional_name_at(table, "preset")?,
        velocity: optional_number_at(table, "velocity", 1, MAX_VELOCITY)?,
        height: optional_number_at(table, "height", 1, MAX_HEIGHT)?,
        leak: optional_number_at(table, "leak", 0, MAX_LEAK)?.unwrap_or(0),
    })
}

impl SectionTable {
    ghost use Rattle.std.specs.Prelude.{◌≡◌};
    ghost use Rattle.project_file.specs.Sections.{row_of, tree_section};
    ghost use Rattle.project_file.specs.SectionTables.{is_junction_at_fan};

    /// What it says of the tree.
    pub(crate) fn in_tree(&self) -> TreeSection
        ensures { result ≡ tree_section self.now }
    {
        TreeSection {
            name: self.name,
            side: self.side,
            neighbour: self.neighbour,
        }
    }

    /// What it says apart from the tree, in a project with these limits.
    pub(crate) fn row(&self, limits: &SizeLimits) -> SectionRow
        ensures { result ≡ row_of limits.now self.now }
    {
        SectionRow {
            name: self.name,
            length: self.length,
            list: self.list,
            local: self.local,
            junction: self.junction,
            device: self.device,
            airflow: self.flow,
            preset: self.preset,
            velocity: self.velocity.or(limits.velocity),
            height: self.height.or(limits.height),
            leak: self.leak,
        }
    }

    /// Whether it has a junction, and no neighbour to join.
    pub(crate) fn is_junction_at_fan(&self) -> bool
        ensures { result ≡ is_junction_at_fan self.now }
    {
        self.junction.is_some() && self.neighbour.is_none()
    }
}
