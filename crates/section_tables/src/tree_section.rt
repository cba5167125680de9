//! What the table of a section says of the tree.
ghost use Rattle.std.specs.Prelude.{◌≡◌, IfSome, IsTrue};
ghost use Rattle.toml.specs.View.{table_view};
ghost use Rattle.duct_units.specs.Name.{is_name};
ghost use Rattle.section_tables.specs.Sides.{side_at};
ghost use Rattle.section_tables.specs.TreeSections.{tree_section_at};

use duct_units::{Name, Side};
use toml::Table;
use toml_fields::{name_at, optional_name_at, text_at};

/// What the table of a section says of the tree.
#[derive(Clone, Copy)]
pub struct TreeSection {
    /// Its name.
    pub name: Name,
    /// The side of the fan on which it stands.
    pub side: Side,
    /// The name of the next section towards the fan; None at the fan.
    pub neighbour: Option<Name>,
}

impl TreeSection {
    /// What the table says at the keys `name`, `side` and `neighbour`; None where one of them is missing though it must
    /// be there, or of another kind.
    pub fn at(table: &Table) -> Option<TreeSection>
        ensures value { result ≡ tree_section_at (table_view table.now) }
        ensures form { IfSome result (λ section. IsTrue (is_name section.name)) }
    {
        Some(TreeSection {
            name: name_at(table, "name")?,
            side: side_at(table)?,
            neighbour: optional_name_at(table, "neighbour")?,
        })
    }
}

/// The side at its key.
pub fn side_at(table: &Table) -> Option<Side>
    ensures { result ≡ side_at (table_view table.now) }
{
    match text_at(table, "side")? {
        "supply" => Some(Side::Supply),
        "return" => Some(Side::Return),
        _ => None,
    }
}
