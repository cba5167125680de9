//! The top table.
ghost use Rattle.std.specs.Prelude.{◌≡◌, option_map};
ghost use Rattle.toml.specs.View.{table_view};
ghost use Rattle.duct_units.specs.Rules.{unless_refused, first_broken};
ghost use Rattle.file_definitions.specs.Reading.{ReadsAs};
ghost use Rattle.network_file.specs.TopTable.{top_rules, top_in, fans_at};
ghost use Rattle.toml_fields.specs.ArrayItems.{tables_in};
ghost use Rattle.network_file.specs.TableEntries.{top_entry};

use duct_units::{Fault, Name, Reason};
use toml::Table;
use toml_fields::{Tables, has_key, has_only, integer_at, name_at};

/// What the top table says: the fans and the sections are lent by the document.
#[derive(Drop)]
pub(crate) struct Top<'t> {
    pub name: Name,
    pub fans: Tables<'t>,
    pub sections: Tables<'t>,
}

/// The top table, or the first of its keys that is refused.
pub(crate) fn read_top(table: &Table) -> Result<Top<'_>, Fault>
    ensures { let doc = table_view table.now in
        ReadsAs top_entry result (unless_refused (first_broken (top_rules doc)) (top_in doc)) }
{
    if !has_only(table, &["format", "name", "fan", "section"]) {
        return Err(Fault::of_file(Reason::Key));
    }
    match integer_at(table, "format") {
        Some(1) => {}
        Some(_) => return Err(Fault::of_file(Reason::Format)),
        None => return Err(Fault::of_file(Reason::Field)),
    }
    let Some(name) = name_at(table, "name") else {
        return Err(Fault::of_file(Reason::Field));
    };
    let Some(fans) = fans_at(table) else {
        return Err(Fault::of_file(Reason::Field));
    };
    let Some(sections) = Tables::at(table, "section") else {
        return Err(Fault::of_file(Reason::Field));
    };
    Ok(Top {
        name,
        fans,
        sections,
    })
}

/// The fans; none where the key is absent.
fn fans_at(table: &Table) -> Option<Tables<'_>>
    ensures { option_map tables_in result ≡ fans_at (table_view table.now) }
{
    if has_key(table, "fan") {
        Tables::at(table, "fan")
    } else {
        Some(Tables::none())
    }
}
