//! How often the arrays and tables of a document nest that breaks no rule; it has no dates. No call does anything: its
//! contract is what a proof cites.
ghost use Rattle.std.specs.Prelude.{◌≡◌, None, codes, All, IfSome};
ghost use Rattle.toml.specs.View.{table_view};
ghost use Rattle.duct_units.specs.Rules.{first_broken};
ghost use Rattle.file_definitions.specs.Document.{tables_at};
ghost use Rattle.toml_fields.specs.ArrayItems.{tables_in};
ghost use Rattle.toml_fields.specs.KeyFields.{table_at};
ghost use Rattle.project_file.specs.Ascending.{KeysAscend};
ghost use Rattle.project_file.specs.ProjectFile.{project_rules};
ghost use Rattle.project_file.specs.Shallow.{AreShallow};

use toml::Table;
use toml_fields::{Tables, table_at};

/// An array of tables in the top table is as deep as a document goes that breaks no rule.
pub(crate) fn nests_twice_at_most(document: &Table)
    requires { first_broken (project_rules (table_view document.now)) ≡ None }
    ensures { AreShallow 2 (table_view document.now) }
{
    keys_ascend(document);
    keys_ascend_at(document, "energy");
    keys_ascend_at(document, "rules");
    keys_ascend_in_sections(document);
}

/// The keys of a table ascend.
fn keys_ascend(table: &Table)
    ensures { KeysAscend (table_view table.now) }
{
    let _count = table.len();
}

/// The keys of the table at a key ascend.
fn keys_ascend_at(document: &Table, key: &str)
    ensures { IfSome (table_at key.now (table_view document.now)) KeysAscend }
{
    if let Some(table) = table_at(document, key) {
        keys_ascend(table);
    }
}

/// The keys of each section's table ascend.
fn keys_ascend_in_sections(document: &Table)
    ensures { IfSome (tables_at (codes "section") (table_view document.now)) (λ tables. All KeysAscend tables) }
{
    if let Some(tables) = Tables::at(document, "section") {
        keys_ascend_in(&tables);
    }
}

fn keys_ascend_in(tables: &Tables<'_>)
    ensures { All KeysAscend (tables_in tables.now) }
{
    for i in 0..tables.len() {
        keys_ascend(tables.get(i));
    }
}
