//! The document of format 2 that says what a document says.
ghost use Rattle.std.specs.Prelude.{◌≡◌, map, codes, pos, IfOk};
ghost use Rattle.toml.specs.Data.{integer};
ghost use Rattle.toml.specs.View.{table_view, view};
ghost use Rattle.project_file.specs.Raised.{raised, with_leak, with_leaks, with_member};
ghost use Rattle.project_file.specs.TopTable.{is_format};

use duct_units::NoMemory;
use std::alloc::Global;
use toml::{Table, Value};
use toml_fields::{items_at, number_at};

/// The document with format 2 and with `leak` 0 in each section, where it is of format 1; else itself.
pub(crate) fn raised(alloc: Global, document: Table) -> Result<Table, NoMemory>
    ensures { IfOk result (λ now. table_view now ≡ raised (table_view document)) }
{
    if !is_format_1(&document) {
        return Ok(document);
    }
    let sections = leaking_sections(alloc, &document)?;
    in_format_2(alloc, document, sections)
}

fn is_format_1(document: &Table) -> bool
    ensures { result ≡ is_format 1 (table_view document.now) }
{
    number_at(document, "format", 1, 1).is_some()
}

/// The document with these sections and format 2.
fn in_format_2(alloc: Global, document: Table, sections: Value) -> Result<Table, NoMemory>
    ensures { IfOk result (λ now. table_view now
        ≡ with_member (codes "format") (integer (pos 2))
        (with_member (codes "section") (view sections) (table_view document))) }
{
    let mut document = document;
    put(alloc, &mut document, "section", sections)?;
    put(alloc, &mut document, "format", Value::Integer(2))?;
    Ok(document)
}

/// The sections of the document, each with `leak` 0.
fn leaking_sections(alloc: Global, document: &Table) -> Result<Value, NoMemory>
    ensures { IfOk result (λ value. view value ≡ with_leaks (table_view document.now)) }
{
    match items_at(document, "section") {
        Some(sections) => Ok(Value::Array(leaking(alloc, sections)?)),
        None => Ok(Value::Array(Vec::new(alloc))),
    }
}

fn leaking(alloc: Global, sections: &[Value]) -> Result<Vec<Value>, NoMemory>
    ensures { IfOk result (λ values. map view values.items ≡ map with_leak (map view sections.now)) }
{
    let mut raised = Vec::with_capacity(alloc, sections.len())?;
    for i in 0..sections.len() {
        let section = leaking_section(alloc, &sections[i])?;
        raised.push(section)?;
    }
    Ok(raised)
}

/// The section with `leak` 0.
fn leaking_section(alloc: Global, section: &Value) -> Result<Value, NoMemory>
    ensures { IfOk result (λ value. view value ≡ with_leak (view section.now)) }
{
    match section.clone()? {
        Value::Table(table) => Ok(Value::Table(leaking_table(alloc, table)?)),
        other => Ok(other),
    }
}

fn leaking_table(alloc: Global, table: Table) -> Result<Table, NoMemory>
    ensures { IfOk result (λ now. table_view now
        ≡ with_member (codes "leak") (integer (pos 0)) (table_view table)) }
{
    let mut table = table;
    put(alloc, &mut table, "leak", Value::Integer(0))?;
    Ok(table)
}

/// Puts the value at the key, in the place of the one that was there.
fn put(alloc: Global, table: &mut Table, key: &str, value: Value) -> Result<(), NoMemory>
    ensures { IfOk result (λ _. table_view table.new ≡ with_member key.now (view value) (table_view table.old)) }
{
    let key = String::from_str(alloc, key)?;
    table.insert(key, value)?;
    Ok(())
}
