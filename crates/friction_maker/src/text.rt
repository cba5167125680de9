//! The friction file of made rows.
ghost use Rattle.std.specs.Prelude.{◌≡◌, ◌++◌, ◌<◌, length, IfOk, OnOk};
ghost use Rattle.std.specs.List.{flat_map};
ghost use Rattle.friction_maker.specs.MadeRows.{AreOfSizes};
ghost use Rattle.friction_maker.specs.RowsText.{name_of_size, separated, row_line, rows_text};

use crate::making::MadeRow;
use duct_units::{List, Name, NoMemory};
use size_catalogue::Sizes;
use std::alloc::Global;
use text_lines::{Text, number};

/// The friction file that the rows are (docs/FORMATS.md, "Friction"): a line of the names of its columns, and one for
/// each row.
pub fn rows_text(alloc: Global, sizes: &Sizes, rows: &List<MadeRow>) -> Result<List<u8>, NoMemory>
    requires { AreOfSizes sizes.now rows.now }
    ensures { IfOk result (λ text. text ≡ rows_text sizes.now rows.now) }
{
    let mut text = Text::new(alloc);
    text.line(b"size,flow,rate", &[])?;
    add_rows(alloc, &mut text, sizes, rows.as_slice())?;
    Ok(text.into_list())
}

fn add_rows(alloc: Global, text: &mut Text, sizes: &Sizes, rows: &[MadeRow]) -> Result<(), NoMemory>
    requires { AreOfSizes sizes.now rows.now }
    ensures { OnOk result (text.new ≡ text.old ++ flat_map (row_line sizes.now) rows.now) }
{
    for row in rows {
        add_row(alloc, text, sizes, row)?;
    }
    Ok(())
}

fn add_row(alloc: Global, text: &mut Text, sizes: &Sizes, row: &MadeRow) -> Result<(), NoMemory>
    requires { row.now.size < length sizes.now.sizes }
    ensures { OnOk result (text.new ≡ text.old ++ row_line sizes.now row.now) }
{
    let name = name_of(sizes, row.size);
    let flow = number(alloc, row.flow)?;
    let rate = number(alloc, row.rate)?;
    let fields = separated(alloc, name.bytes(), flow.as_bytes(), rate.as_bytes())?;
    text.line(&fields, &[])
}

fn name_of(sizes: &Sizes, size: u32) -> Name
    requires { size < length sizes.now.sizes }
    ensures { result ≡ name_of_size sizes.now size }
{
    sizes.size(size).name
}

// Three fields, with a comma between each two.
fn separated(alloc: Global, first: &[u8], second: &[u8], third: &[u8]) -> Result<Vec<u8>, NoMemory>
    ensures { IfOk result (λ fields. fields.items ≡ separated first.now second.now third.now) }
{
    let mut fields = Vec::new(alloc);
    fields.extend_from_slice(first)?;
    fields.push(b',')?;
    fields.extend_from_slice(second)?;
    fields.push(b',')?;
    fields.extend_from_slice(third)?;
    Ok(fields)
}
