//! The table of words and slots. Each step on it stands in a file of its own kind beside this one.
ghost use Rattle.std.specs.Prelude.{◌≡◌, ◌+◌};
ghost use Rattle.duct_definitions.specs.Tree.{IsTree, section_count};

use crate::rule::Shown;
use crate::view::{Job, PassView};
use atomic_table::{Seat, Table};
use contract_join::Outcome;
use std::alloc::Global;

/// A pass at the table: what it knows, and the slots that it holds.
pub type Held<'n> = Seat<Option<Outcome<'n>>, PassView<'n>>;

/// The words and the slots: one word for each section and one for the roots, one slot for each section.
#[derive(Drop)]
pub(crate) struct Inner<'n> {
    pub table: Table<Option<Outcome<'n>>, PassView<'n>, Job<'n>, Shown, Global>,
    ghost counted: { table.shared.table_id.words ≡ section_count table.shared.key.net.tree + 1 },
    ghost slotted: { table.shared.table_id.slots ≡ section_count table.shared.key.net.tree },
    ghost tree: { IsTree table.shared.key.net.tree },
}
