//! How passes come to be and how they become one.
ghost use Rattle.std.specs.Prelude.{◌≡◌, ◌<◌, [], None};
ghost use Rattle.child_counter.specs.Passes.{less_view, part_view, both_views};

use crate::rule::Parts;
use crate::table::{Held, Inner};

impl<'n> Inner<'n> {
    /// A new pass, with one part of this one.
    pub fn split(&self, pass: &mut Held<'n>) -> Held<'n>
        requires belongs { pass.old.table_id ≡ self.now.table.shared.table_id }
        requires parts { 1 < pass.old.me.0.parts }
        ensures old { (pass.new.table_id ≡ pass.old.table_id)
            × (pass.new.me ≡ (less_view pass.old.me.0, pass.old.me.1)) }
        ensures new { (result.table_id ≡ pass.old.table_id) × (result.me ≡ (part_view pass.old.me.0, [])) }
    {
        self.table.shared.split_seat::<Parts>(pass)
    }

    /// Takes in the other pass.
    pub fn join(&self, pass: &mut Held<'n>, other: Held<'n>)
        requires belongs { (pass.old.table_id ≡ self.now.table.shared.table_id)
            × (other.table_id ≡ self.now.table.shared.table_id) }
        requires free { (pass.old.me.0.turn ≡ None) × (other.me.0.turn ≡ None) }
        requires slots { other.me.1 ≡ [] }
        requires part { 0 < pass.old.me.0.parts }
        ensures { (pass.new.table_id ≡ pass.old.table_id)
            × (pass.new.me ≡ (both_views pass.old.me.0 other.entry.me.0, pass.old.me.1)) }
    {
        self.table.shared.join_seat::<Parts>(pass, other)
    }
}
