//! What a field of a question names.
ghost use Rattle.std.specs.Prelude.{◌≡◌, ◌<◌, length, IfSome};
ghost use Rattle.fan_points.specs.Fans.{IsFan};
ghost use Rattle.loss_listing.specs.Answers.{fan_at, size_at, table_at};

use crate::catalogues::Catalogues;
use csv_fields::Rows;
use fan_points::{FanRow, MAX_POINTS};

impl Catalogues {
    /// The number of the size that a field names.
    pub fn size_at(&self, rows: &Rows<'_>, i: usize) -> Option<u32>
        ensures value { result ≡ size_at self.now rows.now.row i }
        ensures within { IfSome result (λ size. size < length self.now.sizes.sizes) }
    {
        self.sizes.named(&rows.name(i)?)
    }

    /// The number of the table that a field names.
    pub fn table_at(&self, rows: &Rows<'_>, i: usize) -> Option<u32>
        ensures value { result ≡ table_at self.now rows.now.row i }
        ensures within { IfSome result (λ table. table < length self.now.fittings.grids) }
    {
        self.fittings.table(&rows.name(i)?)
    }

    /// The fan whose number from 1 a field is.
    pub fn fan_at(&self, rows: &Rows<'_>, i: usize) -> Option<FanRow>
        ensures value { result ≡ fan_at self.now rows.now.row i }
        ensures bounds { IfSome result IsFan }
    {
        let number = rows.number(i, 1, MAX_POINTS as u64)? as u32;
        if number > self.fans.len() {
            return None;
        }
        Some(self.fans.fan(number - 1))
    }
}
