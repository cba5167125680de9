//! The rows of a file, of which one is at hand and the others are left.
ghost use Rattle.std.specs.Prelude.{◌≡◌, ◌≤◌, ◌<◌, ◌≤ℤ◌, ◌^◌, [], length, map, option_map, slice_get, IfSome, IfOk, OnErr, IsTrue};
ghost use Rattle.duct_units.specs.Name.{is_name};
ghost use Rattle.duct_units.specs.Rules.{Gives, row_fault};
ghost use Rattle.file_definitions.specs.Rows.{rows_of, has_field, has_fields, name_field, number_field, integer_field};
ghost use Rattle.csv_fields.specs.RowsLeft.{Advances, HasEnded, opened};

use csv::{ByteRecord, Reader, ReaderBuilder};
use duct_units::{Fault, Name, NoMemory, ReadError, Reason, whole};
use std::alloc::Global;
use std::marker::Model;

/// The number of the header.
const HEADER_ROW: u32 = 1;

/// The rows of a file: the one at hand, its number from 1, and those that are left.
#[derive(Drop)]
pub struct Rows<'b> {
    reader: Reader<&'b [u8]>,
    row: ByteRecord,
    number: u32,
    // The last row was read, or memory ran out.
    ended: bool,
}

impl<'b> Model for Rows<'b> {
    ghost use Rattle.csv_fields.specs.RowsLeft.{RowsLeft};

    ghost Value = { RowsLeft };

    ghost use Rattle.csv_fields.specs.ReaderRows.{rows_left, IsReading};

    ghost view = { rows_left };

    ghost invariant = { λ rows. IsReading rows.reader };
}

impl<'b> Rows<'b> {
    /// The rows of the bytes, with the header at hand. Another first row is refused, and so is a file without rows.
    ///
    /// A byte order mark before the first row is skipped, and an empty line is no row.
    pub fn open(alloc: Global, bytes: &'b [u8], header: &[&str]) -> Result<Rows<'b>, ReadError>
        ensures { Gives result (opened (map (λ field. field.now) header.now) (rows_of bytes.now)) }
    {
        let mut rows = Rows::start(alloc, bytes);
        if rows.advance()? && rows.has_fields(header) {
            Ok(rows)
        } else {
            Err(Fault::of_row(HEADER_ROW, Reason::Header).into())
        }
    }

    // Before the first row.
    fn start(alloc: Global, bytes: &'b [u8]) -> Rows<'b>
        ensures number { result.number ≡ 0 }
        ensures left { result.left ≡ rows_of bytes.now }
    {
        let reader = ReaderBuilder::new()
            .has_headers(false)
            .flexible(true)
            .from_reader(alloc, bytes);
        Rows {
            reader,
            row: ByteRecord::new(alloc),
            number: 0,
            ended: false,
        }
    }

    /// Goes on to the next row, and says whether there is one. After memory ran out no row is left.
    pub fn advance(&mut self) -> Result<bool, NoMemory>
        requires { self.old.number < u32.MAX }
        ensures row { IfOk result (Advances self.old self.new) }
        ensures err { OnErr result (HasEnded self.old self.new) }
    {
        if self.ended {
            return Ok(false);
        }
        let found = match self.reader.read_byte_record(&mut self.row) {
            Ok(found) => found,
            Err(_) => {
                self.ended = true;
                return Err(NoMemory);
            }
        };
        if found {
            self.number += 1;
        } else {
            self.ended = true;
        }
        Ok(found)
    }

    /// How many fields the row at hand has.
    pub fn columns(&self) -> usize
        ensures { result ≡ length self.now.row }
    {
        self.row.len()
    }

    /// The bytes of a field of the row at hand.
    pub fn field(&self, i: usize) -> Option<&[u8]>
        ensures { option_map (λ field. field.now) result ≡ slice_get self.now.row i }
    {
        self.row.get(i)
    }

    /// The name that a field is.
    pub fn name(&self, i: usize) -> Option<Name>
        ensures value { result ≡ name_field self.now.row i }
        ensures form { IfSome result (λ name. IsTrue (is_name name)) }
    {
        Name::new(self.field(i)?)
    }

    /// The whole number that a field spells, where it lies from low to high.
    pub fn integer(&self, i: usize, low: i64, high: i64) -> Option<i64>
        requires { low ≤ℤ high }
        ensures value { result ≡ integer_field self.now.row i low high }
        ensures within { IfSome result (λ number. (low ≤ℤ number) × (number ≤ℤ high)) }
    {
        whole(self.field(i)?, low, high)
    }

    /// The same of a number that isn't below 0.
    pub fn number(&self, i: usize, low: u64, high: u64) -> Option<u64>
        requires order { low ≤ high }
        requires fits { high < 2 ^ 63 }
        ensures value { result ≡ number_field self.now.row i low high }
        ensures within { IfSome result (λ number. (low ≤ number) × (number ≤ high)) }
    {
        let number = self.integer(i, low as i64, high as i64)?;
        Some(number.unsigned_abs())
    }

    /// The fault of the row at hand.
    pub fn fault(&self, reason: Reason) -> Fault
        ensures { result ≡ row_fault self.now.number reason }
    {
        Fault::of_row(self.number, reason)
    }

    fn has_fields(&self, fields: &[&str]) -> bool
        ensures { result ≡ has_fields (map (λ field. field.now) fields.now) self.now.row }
    {
        if self.columns() != fields.len() {
            return false;
        }
        for i in 0..fields.len() {
            if !self.has_field(i, fields[i]) {
                return false;
            }
        }
        true
    }

    fn has_field(&self, i: usize, bytes: &str) -> bool
        ensures { result ≡ has_field bytes.now i self.now.row }
    {
        match self.field(i) {
            Some(field) => field == bytes.as_bytes(),
            None => false,
        }
    }
}
