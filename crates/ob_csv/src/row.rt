//! One row of a CSV text.
ghost use Rattle.std.specs.Prelude.{◌≡◌, ◌≢◌, [], MatchOption, get_or, length, map};
ghost use Rattle.csv.specs.Records.{fields_of};
ghost use Rattle.ob_csv.specs.Header.{columns, is_header};

use crate::{COLUMNS, RowFields, column_names};
use csv::ByteRecord;
use std::alloc::Global;
use std::marker::Model;

/// A row of any number of fields. In contracts it is the list of their bytes.
#[derive(Drop)]
pub struct Row {
    pub(crate) fields: ByteRecord,
}

impl Model for Row {
    ghost use Rattle.std.specs.Prelude.{List, ℕ};
    ghost use Rattle.csv.specs.Records.{fields_of};

    ghost Value = { List (List ℕ) };

    ghost view = { λ row. fields_of row.fields };
}

impl Row {
    /// A row with no fields, for a `RowReader` to fill.
    pub fn new(alloc: Global) -> Row
        ensures { result ≡ [] }
    {
        Row {
            fields: ByteRecord::new(alloc),
        }
    }

    /// The fields of the row, if it has one for each column.
    pub fn fields(&self) -> Option<RowFields<'_>>
        ensures { MatchOption result (length self.now ≢ columns) (λ fields. self.now
            ≡ map (λ f. f.now) fields) }
    {
        let fields = first_fields(&self.fields);
        (self.fields.len() == COLUMNS).then_some(fields)
    }

    /// Whether the row's fields are the names of the columns, in their order.
    pub fn is_header(&self) -> bool
        ensures { result ≡ is_header self.now }
    {
        match self.fields() {
            Some(fields) => are_names(&fields),
            None => false,
        }
    }
}

// Whether these are the names of the columns, in their order.
fn are_names(fields: &RowFields<'_>) -> bool
    ensures { result ≡ is_header (map (λ f. f.now) fields.now) }
{
    let names = column_names();
    for place in 0..COLUMNS {
        if fields[place] != names[place].as_bytes() {
            return false;
        }
    }
    true
}

// The fields of a row that has one for each column.
fn first_fields(row: &ByteRecord) -> RowFields<'_>
    ensures { length (fields_of row.now) ≡ columns → fields_of row.now ≡ map (λ f. f.now) result }
{
    let mut fields: RowFields<'_> = [b""; COLUMNS];
    for place in 0..COLUMNS {
        fields[place] = field_at(row, place);
    }
    fields
}

// The field at a place; an empty field if there is none.
fn field_at(row: &ByteRecord, place: usize) -> &[u8]
    ensures { result.now ≡ get_or (fields_of row.now) place [] }
{
    row.get(place).unwrap_or(&[])
}
