//! The header of a text, which names the columns of its rows.
ghost use Rattle.std.specs.Prelude.{◌≡◌, map};
ghost use Rattle.ob_csv.specs.Header.{header};

/// How many columns the header names.
pub const COLUMNS: usize = 8;

/// The fields of a row that has one for each column, from the left, each with the text's own bytes.
pub type RowFields<'a> = [&'a [u8]; COLUMNS];

/// The names of the columns, from the left: `kind`, `ref` and `f1` to `f6`.
pub fn column_names() -> [&'static str; COLUMNS]
    ensures { map (λ n. n.now) result ≡ header }
{
    ["kind", "ref", "f1", "f2", "f3", "f4", "f5", "f6"]
}
