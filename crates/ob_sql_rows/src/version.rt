//! The versions of the tables.

/// A version of the tables of a book.
#[derive(Clone, Copy)]
pub enum Version {
    /// The first version: ten tables, without the table of in-service intervals. A book of this
    /// version is only read to convert it to version 2.
    One,
    /// The current version, which the program writes: all eleven tables.
    Two,
}

impl Version {
    ghost use Rattle.std.specs.Prelude.{◌≡◌};
    ghost use Rattle.ob_sql_rows.specs.Versions.{version_number};

    /// The version's number, as stored in the heading.
    pub fn number(self) -> u32
        ensures { result ≡ version_number self }
    {
        match self {
            Version::One => 1,
            Version::Two => 2,
        }
    }
}
