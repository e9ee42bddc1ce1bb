//! The result of an import.
use ob_base::{Fault, Refusal};

/// The result of an import that met no fault.
#[derive(Clone, Copy, Debug, PartialEq, Eq)]
pub struct ImportReport {
    /// The number of rows that added a command to the book.
    pub added: u32,
    /// The number of rows whose command the book had already, under the same reference.
    pub again: u32,
    /// The row that stopped the import, and why. Rows are numbered from 1; the header is row 0.
    pub stopped: Option<(u32, Refusal)>,
}

/// The result of an import up to a fault.
#[derive(Clone, Copy, Debug, PartialEq, Eq)]
pub struct ImportFault {
    /// The fault.
    pub fault: Fault,
    /// The number of rows that added a command to the book.
    pub added: u32,
    /// The number of rows whose command the book had already, under the same reference.
    pub again: u32,
}
