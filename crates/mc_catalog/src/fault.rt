ghost use Rattle.std.specs.Prelude.{◌≡◌};
ghost use Rattle.mc_catalog.specs.CatalogFaults.{line_told};
ghost use Rattle.mc_catalog.specs.declared.fault.CatalogFaultKind.TheVariants.{
  NoMemory as OutOfMemory,
};

use mc_base::NoMemory;

/// Why a catalog file was refused, in the order in which a line is tested.
#[derive(Clone, Copy, Debug, PartialEq, Eq)]
pub enum CatalogFaultKind {
    /// A line of no form, a byte above 7F outside a comment, a length outside the limits, rules
    /// with a kind that takes none, or a column or an index before any table.
    BadLine,
    /// No set has this name.
    UnknownCharset,
    /// No kind has this name.
    UnknownKind,
    /// The kind is not for this set.
    WrongCharset,
    /// The collation is neither built in nor declared above.
    UnknownCollation,
    /// The table has no such column above, or it is a bigint.
    UnknownColumn,
    /// An index over the first 0 characters of a column, or over more than it can have.
    BadLength,
    /// The name is taken, or there was a connection line above.
    Repeated,
    /// One collation, table, column or index more than is allowed.
    TooMany,
    /// A table without a column; told behind all lines, at the first such table's line.
    NoColumn,
    /// Memory ran out; the line is 0.
    NoMemory,
}

/// Why a catalog file was refused, and the number of the line, from 1.
#[derive(Clone, Copy, Debug, PartialEq, Eq)]
pub struct CatalogFault {
    pub kind: CatalogFaultKind,
    pub line: u32,
}

impl From<NoMemory> for CatalogFaultKind {
    ghost from_gives = { λ _ error. error ≡ OutOfMemory };

    fn from(_error: NoMemory) -> CatalogFaultKind {
        CatalogFaultKind::NoMemory
    }
}

impl CatalogFault {
    /// A fault of the line of this number.
    pub(crate) fn at_line(kind: CatalogFaultKind, number: u32) -> CatalogFault
        ensures { result ≡ record { kind = kind; line = line_told kind number } }
    {
        match kind {
            CatalogFaultKind::NoMemory => CatalogFault { kind, line: 0 },
            _ => CatalogFault { kind, line: number },
        }
    }
}

impl From<NoMemory> for CatalogFault {
    ghost from_gives = { λ _ fault. fault ≡ record { kind = OutOfMemory; line = 0 } };

    fn from(_error: NoMemory) -> CatalogFault {
        CatalogFault {
            kind: CatalogFaultKind::NoMemory,
            line: 0,
        }
    }
}
