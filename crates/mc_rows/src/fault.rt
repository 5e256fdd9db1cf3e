ghost use Rattle.std.specs.Prelude.{◌≡◌};
ghost use Rattle.mc_rows.specs.Told.{place_told};
ghost use Rattle.mc_rows.specs.declared.fault.RowsFaultKind.TheVariants.{NoMemory as OutOfMemory};

use mc_base::NoMemory;

/// Why a file of rows was refused, in the order in which it is tested: the text, then a record,
/// then its fields one after the other.
#[derive(Clone, Copy, Debug, PartialEq, Eq)]
pub enum RowsFaultKind {
    /// The file isn't UTF-8; told with the length of its longest prefix that is, in bytes.
    NotUtf8,
    /// There are more than 200,000 records; told with 200001.
    TooManyRows,
    /// The record has another number of fields than the table has columns.
    WrongCount,
    /// The field of a bigint isn't an optional `-` and digits, or is outside 64 bits.
    BadInt,
    /// The field of a binary column isn't pairs of hexadecimal digits.
    BadHex,
    /// The set of a text column lacks a character of the field.
    Unfit,
    /// The field has more characters, or bytes, than the column takes.
    TooLong,
    /// Memory ran out; told with 0.
    NoMemory,
}

/// Why a file of rows was refused, and where: the number of the record, from 1, but for `NotUtf8`
/// a length in bytes.
#[derive(Clone, Copy, Debug, PartialEq, Eq)]
pub struct RowsFault {
    pub kind: RowsFaultKind,
    pub at: u64,
}

impl From<NoMemory> for RowsFaultKind {
    ghost from_gives = { λ _ error. error ≡ OutOfMemory };

    fn from(_error: NoMemory) -> RowsFaultKind {
        RowsFaultKind::NoMemory
    }
}

impl RowsFault {
    /// A fault of the record of this number.
    pub(crate) fn at_record(kind: RowsFaultKind, number: u64) -> RowsFault
        ensures { result ≡ record { kind = kind; at = place_told kind number } }
    {
        match kind {
            RowsFaultKind::NoMemory => RowsFault { kind, at: 0 },
            _ => RowsFault { kind, at: number },
        }
    }
}

impl From<NoMemory> for RowsFault {
    ghost from_gives = { λ _ fault. fault ≡ record { kind = OutOfMemory; at = 0 } };

    fn from(_error: NoMemory) -> RowsFault {
        RowsFault {
            kind: RowsFaultKind::NoMemory,
            at: 0,
        }
    }
}
