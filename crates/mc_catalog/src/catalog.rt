ghost use Rattle.std.specs.Prelude.{◌≡◌};
ghost use Rattle.mc_catalog.specs.Lawful.{suits, takes_rules, width_of};

use mc_base::{List, Text};
use mc_charset::{Charset, CollId, is_unicode};

/// Where a collation's weights come from: the bytes of the spelling, a table of 256 bytes, a table
/// of code points, or an element table of the Unicode Collation Algorithm of that version, by the
/// levels that it compares.
#[derive(Clone, Copy, Debug, PartialEq, Eq)]
pub enum Kind {
    Bin,
    Table8,
    General,
    Uca400,
    Uca520,
    Uca900AiCi,
    Uca900AsCi,
    Uca900AsCs,
}

impl Kind {
    /// Whether a collation of this set may be declared with the kind.
    pub(crate) fn suits(self, set: Charset) -> bool
        ensures { result ≡ suits self set }
    {
        match self {
            Kind::Bin => false,
            Kind::Table8 => set == Charset::Latin1 || set == Charset::Ascii,
            Kind::General | Kind::Uca400 | Kind::Uca520 => is_unicode(set),
            Kind::Uca900AiCi | Kind::Uca900AsCi | Kind::Uca900AsCs => set == Charset::Utf8mb4,
        }
    }

    /// Whether the kind can be tailored by rules.
    pub(crate) fn takes_rules(self) -> bool
        ensures { result ≡ takes_rules self }
    {
        match self {
            Kind::Bin | Kind::Table8 | Kind::General => false,
            Kind::Uca400 | Kind::Uca520 | Kind::Uca900AiCi | Kind::Uca900AsCi | Kind::Uca900AsCs =>
                true,
        }
    }
}

/// A collation: its name in lower case, its set and kind, the file of its weights (no name for a
/// built-in one), and the file of its tailoring, if it has one.
#[derive(Drop)]
pub struct CollDecl {
    pub name: Text,
    pub charset: Charset,
    pub kind: Kind,
    pub file: Text,
    pub rules: Option<Text>,
}

/// The type of a column. `n` counts characters of a text, bytes of a binary string.
#[derive(Clone, Copy, Debug, PartialEq, Eq)]
pub enum ColumnType {
    BigInt,
    Char { n: u32, coll: CollId },
    VarChar { n: u32, coll: CollId },
    Binary { n: u32 },
    VarBinary { n: u32 },
}

impl ColumnType {
    /// The greatest length of a value, in characters, or bytes of a binary string; a bigint has
    /// none.
    pub(crate) fn width(self) -> Option<u32>
        ensures { result ≡ width_of self }
    {
        match self {
            ColumnType::BigInt => None,
            ColumnType::Char { n, .. }
            | ColumnType::VarChar { n, .. }
            | ColumnType::Binary { n }
            | ColumnType::VarBinary { n } => Some(n),
        }
    }
}

/// A column: its name in lower case, and its type.
#[derive(Drop)]
pub struct ColumnDecl {
    pub name: Text,
    pub ty: ColumnType,
}

/// An index: its name in lower case, the place of its column in the table, from 0, and how many
/// characters (bytes for binary) of the column it covers, if not all.
#[derive(Drop)]
pub struct IndexDecl {
    pub name: Text,
    pub column: u32,
    pub prefix: Option<u32>,
}

/// A table: its name in lower case, the file of its rows, its columns and its indexes.
#[derive(Drop)]
pub struct TableDecl {
    pub name: Text,
    pub file: Text,
    pub columns: List<ColumnDecl>,
    pub indexes: List<IndexDecl>,
}

/// The collations, which their places number from 0, the nine built-in ones first; the tables; and
/// the collation of a connection.
#[derive(Drop)]
pub struct Catalog {
    pub collations: List<CollDecl>,
    pub tables: List<TableDecl>,
    pub connection: CollId,
}
