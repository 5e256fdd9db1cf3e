use crate::{ColumnType, Kind};
use mc_base::Text;
use mc_charset::Charset;

/// The type of a column as a line has it: a text's collation is a name.
#[derive(Drop)]
pub(crate) enum ColumnForm {
    /// A type without a collation.
    Plain(ColumnType),
    Char { n: u32, collation: Text },
    VarChar { n: u32, collation: Text },
}

/// What a line says. Names are in lower case; a set or a kind is None where no set or kind has the
/// name that the line has.
#[derive(Drop)]
pub(crate) enum Entry {
    Collation {
        name: Text,
        set: Option<Charset>,
        kind: Option<Kind>,
        file: Text,
        rules: Option<Text>,
    },
    Connection {
        name: Text,
    },
    Table {
        name: Text,
        file: Text,
    },
    Column {
        name: Text,
        form: ColumnForm,
    },
    Index {
        name: Text,
        column: Text,
        prefix: Option<u32>,
    },
}
