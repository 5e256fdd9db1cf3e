ghost use Rattle.std.specs.Prelude.{◌≡◌, IfOk};

use mc_base::{List, NoMemory, Text};
use mc_charset::Charset;
use std::alloc::Global;

/// A value of a cell: NULL, a whole number, or a string of a set.
#[derive(Drop)]
pub enum Value {
    /// NULL.
    Null,
    /// A whole number.
    Int(i64),
    /// A string: a text of the set.
    Str { charset: Charset, text: Text },
}

/// A row: a value a column.
pub type Row = List<Value>;

/// The same value once more.
pub fn copy_value(alloc: Global, value: &Value) -> Result<Value, NoMemory>
    ensures { IfOk result (λ copy. copy ≡ value.now) }
{
    match value {
        Value::Null => Ok(Value::Null),
        Value::Int(number) => Ok(Value::Int(*number)),
        Value::Str { charset, text } => Ok(Value::Str {
            charset: *charset,
            text: Text::from_slice(alloc, text.as_slice())?,
        }),
    }
}
