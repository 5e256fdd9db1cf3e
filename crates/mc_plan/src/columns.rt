ghost use Rattle.mc_plan.specs.Plans.{index_collation, type_collation};
ghost use Rattle.std.specs.Prelude.{◌≡◌};

use mc_catalog::{ColumnDecl, ColumnType, IndexDecl};
use mc_charset::{Charset, CollId, bin_of};

/// The collation of a column of this type: of binary strings `binary`, of numbers none.
fn type_collation(ty: ColumnType) -> Option<CollId>
    ensures { result ≡ type_collation ty }
{
    match ty {
        ColumnType::BigInt => None,
        ColumnType::Char { coll, .. } | ColumnType::VarChar { coll, .. } => Some(coll),
        ColumnType::Binary { .. } | ColumnType::VarBinary { .. } => Some(bin_of(Charset::Binary)),
    }
}

/// The collation of the column that an index covers: of binary strings `binary`. A column of
/// numbers has none, and so has one that isn't there.
pub fn index_collation(columns: &[ColumnDecl], index: &IndexDecl) -> Option<CollId>
    ensures { result ≡ index_collation columns.now index.now }
{
    let column = columns.get(index.column as usize)?;
    type_collation(column.ty)
}
