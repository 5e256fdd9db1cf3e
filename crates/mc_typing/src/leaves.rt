ghost use Rattle.mc_ast.specs.Texts.{HasUtf8To};
ghost use Rattle.mc_ast.specs.declared.expr.Form.TheViews.{out-Form};
ghost use Rattle.mc_typing.specs.Columns.{column, column_of_table};
ghost use Rattle.mc_typing.specs.Exprs.{typed_node};
ghost use Rattle.mc_typing.specs.Places.{column_in};
ghost use Rattle.mc_typing.specs.Scope.{IsScope};
ghost use Rattle.mc_typing.specs.Walk.{shape_of};
ghost use Rattle.mc_typing.specs.Wanted.{IsWanted};
ghost use Rattle.mc_typing.specs.declared.shape.Shape.TheVariants.{Leaf};
ghost use Rattle.std.specs.Prelude.{◌≡◌, []};

use crate::aggregates::count_all;
use crate::columns::{column, column_in, column_of_table};
use crate::fault::TypeFault;
use crate::literals::{
    hex_string, int_const, introduced, national_string, null_const, plain_string,
};
use crate::place::Place;
use crate::scope::Scope;
use crate::typed::TypedExpr;
use mc_ast::Form;
use mc_catalog::Catalog;
use std::alloc::Global;

/// The column of a name, where it stands.
fn named(
    alloc: Global,
    c: &Catalog,
    s: Scope,
    place: Place,
    name: &[u8],
) -> Result<TypedExpr, TypeFault>
    requires { IsScope c.now s }
    ensures { IsWanted result (column_in place name.now (column c.now s name.now)) }
{
    column_in(alloc, place, name, column(alloc, c, s, name))
}

/// The column of a name with its table, where it stands.
fn qualified(
    alloc: Global,
    c: &Catalog,
    s: Scope,
    place: Place,
    table: &[u8],
    name: &[u8],
) -> Result<TypedExpr, TypeFault>
    requires { IsScope c.now s }
    ensures { IsWanted result (column_in place name.now
        (column_of_table c.now s table.now name.now)) }
{
    column_in(
        alloc,
        place,
        name,
        column_of_table(alloc, c, s, table, name),
    )
}

/// The typed expression of a form without operands.
pub(crate) fn leaf(
    alloc: Global,
    c: &Catalog,
    s: Scope,
    place: Place,
    number: u32,
    form: &Form,
) -> Result<TypedExpr, TypeFault>
    requires scope { IsScope c.now s }
    requires script { HasUtf8To 1 form.now }
    requires shape { shape_of (out-Form form.now) ≡ Leaf }
    ensures { IsWanted result (typed_node c.now s place number (out-Form form.now) []) }
{
    match form {
        Form::Int(number) => Ok(int_const(*number)),
        Form::True => Ok(int_const(1)),
        Form::False => Ok(int_const(0)),
        Form::Null => Ok(null_const()),
        Form::Str(text) => plain_string(alloc, c, s, text.as_slice()),
        Form::National(text) => national_string(alloc, c, text.as_slice()),
        Form::Hex(bytes) => hex_string(alloc, bytes.as_slice()),
        Form::IntroStr { set, text } => introduced(alloc, c, set.as_slice(), text.as_slice()),
        Form::IntroHex { set, text } => introduced(alloc, c, set.as_slice(), text.as_slice()),
        Form::Name(name) => named(alloc, c, s, place, name.as_slice()),
        Form::Qualified { table, name } => {
            qualified(alloc, c, s, place, table.as_slice(), name.as_slice())
        }
        Form::CountAll => count_all(alloc, place, number),
        _ => unreachable!(),
    }
}
