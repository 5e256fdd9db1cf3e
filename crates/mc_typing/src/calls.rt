ghost use Rattle.mc_catalog.specs.Lawful.{IsLawful};
ghost use Rattle.mc_typing.specs.Calls.{
  call,
  called,
  digits_ty,
  first_operand,
  fitted,
  function_call,
  is_cut,
  is_length,
  made_of,
  misfits,
  plain_call,
  shown,
  strcmp,
  system_text,
  text_call,
  weights,
};
ghost use Rattle.mc_typing.specs.Functions.{callee_of, trim_of};
ghost use Rattle.mc_typing.specs.Operands.{AreTyped};
ghost use Rattle.mc_typing.specs.Operators.{some_text};
ghost use Rattle.mc_typing.specs.Scope.{IsScope};
ghost use Rattle.mc_typing.specs.Aggregates.{is_aggregate};
ghost use Rattle.mc_typing.specs.Walk.{call_shape};
ghost use Rattle.mc_typing.specs.Wanted.{IsWanted};
ghost use Rattle.mc_typing.specs.declared.place.Place.{Place};
ghost use Rattle.mc_typing.specs.declared.shape.Shape.TheVariants.{Several};
ghost use Rattle.std.specs.Prelude.{◌≡◌, ℕ, IfOk, Some, codes, drop, false, length, take};

use crate::callee::{Callee, callee_of, takes, trim_of};
use crate::fault::{TypeFault, refused};
use crate::literals::int_const;
use crate::messages::{collation_name, no_function, wrong_argument, wrong_count};
use crate::operands::{
    BINARY, connection_set, is_number, is_text, of_collation, of_number, operand_of, usual,
};
use crate::operators::{number_expr, some_text, together};
use crate::scope::Scope;
use crate::typed::{Func, Node, Ty, TypedExpr};
use mc_ast::{Cut, TrimSide};
use mc_base::{Boxed, List, NoMemory, Text};
use mc_catalog::Catalog;
use mc_charset::{Charset, charset_name};
use mc_coerce::{COERCIBLE, NUMERIC, Operand, Purpose, SYSTEM_CONSTANT};
use mc_convert::Repertoire;
use mc_values::Value;
use std::alloc::Global;

/// The greatest length that WEIGHT_STRING takes.
const GREATEST_LENGTH: i64 = 1_048_576;

/// The arguments behind the first.
fn behind_first(xs: &[TypedExpr]) -> &[TypedExpr]
    ensures { result.now ≡ drop 1 xs.now }
{
    match xs {
        [_, rest @ ..] => rest,
        [] => xs,
    }
}

/// Whether the second argument is a text.
fn is_second_text(xs: &[TypedExpr]) -> bool
    ensures { result ≡ some_text (take 1 (drop 1 xs.now)) }
{
    match behind_first(xs) {
        [second, ..] => is_text(second.ty),
        [] => false,
    }
}

/// Whether a text stands where a number belongs.
fn misfits(function: Func, xs: &[TypedExpr]) -> bool
    ensures { result ≡ misfits function xs.now }
{
    match function {
        Func::Substring | Func::Left | Func::Right | Func::Repeat => some_text(behind_first(xs)),
        Func::Lpad | Func::Rpad => is_second_text(xs),
        Func::Mod => some_text(xs),
        Func::Concat
        | Func::ConcatWs
        | Func::CharLength
        | Func::Length
        | Func::Hex
        | Func::TrimBoth
        | Func::TrimLeading
        | Func::TrimTrailing
        | Func::Reverse
        | Func::Replace
        | Func::Strcmp => false,
    }
}

/// What texts have together, as the type of a text that is made of them.
fn made_of(a: Operand) -> Operand
    ensures { result ≡ made_of a }
{
    if a.level == NUMERIC {
        Operand {
            level: COERCIBLE,
            ..a
        }
    } else {
        a
    }
}

/// A function that makes a text of its texts.
fn text_call(
    alloc: Global,
    c: &Catalog,
    function: Func,
    name: &[u8],
    xs: List<TypedExpr>,
) -> Result<TypedExpr, TypeFault>
    requires lawful { IsLawful c.now }
    requires typed { AreTyped c.now xs }
    ensures { IsWanted result (text_call c.now function name.now xs) }
{
    let operand = together(alloc, c, name, Purpose::Text, xs.as_slice())?;
    Ok(TypedExpr {
        node: Node::Call {
            name: function,
            uses: Some(operand),
            args: xs,
        },
        ty: Ty::Str(made_of(operand)),
    })
}

/// STRCMP.
fn strcmp(
    alloc: Global,
    c: &Catalog,
    name: &[u8],
    xs: List<TypedExpr>,
) -> Result<TypedExpr, TypeFault>
    requires lawful { IsLawful c.now }
    requires typed { AreTyped c.now xs }
    ensures { IsWanted result (strcmp c.now name.now xs) }
{
    let operand = together(alloc, c, name, Purpose::Compare, xs.as_slice())?;
    Ok(number_expr(Node::Call {
        name: Func::Strcmp,
        uses: Some(operand),
        args: xs,
    }))
}

/// A call without an aggregate of its texts.
fn plain_call(function: Func, ty: Ty, xs: List<TypedExpr>) -> TypedExpr
    ensures { result ≡ plain_call function ty xs }
{
    TypedExpr {
        node: Node::Call {
            name: function,
            uses: None,
            args: xs,
        },
        ty,
    }
}

/// The type of HEX.
fn digits_ty(c: &Catalog, s: Scope) -> Ty
    requires { IsScope c.now s }
    ensures { result ≡ digits_ty c.now s }
{
    Ty::Str(of_collation(
        connection_set(c, s),
        s.connection,
        COERCIBLE,
        Repertoire::Ascii,
    ))
}

/// A call whose arguments have kinds that it takes.
fn fitted(
    alloc: Global,
    c: &Catalog,
    s: Scope,
    function: Func,
    name: &[u8],
    xs: List<TypedExpr>,
) -> Result<TypedExpr, TypeFault>
    requires scope { IsScope c.now s }
    requires typed { AreTyped c.now xs }
    ensures { IsWanted result (fitted c.now s function name.now xs) }
{
    match function {
        Func::Strcmp => strcmp(alloc, c, name, xs),
        Func::CharLength | Func::Length | Func::Mod => Ok(plain_call(function, Ty::Int, xs)),
        Func::Hex => Ok(plain_call(function, digits_ty(c, s), xs)),
        Func::Concat
        | Func::ConcatWs
        | Func::Substring
        | Func::Left
        | Func::Right
        | Func::TrimBoth
        | Func::TrimLeading
        | Func::TrimTrailing
        | Func::Lpad
        | Func::Rpad
        | Func::Repeat
        | Func::Reverse
        | Func::Replace => text_call(alloc, c, function, name, xs),
    }
}

/// A call of a function of values.
pub(crate) fn function_call(
    alloc: Global,
    c: &Catalog,
    s: Scope,
    function: Func,
    name: &[u8],
    xs: List<TypedExpr>,
) -> Result<TypedExpr, TypeFault>
    requires scope { IsScope c.now s }
    requires typed { AreTyped c.now xs }
    ensures { IsWanted result (function_call c.now s function name.now xs) }
{
    if misfits(function, xs.as_slice()) {
        Err(refused(wrong_argument(alloc, name)))
    } else {
        fitted(alloc, c, s, function, name, xs)
    }
}

/// A text of the system, of so low a level.
fn system_text(alloc: Global, c: &Catalog, level: u8, text: &[u8]) -> Result<TypedExpr, NoMemory>
    requires { IsLawful c.now }
    ensures { IfOk result (λ x. x ≡ system_text c.now level text.now) }
{
    let charset = Charset::Utf8mb3;
    let value = Value::Str {
        charset,
        text: Text::from_slice(alloc, text)?,
    };
    Ok(TypedExpr {
        node: Node::Const(value),
        ty: Ty::Str(of_collation(charset, usual(c, charset), level, Repertoire::Ascii)),
    })
}

/// What a function of types shows of an operand.
fn shown(alloc: Global, c: &Catalog, callee: Callee, a: &Operand) -> Result<TypedExpr, NoMemory>
    requires { IsLawful c.now }
    ensures { IfOk result (λ x. x ≡ shown c.now callee a.now) }
{
    match callee {
        Callee::Charset => system_text(alloc, c, COERCIBLE, charset_name(a.charset).as_bytes()),
        Callee::Collation => system_text(alloc, c, COERCIBLE, collation_name(c, a.collation)),
        _ => Ok(int_const(i64::from(a.level))),
    }
}

/// The first of the arguments as an operand.
fn first_operand(c: &Catalog, s: Scope, xs: &[TypedExpr]) -> Operand
    requires { IsScope c.now s }
    ensures { result ≡ first_operand c.now s xs.now }
{
    match xs {
        [x, ..] => operand_of(c, s, x.ty),
        [] => of_number(c, s),
    }
}

/// A call with a number of arguments that the function takes.
fn called(
    alloc: Global,
    c: &Catalog,
    s: Scope,
    name: &[u8],
    callee: Callee,
    xs: List<TypedExpr>,
) -> Result<TypedExpr, TypeFault>
    requires scope { IsScope c.now s }
    requires typed { AreTyped c.now xs }
    requires plain { is_aggregate (Some callee) ≡ false }
    ensures { (place : Place) (number : ℕ)
        → IsWanted result (called c.now s place number name.now callee xs) }
{
    match callee {
        Callee::Of(function) => function_call(alloc, c, s, function, name, xs),
        Callee::Version => Ok(system_text(alloc, c, SYSTEM_CONSTANT, b"8.0-profile")?),
        Callee::Aggregate(_) => unreachable!(),
        Callee::Charset | Callee::Collation | Callee::Coercibility | Callee::Weights => {
            let operand = first_operand(c, s, xs.as_slice());
            Ok(shown(alloc, c, callee, &operand)?)
        }
    }
}

/// A call of what a name stands for, but an aggregate of its one argument.
fn call(
    alloc: Global,
    c: &Catalog,
    s: Scope,
    name: &[u8],
    callee: Option<Callee>,
    xs: List<TypedExpr>,
) -> Result<TypedExpr, TypeFault>
    requires scope { IsScope c.now s }
    requires typed { AreTyped c.now xs }
    requires shape { call_shape callee (length xs) ≡ Several }
    ensures { (place : Place) (number : ℕ)
        → IsWanted result (call c.now s place number name.now callee xs) }
{
    let Some(callee) = callee else {
        return Err(refused(no_function(alloc, name)));
    };
    if takes(callee, xs.len()) {
        called(alloc, c, s, name, callee, xs)
    } else {
        Err(refused(wrong_count(alloc, name)))
    }
}

/// A call of a name, but an aggregate of its one argument.
pub(crate) fn call_named(
    alloc: Global,
    c: &Catalog,
    s: Scope,
    name: &Text,
    xs: List<TypedExpr>,
) -> Result<TypedExpr, TypeFault>
    requires scope { IsScope c.now s }
    requires typed { AreTyped c.now xs }
    requires shape { call_shape (callee_of name.now) (length xs) ≡ Several }
    ensures { (place : Place) (number : ℕ)
        → IsWanted result (call c.now s place number name.now (callee_of name.now) xs) }
{
    let name = name.as_slice();
    call(alloc, c, s, name, callee_of(name), xs)
}

/// TRIM from a side.
pub(crate) fn trim(
    alloc: Global,
    c: &Catalog,
    s: Scope,
    side: TrimSide,
    xs: List<TypedExpr>,
) -> Result<TypedExpr, TypeFault>
    requires scope { IsScope c.now s }
    requires typed { AreTyped c.now xs }
    ensures { IsWanted result (function_call c.now s (trim_of side) (codes "trim") xs) }
{
    function_call(alloc, c, s, trim_of(side), b"trim", xs)
}

fn is_length(length: i64) -> bool
    ensures { result ≡ is_length length }
{
    1 <= length && length <= GREATEST_LENGTH
}

/// Whether the length of WEIGHT_STRING is within its limits.
fn is_cut(cut: Option<Cut>) -> bool
    ensures { result ≡ is_cut cut }
{
    match cut {
        None => true,
        Some(Cut::Chars(length) | Cut::Bytes(length)) => is_length(length),
    }
}

/// WEIGHT_STRING.
pub(crate) fn weights(alloc: Global, cut: Option<Cut>, x: TypedExpr) -> Result<TypedExpr, TypeFault>
    ensures { IsWanted result (weights cut x) }
{
    if is_number(x.ty) || !is_cut(cut) {
        return Err(refused(wrong_argument(alloc, b"weight_string")));
    }
    Ok(TypedExpr {
        node: Node::WeightString {
            cut,
            expr: Boxed::new(alloc, x)?,
        },
        ty: Ty::Str(of_collation(Charset::Binary, BINARY, COERCIBLE, Repertoire::Bytes)),
    })
}
