ghost use Rattle.mc_eval.specs.Fit.{uses_fit};
ghost use Rattle.mc_eval.specs.Functions.{applied, called, needed, text_call, text_function};
ghost use Rattle.mc_eval.specs.Held.{AreKept, HoldAllKept, TellsAll, held_values};
ghost use Rattle.mc_eval.specs.Outcomes.{GivesKept, IsValue, Outcome, Tells, of_all};
ghost use Rattle.mc_eval.specs.Outcomes.Outcome.{gives};
ghost use Rattle.std.specs.Prelude.{◌≡◌, IfOk, IsTrue, List as Listed};

use crate::digits::hex;
use crate::fault::EvalFault;
use crate::held::Held;
use crate::joins::{concat, concat_ws};
use crate::measures::{char_length, length, modulo, strcmp};
use crate::pads::{lpad, repeat, rpad};
use crate::replacements::{replace, reverse};
use crate::slices::{left, right, substring};
use crate::taken::take_apart;
use crate::text_operands::some_null;
use crate::trims::trim;
use mc_base::{List, NoMemory};
use mc_charset::Charset;
use mc_coerce::Operand;
use mc_order::Book;
use mc_strfun::Side;
use mc_typing::{Func, Ty};
use mc_values::Value;
use std::alloc::Global;

/// A function that gives a text of a set.
fn text_function(
    alloc: Global,
    name: Func,
    set: Charset,
    operands: &[Held<'_>],
) -> Result<Value, NoMemory>
    requires { AreKept operands.now }
    ensures { IfOk result (IsValue (text_function name set (held_values operands.now))) }
{
    let few = take_apart(operands);
    match name {
        Func::Concat => concat(alloc, set, operands),
        Func::ConcatWs => concat_ws(alloc, set, operands),
        Func::Substring => substring(alloc, set, few),
        Func::Left => left(alloc, set, few),
        Func::Right => right(alloc, set, few),
        Func::TrimBoth => trim(alloc, Side::Both, set, few),
        Func::TrimLeading => trim(alloc, Side::Leading, set, few),
        Func::TrimTrailing => trim(alloc, Side::Trailing, set, few),
        Func::Lpad => lpad(alloc, set, few),
        Func::Rpad => rpad(alloc, set, few),
        Func::Repeat => repeat(alloc, set, few),
        Func::Reverse => reverse(alloc, set, few),
        Func::Replace => replace(alloc, set, few),
        Func::CharLength | Func::Length | Func::Hex | Func::Strcmp | Func::Mod => Ok(Value::Null),
    }
}

/// The same, in the set that the texts of the call have together.
fn text_call(
    alloc: Global,
    name: Func,
    uses: Option<Operand>,
    operands: &[Held<'_>],
) -> Result<Value, NoMemory>
    requires { AreKept operands.now }
    ensures { IfOk result (IsValue (text_call name uses (held_values operands.now))) }
{
    match uses {
        Some(operand) => text_function(alloc, name, operand.charset, operands),
        None => Ok(Value::Null),
    }
}

/// A function of operands that don't make it NULL.
fn applied<B: Book>(
    alloc: Global,
    book: &B,
    name: Func,
    uses: Option<Operand>,
    ty: Ty,
    operands: &[Held<'_>],
) -> Result<Value, NoMemory>
    requires uses { IsTrue (uses_fit (B.count book.now) uses) }
    requires kept { AreKept operands.now }
    ensures { IfOk result
        (IsValue (applied (B.meaning book.now) name uses ty (held_values operands.now))) }
{
    match name {
        Func::CharLength => Ok(char_length(take_apart(operands))),
        Func::Length => Ok(length(take_apart(operands))),
        Func::Hex => hex(alloc, ty, take_apart(operands)),
        Func::Strcmp => strcmp(alloc, book, uses, take_apart(operands)),
        Func::Mod => Ok(modulo(take_apart(operands))),
        _ => text_call(alloc, name, uses, operands),
    }
}

/// The operands that make a call NULL where they are.
fn needed<'a, 'b>(name: Func, operands: &'a [Held<'b>]) -> &'a [Held<'b>]
    ensures { held_values result.now ≡ needed name (held_values operands.now) }
{
    match (name, operands) {
        (Func::ConcatWs, [_, _, ..]) => &operands[..1],
        _ => operands,
    }
}

/// A call of values.
fn called<B: Book>(
    alloc: Global,
    book: &B,
    name: Func,
    uses: Option<Operand>,
    ty: Ty,
    operands: &[Held<'_>],
) -> Result<Value, NoMemory>
    requires uses { IsTrue (uses_fit (B.count book.now) uses) }
    requires kept { AreKept operands.now }
    ensures { IfOk result
        (IsValue (called (B.meaning book.now) name uses ty (held_values operands.now))) }
{
    if some_null(needed(name, operands)) {
        return Ok(Value::Null);
    }
    applied(alloc, book, name, uses, ty, operands)
}

/// A call of what came of its operands. `uses` is what its texts have together.
pub(crate) fn call<B: Book>(
    alloc: Global,
    book: &B,
    name: Func,
    uses: Option<Operand>,
    ty: Ty,
    operands: Result<List<Held<'_>>, EvalFault>,
) -> Result<Value, EvalFault>
    requires uses { IsTrue (uses_fit (B.count book.now) uses) }
    requires kept { HoldAllKept operands }
    ensures told { (os : Listed Outcome) → TellsAll os operands.entry → Tells
        (of_all (λ values. gives (called (B.meaning book.now) name uses ty values)) os) result }
    ensures kept { GivesKept result }
{
    match operands {
        Ok(helds) => match called(alloc, book, name, uses, ty, helds.as_slice()) {
            Ok(value) => Ok(value),
            Err(NoMemory) => Err(EvalFault::NoMemory),
        },
        Err(fault) => Err(fault),
    }
}
