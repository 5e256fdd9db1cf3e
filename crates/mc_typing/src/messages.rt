ghost use Rattle.mc_coerce.specs.Aggregate.{counted};
ghost use Rattle.mc_typing.specs.Messages.{
  bad_string,
  collation_name,
  level_word,
  mix,
  mix_of,
  naming,
  no_collation,
  no_column,
  no_function,
  no_set,
  no_table,
  not_grouped,
  operation_end,
  other_set,
  other_set_named,
  shown_operand,
  wrong_argument,
  wrong_count,
};
ghost use Rattle.std.specs.Prelude.{◌≡◌, [], ◌∷◌, ◌++◌, IfOk};

use mc_base::{List, NoMemory, Refusal, Text};
use mc_catalog::Catalog;
use mc_charset::{Charset, CollId, charset_name};
use mc_coerce::{Operand, takes_part};
use std::alloc::Global;

/// A text of these parts.
fn joined(alloc: Global, before: &[u8], name: &[u8], behind: &[u8]) -> Result<Text, NoMemory>
    ensures { IfOk result (λ text. text ≡ before.now ++ (name.now ++ behind.now)) }
{
    let mut text = Text::from_slice(alloc, before)?;
    text.extend_from_slice(name)?;
    text.extend_from_slice(behind)?;
    Ok(text)
}

/// A text of these five parts.
fn joined_five(
    alloc: Global,
    first: &[u8],
    name: &[u8],
    middle: &[u8],
    other: &[u8],
    last: &[u8],
) -> Result<Text, NoMemory>
    ensures { IfOk result (λ text.
        text ≡ first.now ++ (name.now ++ (middle.now ++ (other.now ++ last.now)))) }
{
    let mut text = Text::from_slice(alloc, first)?;
    text.extend_from_slice(name)?;
    text.extend_from_slice(middle)?;
    text.extend_from_slice(other)?;
    text.extend_from_slice(last)?;
    Ok(text)
}

/// No table has this name.
pub(crate) fn no_table(alloc: Global, name: &[u8]) -> Result<Refusal, NoMemory>
    ensures { IfOk result (λ refusal. refusal ≡ no_table name.now) }
{
    let text = joined(alloc, b"Table '", name, b"' doesn't exist")?;
    Ok(Refusal { number: 1146, text })
}

/// No column has this name, or its table isn't the statement's.
pub(crate) fn no_column(alloc: Global, name: &[u8]) -> Result<Refusal, NoMemory>
    ensures { IfOk result (λ refusal. refusal ≡ no_column name.now) }
{
    let text = joined(alloc, b"Unknown column '", name, b"'")?;
    Ok(Refusal { number: 1054, text })
}

/// No expression that rows are grouped by is the column of this name, or has it.
pub(crate) fn not_grouped(alloc: Global, name: &[u8]) -> Result<Refusal, NoMemory>
    ensures { IfOk result (λ refusal. refusal ≡ not_grouped name.now) }
{
    let text = joined(alloc, b"Column '", name, b"' is not grouped")?;
    Ok(Refusal { number: 1055, text })
}

/// No set has this name.
pub(crate) fn no_set(alloc: Global, name: &[u8]) -> Result<Refusal, NoMemory>
    ensures { IfOk result (λ refusal. refusal ≡ no_set name.now) }
{
    let text = joined(alloc, b"Unknown character set: '", name, b"'")?;
    Ok(Refusal { number: 1115, text })
}

/// No collation has this name.
pub(crate) fn no_collation(alloc: Global, name: &[u8]) -> Result<Refusal, NoMemory>
    ensures { IfOk result (λ refusal. refusal ≡ no_collation name.now) }
{
    let text = joined(alloc, b"Unknown collation: '", name, b"'")?;
    Ok(Refusal { number: 1273, text })
}

/// The collation of this name has another set than the text.
pub(crate) fn other_set(alloc: Global, name: &[u8], set: Charset) -> Result<Refusal, NoMemory>
    ensures { IfOk result (λ refusal. refusal ≡ other_set name.now set) }
{
    other_set_named(alloc, name, charset_name(set).as_bytes())
}

fn other_set_named(alloc: Global, name: &[u8], set: &[u8]) -> Result<Refusal, NoMemory>
    ensures { IfOk result (λ refusal. refusal ≡ other_set_named name.now set.now) }
{
    let text = joined_five(
        alloc,
        b"COLLATION '",
        name,
        b"' is not valid for CHARACTER SET '",
        set,
        b"'",
    )?;
    Ok(Refusal { number: 1253, text })
}

/// The bytes behind an introducer are no text of its set.
pub(crate) fn bad_string(alloc: Global, set: Charset) -> Result<Refusal, NoMemory>
    ensures { IfOk result (λ refusal. refusal ≡ bad_string set) }
{
    let text = joined(
        alloc,
        b"Invalid ",
        charset_name(set).as_bytes(),
        b" character string",
    )?;
    Ok(Refusal { number: 1300, text })
}

/// No function has this name.
pub(crate) fn no_function(alloc: Global, name: &[u8]) -> Result<Refusal, NoMemory>
    ensures { IfOk result (λ refusal. refusal ≡ no_function name.now) }
{
    let text = joined(alloc, b"FUNCTION ", name, b" does not exist")?;
    Ok(Refusal { number: 1305, text })
}

/// The function of this name takes another number of arguments.
pub(crate) fn wrong_count(alloc: Global, name: &[u8]) -> Result<Refusal, NoMemory>
    ensures { IfOk result (λ refusal. refusal ≡ wrong_count name.now) }
{
    let text = joined(
        alloc,
        b"Incorrect parameter count in the call to native function '",
        name,
        b"'",
    )?;
    Ok(Refusal { number: 1582, text })
}

/// An argument of this operation has a kind that it doesn't take.
pub(crate) fn wrong_argument(alloc: Global, op: &[u8]) -> Result<Refusal, NoMemory>
    ensures { IfOk result (λ refusal. refusal ≡ wrong_argument op.now) }
{
    let text = joined(alloc, b"wrong argument for '", op, b"'")?;
    Ok(Refusal { number: 9002, text })
}

/// The word for a level of coercibility; NULL has none.
fn level_word(level: u8) -> &'static [u8]
    ensures { result.now ≡ level_word level }
{
    match level {
        0 => b"EXPLICIT",
        1 => b"NONE",
        2 => b"IMPLICIT",
        3 => b"SYSCONST",
        4 => b"COERCIBLE",
        5 => b"NUMERIC",
        _ => b"",
    }
}

/// The name of a collation of the catalog.
pub(crate) fn collation_name(c: &Catalog, id: CollId) -> &[u8]
    ensures { result.now ≡ collation_name c.now id.0 }
{
    match c.collations.as_slice().get(id.0 as usize) {
        Some(collation) => collation.name.as_slice(),
        None => b"",
    }
}

/// An operand in a message: its collation, and the word for its level.
fn shown_operand(alloc: Global, c: &Catalog, a: &Operand) -> Result<Text, NoMemory>
    ensures { IfOk result (λ text. text ≡ shown_operand c.now a.now) }
{
    joined_five(
        alloc,
        b"(",
        collation_name(c, a.collation),
        b",",
        level_word(a.level),
        b")",
    )
}

/// The operation at the end of such a message.
fn operation_end(alloc: Global, op: &[u8]) -> Result<Text, NoMemory>
    ensures { IfOk result (λ text. text ≡ operation_end op.now) }
{
    joined(alloc, b" for operation '", op, b"'")
}

fn mix_of_two(
    alloc: Global,
    c: &Catalog,
    op: &[u8],
    a: &Operand,
    b: &Operand,
) -> Result<Refusal, NoMemory>
    ensures { IfOk result (λ refusal. refusal ≡ mix_of c.now op.now (a.now ∷ b.now ∷ [])) }
{
    let text = joined_five(
        alloc,
        b"Illegal mix of collations ",
        shown_operand(alloc, c, a)?.as_slice(),
        b" and ",
        shown_operand(alloc, c, b)?.as_slice(),
        operation_end(alloc, op)?.as_slice(),
    )?;
    Ok(Refusal { number: 1267, text })
}

fn mix_of_three(
    alloc: Global,
    c: &Catalog,
    op: &[u8],
    a: &Operand,
    b: &Operand,
    d: &Operand,
) -> Result<Refusal, NoMemory>
    ensures { IfOk result (λ refusal.
        refusal ≡ mix_of c.now op.now (a.now ∷ b.now ∷ d.now ∷ [])) }
{
    let last = joined(
        alloc,
        b", ",
        shown_operand(alloc, c, d)?.as_slice(),
        operation_end(alloc, op)?.as_slice(),
    )?;
    let text = joined_five(
        alloc,
        b"Illegal mix of collations ",
        shown_operand(alloc, c, a)?.as_slice(),
        b", ",
        shown_operand(alloc, c, b)?.as_slice(),
        last.as_slice(),
    )?;
    Ok(Refusal { number: 1270, text })
}

/// The operands that take part.
fn counted(alloc: Global, operands: &[Operand]) -> Result<List<Operand>, NoMemory>
    ensures { IfOk result (λ list. list ≡ counted operands.now) }
{
    let mut list = List::new(alloc);
    for operand in operands {
        if takes_part(operand) {
            list.push(*operand)?;
        }
    }
    Ok(list)
}

/// The operands have no collation together in this operation. Those of NULLs are left out.
pub(crate) fn mix(
    alloc: Global,
    c: &Catalog,
    op: &[u8],
    operands: &[Operand],
) -> Result<Refusal, NoMemory>
    ensures { IfOk result (λ refusal. refusal ≡ mix c.now op.now operands.now) }
{
    let list = counted(alloc, operands)?;
    match list.as_slice() {
        [a, b] => mix_of_two(alloc, c, op, a, b),
        [a, b, d] => mix_of_three(alloc, c, op, a, b, d),
        _ => mix_of_more(alloc, op),
    }
}

fn mix_of_more(alloc: Global, op: &[u8]) -> Result<Refusal, NoMemory>
    ensures { IfOk result (λ refusal.
        refusal ≡ naming 1271 "Illegal mix of collations for operation '" op.now "'") }
{
    let text = joined(
        alloc,
        b"Illegal mix of collations for operation '",
        op,
        b"'",
    )?;
    Ok(Refusal { number: 1271, text })
}
