ghost use Rattle.mc_typing.specs.Aggregates.{is_aggregate, shows_type};
ghost use Rattle.mc_typing.specs.Functions.{
  callee_of,
  listed,
  other_functions,
  special_functions,
  takes,
  takes_text,
  text_functions,
  trim_of,
  turns_to_text,
};
ghost use Rattle.mc_typing.specs.declared.callee.Callee.TheVariants.{Of};
ghost use Rattle.std.specs.Prelude.{◌≡◌};
ghost use Rattle.std.specs.Str.{bytes_eq};

use crate::typed::{AggName, Func};
use mc_ast::TrimSide;

/// What a name calls.
#[derive(Clone, Copy)]
pub(crate) enum Callee {
    /// A function of values.
    Of(Func),
    Charset,
    Collation,
    Coercibility,
    Version,
    /// WEIGHT_STRING, whose right calls are no calls by name.
    Weights,
    Aggregate(AggName),
}

/// What takes texts at each place.
pub(crate) const TEXTS: Option<Callee> = Some(Callee::Of(Func::Concat));

/// The function of this name, which is in lower case.
#[tactic(auto, unfolding(crate::specs::Functions::callee_of))]
pub(crate) fn callee_of(name: &[u8]) -> Option<Callee>
    ensures { result ≡ callee_of name.now }
{
    match text_function(name) {
        Some(callee) => Some(callee),
        None => match other_function(name) {
            Some(callee) => Some(callee),
            None => special_function(name),
        },
    }
}

/// Whether it is an aggregate.
pub(crate) fn is_aggregate(callee: Option<Callee>) -> bool
    ensures { result ≡ is_aggregate callee }
{
    matches!(callee, Some(Callee::Aggregate(_)))
}

/// Whether it shows the type of its argument alone.
pub(crate) fn shows_type(callee: Option<Callee>) -> bool
    ensures { result ≡ shows_type callee }
{
    matches!(
        callee,
        Some(Callee::Charset | Callee::Collation | Callee::Coercibility)
    )
}

/// Whether it is this name.
fn is_named(name: &[u8], word: &[u8]) -> bool
    ensures { result ≡ bytes_eq name.now word.now }
{
    name == word
}

fn text_function(name: &[u8]) -> Option<Callee>
    ensures { result ≡ listed text_functions name.now }
{
    if is_named(name, b"concat") {
        Some(Callee::Of(Func::Concat))
    } else if is_named(name, b"concat_ws") {
        Some(Callee::Of(Func::ConcatWs))
    } else if is_named(name, b"substring") || is_named(name, b"substr") {
        Some(Callee::Of(Func::Substring))
    } else if is_named(name, b"left") {
        Some(Callee::Of(Func::Left))
    } else if is_named(name, b"right") {
        Some(Callee::Of(Func::Right))
    } else if is_named(name, b"trim") {
        Some(Callee::Of(Func::TrimBoth))
    } else if is_named(name, b"lpad") {
        Some(Callee::Of(Func::Lpad))
    } else if is_named(name, b"rpad") {
        Some(Callee::Of(Func::Rpad))
    } else if is_named(name, b"repeat") {
        Some(Callee::Of(Func::Repeat))
    } else if is_named(name, b"reverse") {
        Some(Callee::Of(Func::Reverse))
    } else if is_named(name, b"replace") {
        Some(Callee::Of(Func::Replace))
    } else {
        None
    }
}

fn other_function(name: &[u8]) -> Option<Callee>
    ensures { result ≡ listed other_functions name.now }
{
    if is_named(name, b"char_length") {
        Some(Callee::Of(Func::CharLength))
    } else if is_named(name, b"length") {
        Some(Callee::Of(Func::Length))
    } else if is_named(name, b"hex") {
        Some(Callee::Of(Func::Hex))
    } else if is_named(name, b"strcmp") {
        Some(Callee::Of(Func::Strcmp))
    } else if is_named(name, b"mod") {
        Some(Callee::Of(Func::Mod))
    } else {
        None
    }
}

fn special_function(name: &[u8]) -> Option<Callee>
    ensures { result ≡ listed special_functions name.now }
{
    if is_named(name, b"charset") {
        Some(Callee::Charset)
    } else if is_named(name, b"collation") {
        Some(Callee::Collation)
    } else if is_named(name, b"coercibility") {
        Some(Callee::Coercibility)
    } else if is_named(name, b"version") {
        Some(Callee::Version)
    } else if is_named(name, b"weight_string") {
        Some(Callee::Weights)
    } else if is_named(name, b"count") {
        Some(Callee::Aggregate(AggName::Count))
    } else if is_named(name, b"min") {
        Some(Callee::Aggregate(AggName::Min))
    } else if is_named(name, b"max") {
        Some(Callee::Aggregate(AggName::Max))
    } else if is_named(name, b"sum") {
        Some(Callee::Aggregate(AggName::Sum))
    } else {
        None
    }
}

/// TRIM by its side.
pub(crate) fn trim_of(side: TrimSide) -> Func
    ensures { result ≡ trim_of side }
{
    match side {
        TrimSide::Both => Func::TrimBoth,
        TrimSide::Leading => Func::TrimLeading,
        TrimSide::Trailing => Func::TrimTrailing,
    }
}

/// Whether it takes so many arguments.
pub(crate) fn takes(callee: Callee, count: usize) -> bool
    ensures { result ≡ takes callee count }
{
    match callee {
        Callee::Of(function) => function_takes(function, count),
        Callee::Version => count == 0,
        Callee::Weights => false,
        Callee::Charset | Callee::Collation | Callee::Coercibility | Callee::Aggregate(_) => {
            count == 1
        }
    }
}

fn function_takes(function: Func, count: usize) -> bool
    ensures { result ≡ takes (Of function) count }
{
    match function {
        Func::Concat => 1 <= count,
        Func::ConcatWs => 2 <= count,
        Func::Substring => 2 <= count && count <= 3,
        Func::Left | Func::Right | Func::Repeat | Func::Strcmp | Func::Mod => count == 2,
        Func::Lpad | Func::Rpad | Func::Replace => count == 3,
        Func::CharLength
        | Func::Length
        | Func::Hex
        | Func::TrimBoth
        | Func::TrimLeading
        | Func::TrimTrailing
        | Func::Reverse => count == 1,
    }
}

/// Whether a text may stand at this place among the arguments.
pub(crate) fn takes_text(function: Func, place: usize) -> bool
    ensures { result ≡ takes_text function place }
{
    match function {
        Func::Substring | Func::Left | Func::Right | Func::Repeat => place == 0,
        Func::Lpad | Func::Rpad => place != 1,
        Func::Mod => false,
        Func::Concat
        | Func::ConcatWs
        | Func::CharLength
        | Func::Length
        | Func::Hex
        | Func::TrimBoth
        | Func::TrimLeading
        | Func::TrimTrailing
        | Func::Reverse
        | Func::Replace
        | Func::Strcmp => true,
    }
}

/// Whether a number at this place is taken for a text.
pub(crate) fn turns_to_text(callee: Option<Callee>, place: usize) -> bool
    ensures { result ≡ turns_to_text callee place }
{
    match callee {
        Some(Callee::Of(Func::Hex)) => false,
        Some(Callee::Of(function)) => takes_text(function, place),
        _ => false,
    }
}
