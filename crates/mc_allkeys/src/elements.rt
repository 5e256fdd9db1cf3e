ghost use Rattle.std.specs.Prelude.{◌≡◌, ◌∷◌, None, Some, true, false, IfSome, IfOk, MatchOption};
ghost use Rattle.std.specs.Bool.{OnTrue, OnFalse};
ghost use Rattle.std.specs.List.{list_all};
ghost use Rattle.mc_base.specs.Blanks.{is_blank, without_leading};
ghost use Rattle.mc_allkeys.specs.Cuts.{parts_at};
ghost use Rattle.mc_allkeys.specs.Listed.{element_at, element_of_parts, element_of_three};
ghost use Rattle.mc_allkeys.specs.Listed.{elements_of, weight_of};

use crate::codes::small_of;
use crate::cut::cut;
use crate::element::Element;
use mc_base::{List, NoMemory, hex_number};

/// Reads the elements that a text is, as `[.1C47.0020.0002]`, with blanks before and behind each;
/// whether it is nothing else.
pub(crate) fn read_elements(text: &[u8], elements: &mut List<Element>) -> Result<bool, NoMemory>
    ensures yes { IfOk result (λ all. OnTrue all (elements_of text.now ≡ Some elements.new)) }
    ensures no { IfOk result (λ all. OnFalse all (elements_of text.now ≡ None)) }
{
    elements.truncate(0);
    let mut rest = text;
    while let Some((part, behind)) = cut(rest, b']') {
        let Some(element) = element_at(without_leading(part)) else {
            return Ok(false);
        };
        elements.push(element)?;
        rest = behind;
    }
    Ok(is_all_blank(rest))
}

/// Whether a text is of blanks alone.
fn is_all_blank(text: &[u8]) -> bool
    ensures { result ≡ list_all is_blank text.now }
{
    text.iter().all(|byte| *byte == b' ' || *byte == b'\t')
}

/// The bytes without the blanks at their front.
fn without_leading(text: &[u8]) -> &[u8]
    ensures { result.now ≡ without_leading text.now }
{
    let mut rest = text;
    while let [b' ' | b'\t', behind @ ..] = rest {
        rest = behind;
    }
    rest
}

/// The element that stands before a `]`: `[`, `.` or `*`, and its numbers with dots between them.
fn element_at(part: &[u8]) -> Option<Element>
    ensures { result ≡ element_at part.now }
{
    match part {
        [b'[', b'.', numbers @ ..] => element_of_parts(numbers),
        [b'[', b'*', numbers @ ..] => element_of_parts(numbers),
        _ => None,
    }
}

/// The element of what stands between dots: three weights, and maybe a fourth number.
fn element_of_parts(numbers: &[u8]) -> Option<Element>
    ensures { result ≡ element_of_parts (parts_at 46 numbers.now) }
{
    let (first, rest) = cut(numbers, b'.')?;
    let (second, rest) = cut(rest, b'.')?;
    match cut(rest, b'.') {
        Some((third, fourth)) => element_of_four(first, second, third, fourth),
        None => element_of_three(first, second, rest),
    }
}

/// The element of three weights and a fourth number, which is dropped.
fn element_of_four(first: &[u8], second: &[u8], third: &[u8], fourth: &[u8]) -> Option<Element>
    ensures { result
        ≡ element_of_parts (first.now ∷ second.now ∷ third.now ∷ parts_at 46 fourth.now) }
{
    match cut(fourth, b'.') {
        Some(_) => None,
        None => {
            hex_number(fourth)?;
            element_of_three(first, second, third)
        }
    }
}

/// The element of three weights.
fn element_of_three(first: &[u8], second: &[u8], third: &[u8]) -> Option<Element>
    ensures { result ≡ element_of_three first.now second.now third.now }
{
    let p = weight_of(first)?;
    let s = weight_of(second)?;
    let t = weight_of(third)?;
    Some(Element { p, s, t })
}

/// The weight of one to four hexadecimal digits.
fn weight_of(digits: &[u8]) -> Option<u16>
    ensures { result ≡ weight_of digits.now }
{
    if digits.len() > 4 {
        return None;
    }
    small_of(digits)
}
