ghost use Rattle.std.specs.Prelude.{◌≡◌, ◌≤◌, ◌<◌, ℕ, List as ListOf, ⊤, true, false, length};
ghost use Rattle.std.specs.Prelude.{nat_lt, nat_eq, slice_index, IfOk};
ghost use Rattle.std.specs.List.{list_any, list_all, starts_with};
ghost use Rattle.mc_allkeys.specs.Kinds.{IsSound, listed_kind};
ghost use Rattle.mc_allkeys.specs.RangeLine.{range_word};
ghost use Rattle.mc_allkeys.specs.Said.{said_of, said_by, at_line, listing, is_surrogate};

use crate::codes::read_codes;
use crate::cut::cut;
use crate::element::Element;
use crate::elements::read_elements;
use crate::range::Range;
use crate::range_line::range_line;
use mc_base::{List, NoMemory, Weights};

/// What kind of line it is. The text and the elements of a listed one stand beside it.
#[derive(Clone, Copy)]
pub(crate) enum Kind {
    /// A line of no form.
    Bad,
    /// A line that says nothing here, as `@version 9.0.0`.
    Skipped,
    /// A line that lists a text with a surrogate code point; it makes no entry.
    Surrogate,
    /// A range of implicit weights.
    Ranged(Range),
    /// A text and its elements.
    Listed,
}

/// Reads what a line says. The code points and the elements of a listed text go into the two lists.
#[tactic(auto, unfolding(crate::specs::Said::said_of))]
pub(crate) fn read_line(
    body: &[u8],
    codes: &mut Weights,
    elements: &mut List<Element>,
) -> Result<Kind, NoMemory>
    ensures said { IfOk result (λ kind. said_of body.now ≡ said_by kind codes.new elements.new) }
    ensures sound { IfOk result (λ kind. IsSound kind codes.new) }
{
    match body {
        [b'@', ..] => Ok(at_line(body)),
        _ => read_listing(body, codes, elements),
    }
}

/// Reads a line with `@` at its start.
fn at_line(body: &[u8]) -> Kind
    ensures said { (codes : ListOf ℕ) (elements : ListOf Element) →
        at_line body.now ≡ said_by result codes elements }
    ensures sound { (codes : ListOf ℕ) → IsSound result codes }
{
    if body.starts_with(b"@implicitweights".as_slice()) {
        return match range_line(body) {
            Some(range) => Kind::Ranged(range),
            None => Kind::Bad,
        };
    }
    if is_ascii(body) {
        Kind::Skipped
    } else {
        Kind::Bad
    }
}

/// Whether each byte is below 80.
fn is_ascii(text: &[u8]) -> bool
    ensures { result ≡ list_all (λ byte. nat_lt byte 128) text.now }
{
    text.iter().all(|byte| *byte < 128)
}

/// Reads a line of a text, `;` and its elements.
fn read_listing(
    body: &[u8],
    codes: &mut Weights,
    elements: &mut List<Element>,
) -> Result<Kind, NoMemory>
    ensures said { IfOk result (λ kind. listing body.now ≡ said_by kind codes.new elements.new) }
    ensures sound { IfOk result (λ kind. IsSound kind codes.new) }
{
    let Some((left, right)) = cut(body, b';') else {
        return Ok(Kind::Bad);
    };
    let has_codes = read_codes(left, codes)?;
    let has_elements = read_elements(right, elements)?;
    if !has_codes || !has_elements {
        return Ok(Kind::Bad);
    }
    Ok(listed_kind(codes.as_slice(), elements.as_slice()))
}

/// The kind of a line with this text and these elements.
fn listed_kind(codes: &[u32], elements: &[Element]) -> Kind
    ensures { result ≡ listed_kind codes.now elements.now }
{
    if codes.is_empty() || elements.is_empty() {
        Kind::Bad
    } else if has_surrogate(codes) {
        Kind::Surrogate
    } else {
        Kind::Listed
    }
}

/// Whether a text has a surrogate code point.
fn has_surrogate(codes: &[u32]) -> bool
    ensures { result ≡ list_any is_surrogate codes.now }
{
    codes.iter().any(|code| 0xD800 <= *code && *code <= 0xDFFF)
}
