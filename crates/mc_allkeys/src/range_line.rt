ghost use Rattle.std.specs.Prelude.{◌≡◌, None, Some, MatchOption};
ghost use Rattle.mc_allkeys.specs.RangeLine.{range_word, before_semicolon, behind_dot, ends_of};
ghost use Rattle.mc_allkeys.specs.RangeLine.{span_of, range_by, range_line};

use crate::codes::{code_of, small_of};
use crate::cut::cut;
use crate::range::Range;
use mc_base::next_field;

/// The range that a line says, as `@implicitweights 17000..18AFF; FB00`.
pub(crate) fn range_line(body: &[u8]) -> Option<Range>
    ensures { result ≡ range_line body.now }
{
    let (word, rest) = next_field(body)?;
    let (span, rest) = next_field(rest)?;
    let (base, rest) = next_field(rest)?;
    if next_field(rest).is_some() || word != b"@implicitweights".as_slice() {
        return None;
    }
    range_by(span_of(span), small_of(base))
}

/// A range by its ends and its base.
fn range_by(span: Option<(u32, u32)>, base: Option<u16>) -> Option<Range>
    ensures { result ≡ range_by span base }
{
    let (first, last) = span?;
    let base = base?;
    Some(Range { first, last, base })
}

/// The ends of a field `C..D;`.
fn span_of(field: &[u8]) -> Option<(u32, u32)>
    ensures { result ≡ span_of field.now }
{
    let (first, rest) = cut(field, b'.')?;
    let last = behind_dot(rest)?;
    ends_of(first, last)
}

/// The code points from one to another one, which ends in `;`.
fn ends_of(first: &[u8], last: &[u8]) -> Option<(u32, u32)>
    ensures { result ≡ ends_of first.now last.now }
{
    let from = code_of(first)?;
    let digits = before_semicolon(last)?;
    let to = code_of(digits)?;
    Some((from, to))
}

/// What stands behind a dot.
fn behind_dot(text: &[u8]) -> Option<&[u8]>
    ensures { MatchOption result (behind_dot text.now ≡ None)
        (λ rest. behind_dot text.now ≡ Some rest.now) }
{
    match text {
        [b'.', rest @ ..] => Some(rest),
        _ => None,
    }
}

/// What stands before a `;` at the end.
fn before_semicolon(text: &[u8]) -> Option<&[u8]>
    ensures { MatchOption result (before_semicolon text.now ≡ None)
        (λ front. before_semicolon text.now ≡ Some front.now) }
{
    match text {
        [front @ .., b';'] => Some(front),
        _ => None,
    }
}
