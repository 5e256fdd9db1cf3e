ghost use Rattle.std.specs.Prelude.{◌≡◌, ◌<◌, length, position, MatchOption, IfSome};
ghost use Rattle.mc_table8.specs.Fields.{is_dot, number_of, behind_dots, parts_of, both, range_of};
ghost use Rattle.mc_table8.specs.Fields.{number_or_range, field_of};

use mc_base::hex_number;

/// A field of a line of weights, by its kind.
#[derive(Clone, Copy)]
pub(crate) enum Field {
    /// `default`
    DefaultWord,
    /// `=`
    Equals,
    /// `@`
    AtSign,
    /// A hexadecimal number.
    Number(u32),
    /// Two hexadecimal numbers with two dots between them, as in `61..7A`.
    Range(u32, u32),
    /// Anything else.
    Other,
}

/// The kind of a field in a file whose numbers have at most this many digits.
pub(crate) fn kind_of(bytes: &[u8], digits: usize) -> Field
    ensures { result ≡ field_of digits bytes.now }
{
    if bytes == b"default".as_slice() {
        Field::DefaultWord
    } else if bytes == b"=".as_slice() {
        Field::Equals
    } else if bytes == b"@".as_slice() {
        Field::AtSign
    } else {
        number_or_range(bytes, digits)
    }
}

/// The number or range that a field is, if it is one.
fn number_or_range(bytes: &[u8], digits: usize) -> Field
    ensures { result ≡ number_or_range digits bytes.now }
{
    if let Some(number) = number(bytes, digits) {
        return Field::Number(number);
    }
    match range(bytes, digits) {
        Some((first, last)) => Field::Range(first, last),
        None => Field::Other,
    }
}

/// The number of at most this many hexadecimal digits; None where the bytes are something else.
fn number(bytes: &[u8], digits: usize) -> Option<u32>
    ensures { result ≡ number_of digits bytes.now }
{
    if bytes.len() > digits {
        return None;
    }
    hex_number(bytes)
}

/// The ends of a range; None where the bytes are something else.
fn range(bytes: &[u8], digits: usize) -> Option<(u32, u32)>
    ensures { result ≡ range_of digits bytes.now }
{
    let (first, last) = parts(bytes)?;
    both(number(first, digits), number(last, digits))
}

/// Two numbers, where both are there.
fn both(first: Option<u32>, last: Option<u32>) -> Option<(u32, u32)>
    ensures { result ≡ both first last }
{
    match (first, last) {
        (Some(first), Some(last)) => Some((first, last)),
        _ => None,
    }
}

/// What stands before the first dot, and behind it and a second one.
fn parts(bytes: &[u8]) -> Option<(&[u8], &[u8])>
    ensures { MatchOption result (parts_of bytes.now ≡ None)
        (λ parts. parts_of bytes.now ≡ Some (parts.0.now, parts.1.now)) }
{
    let dot = first_dot(bytes)?;
    let last = behind_dots(&bytes[dot..])?;
    Some((&bytes[..dot], last))
}

/// The place of the first dot.
fn first_dot(bytes: &[u8]) -> Option<usize>
    ensures place { result ≡ position is_dot bytes.now }
    ensures within { IfSome result (λ dot. dot < length bytes.now) }
{
    bytes.iter().position(|byte| *byte == b'.')
}

/// What stands behind the two dots that the bytes begin with.
fn behind_dots(bytes: &[u8]) -> Option<&[u8]>
    ensures { MatchOption result (behind_dots bytes.now ≡ None)
        (λ rest. behind_dots bytes.now ≡ Some rest.now) }
{
    match bytes {
        [b'.', b'.', rest @ ..] => Some(rest),
        _ => None,
    }
}
