ghost use Rattle.std.specs.Prelude.{
  ◌≡◌,
  ◌+◌,
  ◌≤◌,
  ◌<◌,
  ◌==◌,
  ◌||◌,
  option_map,
  drop,
  length,
  slice_index,
  true,
  IfSome,
  IsTrue,
};
ghost use Rattle.std.specs.Char.{is_ascii_digit};
ghost use Rattle.mc_token.specs.Bytes.{
  begins_word,
  continues_word,
  is_letter_n,
  is_letter_x,
  single_quote,
  double_quote,
};
ghost use Rattle.mc_token.specs.Elements.{quote_end};
ghost use Rattle.mc_token.specs.Spellings.{
  least_len,
  word_len,
  opens_single,
  string_spelling,
  hex_string_spelling,
  hex_number_spelling,
  opens_hex,
  int_spelling,
  number_spelling,
  closes_name,
  name_spelling,
  mark_spelling,
  other_spelling,
  letter_spelling,
  spelling_of,
};

use crate::Symbol;
use crate::element::quote_end;
use crate::hexadecimal::digits_len;
use crate::mark::{begins_with, mark_len, mark_of};
use crate::number::{decimals_len, int_of};

/// How the bytes of a token are to be read.
#[derive(Clone, Copy, Debug)]
pub enum Shape {
    /// A word.
    Word,
    /// A name, both backquotes included.
    Name,
    /// The digits of this number.
    Int(i64),
    /// A string, both quotes included.
    Str,
    /// A string with `N` before it.
    National,
    /// `X` and hexadecimal digits in quotes.
    HexString,
    /// `0x` and hexadecimal digits.
    HexNumber,
    /// A mark or an operator.
    Sym(Symbol),
}

/// How a token is spelled, and in how many bytes.
#[derive(Clone, Copy, Debug)]
pub struct Spelling {
    pub shape: Shape,
    pub len: usize,
}

/// The greatest number of bytes of a name.
const NAME_LIMIT: usize = 64;

/// The longest spelling that these bytes begin with. None where no token begins, or one that isn't
/// closed.
#[tactic(auto, unfolding(crate::specs::Spellings::spelling_of))]
pub fn spelling_of(bytes: &[u8]) -> Option<Spelling>
    requires { 0 < length bytes.now }
    ensures value { result ≡ spelling_of (slice_index bytes.now 0) (drop 1 bytes.now) }
    ensures not_empty { IfSome result (λ spelling. 0 < spelling.len) }
    ensures long_enough { IfSome result (λ spelling. least_len spelling.shape ≤ spelling.len) }
    ensures within { IfSome result (λ spelling. spelling.len ≤ length bytes.now) }
{
    let first = bytes[0];
    let behind = &bytes[1..];
    if begins_word(first) {
        letter_spelling(first, behind)
    } else if is_quote(first) {
        string_spelling(Shape::Str, 1, quote_end(first, behind), behind)
    } else {
        other_spelling(bytes)
    }
}

/// The spelling that this letter or `_` begins, where these bytes are behind it.
fn letter_spelling(first: u8, behind: &[u8]) -> Option<Spelling>
    ensures value { result ≡ letter_spelling first behind.now }
    ensures long_enough { IfSome result (λ spelling. least_len spelling.shape ≤ spelling.len) }
    ensures within { IfSome result (λ spelling. spelling.len ≤ 1 + length behind.now) }
{
    if is_letter_n(first) && opens_single(behind) {
        national_spelling(&behind[1..])
    } else if is_letter_x(first) && opens_single(behind) {
        hex_string_spelling(&behind[1..])
    } else {
        Some(Spelling {
            shape: Shape::Word,
            len: 1 + word_len(behind),
        })
    }
}

/// The spelling of a number, a name or a mark that these bytes begin with.
fn other_spelling(bytes: &[u8]) -> Option<Spelling>
    requires { 0 < length bytes.now }
    ensures value { result ≡ other_spelling (slice_index bytes.now 0) (drop 1 bytes.now) }
    ensures long_enough { IfSome result (λ spelling. least_len spelling.shape ≤ spelling.len) }
    ensures within { IfSome result (λ spelling. spelling.len ≤ length bytes.now) }
{
    if bytes[0].is_ascii_digit() {
        number_spelling(bytes)
    } else if bytes[0] == b'`' {
        name_spelling(&bytes[1..])
    } else {
        mark_spelling(bytes[0], &bytes[1..])
    }
}

/// The spelling of a string with `N` before it, by the bytes behind its first quote.
fn national_spelling(behind: &[u8]) -> Option<Spelling>
    ensures value { result
        ≡ string_spelling Shape.National 2 (quote_end single_quote 0 behind.now) }
    ensures long_enough { IfSome result (λ spelling. least_len spelling.shape ≤ spelling.len) }
    ensures within { IfSome result (λ spelling. spelling.len ≤ 2 + length behind.now) }
{
    string_spelling(Shape::National, 2, quote_end(b'\'', behind), behind)
}

/// The spelling of a string whose first quote ends behind so many bytes, and that ends at this
/// place of the bytes behind it, where it is closed.
fn string_spelling(
    shape: Shape,
    before: usize,
    end: Option<usize>,
    behind: &[u8],
) -> Option<Spelling>
    requires shape { least_len shape ≡ before + 1 }
    requires few { before ≤ 2 }
    requires not_empty { IfSome end (λ e. 0 < e) }
    requires within { IfSome end (λ e. e ≤ length behind.now) }
    ensures value { result ≡ string_spelling shape before end }
    ensures long_enough { IfSome result (λ spelling. least_len spelling.shape ≤ spelling.len) }
    ensures within { IfSome result (λ spelling. spelling.len ≤ before + length behind.now) }
{
    match end {
        Some(end) => Some(Spelling {
            shape,
            len: before + end,
        }),
        None => None,
    }
}

/// The spelling of `X'..'`, by the bytes behind its first quote.
fn hex_string_spelling(bytes: &[u8]) -> Option<Spelling>
    ensures value { result ≡ hex_string_spelling bytes.now }
    ensures long_enough { IfSome result (λ spelling. least_len spelling.shape ≤ spelling.len) }
    ensures within { IfSome result (λ spelling. spelling.len ≤ 2 + length bytes.now) }
{
    let digits = digits_len(bytes);
    if digits % 2 == 0 && digits < bytes.len() && bytes[digits] == b'\'' {
        Some(Spelling {
            shape: Shape::HexString,
            len: 3 + digits,
        })
    } else {
        None
    }
}

/// The spelling of `0x..`, by the bytes behind the x.
fn hex_number_spelling(bytes: &[u8]) -> Option<Spelling>
    ensures value { result ≡ hex_number_spelling bytes.now }
    ensures long_enough { IfSome result (λ spelling. least_len spelling.shape ≤ spelling.len) }
    ensures within { IfSome result (λ spelling. spelling.len ≤ 2 + length bytes.now) }
{
    let digits = digits_len(bytes);
    if digits == 0 || goes_on(bytes, digits) {
        return None;
    }
    Some(Spelling {
        shape: Shape::HexNumber,
        len: 2 + digits,
    })
}

/// The spelling of the number whose first digit these bytes begin with.
fn number_spelling(bytes: &[u8]) -> Option<Spelling>
    requires not_empty { 0 < length bytes.now }
    requires digit { is_ascii_digit (slice_index bytes.now 0) ≡ true }
    ensures value { result ≡ number_spelling (slice_index bytes.now 0) (drop 1 bytes.now) }
    ensures long_enough { IfSome result (λ spelling. least_len spelling.shape ≤ spelling.len) }
    ensures within { IfSome result (λ spelling. spelling.len ≤ length bytes.now) }
{
    let behind = &bytes[1..];
    if bytes[0] == b'0' && opens_hex(behind) {
        hex_number_spelling(&behind[1..])
    } else {
        int_spelling(bytes)
    }
}

/// The spelling of the whole number whose first digit these bytes begin with.
fn int_spelling(bytes: &[u8]) -> Option<Spelling>
    requires not_empty { 0 < length bytes.now }
    requires digit { is_ascii_digit (slice_index bytes.now 0) ≡ true }
    ensures value { result ≡ int_spelling (slice_index bytes.now 0) (drop 1 bytes.now) }
    ensures long_enough { IfSome result (λ spelling. least_len spelling.shape ≤ spelling.len) }
    ensures within { IfSome result (λ spelling. spelling.len ≤ length bytes.now) }
{
    let behind = &bytes[1..];
    let others = decimals_len(behind);
    if goes_on(behind, others) {
        return None;
    }
    number_of_len(int_of(&bytes[..1 + others]), 1 + others)
}

/// The spelling of a number, where there is one, in so many bytes.
fn number_of_len(number: Option<i64>, len: usize) -> Option<Spelling>
    ensures value { result ≡ option_map (λ n. record { shape = Shape.Int n; len = len }) number }
    ensures shape { IfSome result (λ spelling. least_len spelling.shape ≡ 1) }
    ensures len { IfSome result (λ spelling. spelling.len ≡ len) }
{
    match number {
        Some(number) => Some(Spelling {
            shape: Shape::Int(number),
            len,
        }),
        None => None,
    }
}

/// The spelling of a name between backquotes, by the bytes behind the first.
fn name_spelling(behind: &[u8]) -> Option<Spelling>
    ensures value { result ≡ name_spelling behind.now }
    ensures long_enough { IfSome result (λ spelling. least_len spelling.shape ≤ spelling.len) }
    ensures within { IfSome result (λ spelling. spelling.len ≤ 1 + length behind.now) }
{
    let len = word_len(behind);
    if closes_name(len, behind) {
        Some(Spelling {
            shape: Shape::Name,
            len: 2 + len,
        })
    } else {
        None
    }
}

/// Whether so many bytes are a name, and a backquote is behind them.
fn closes_name(len: usize, behind: &[u8]) -> bool
    requires { len ≤ length behind.now }
    ensures value { result ≡ closes_name len behind.now }
    ensures within { IsTrue result → len < length behind.now }
    ensures not_empty { IsTrue result → 0 < len }
{
    0 < len
        && len <= NAME_LIMIT
        && len < behind.len()
        && !behind[0].is_ascii_digit()
        && behind[len] == b'`'
}

/// The spelling of the mark that this byte begins, where these bytes are behind it.
fn mark_spelling(first: u8, behind: &[u8]) -> Option<Spelling>
    ensures value { result ≡ mark_spelling first behind.now }
    ensures long_enough { IfSome result (λ spelling. least_len spelling.shape ≤ spelling.len) }
    ensures within { IfSome result (λ spelling. spelling.len ≤ 1 + length behind.now) }
{
    match mark_of(first, behind) {
        Some(symbol) => Some(Spelling {
            shape: Shape::Sym(symbol),
            len: mark_len(symbol),
        }),
        None => None,
    }
}

/// Whether the byte is `N` or `n`.
fn is_letter_n(byte: u8) -> bool
    ensures { result ≡ is_letter_n byte }
{
    byte == b'N' || byte == b'n'
}

/// Whether the byte is `X` or `x`.
fn is_letter_x(byte: u8) -> bool
    ensures { result ≡ is_letter_x byte }
{
    byte == b'X' || byte == b'x'
}

/// Whether the byte is `'` or `"`.
fn is_quote(byte: u8) -> bool
    ensures { result ≡ (byte == single_quote || byte == double_quote) }
{
    byte == b'\'' || byte == b'"'
}

/// Whether the bytes begin with a single quote.
fn opens_single(bytes: &[u8]) -> bool
    ensures value { result ≡ opens_single bytes.now }
    ensures not_empty { IsTrue result → 0 < length bytes.now }
{
    begins_with(b'\'', bytes)
}

/// Whether the bytes begin with an `x`.
fn opens_hex(bytes: &[u8]) -> bool
    ensures value { result ≡ opens_hex bytes.now }
    ensures not_empty { IsTrue result → 0 < length bytes.now }
{
    begins_with(b'x', bytes)
}

/// Whether the byte at this place, where there is one, goes on with a word.
fn goes_on(bytes: &[u8], at: usize) -> bool
    ensures { result ≡ continues_word (slice_index bytes.now at) }
{
    at < bytes.len() && continues_word(bytes[at])
}

/// Whether the byte is a letter or `_`.
fn begins_word(byte: u8) -> bool
    ensures { result ≡ begins_word byte }
{
    byte.is_ascii_alphabetic() || byte == b'_'
}

/// Whether the byte is a letter, a digit, `_` or `$`.
fn continues_word(byte: u8) -> bool
    ensures { result ≡ continues_word byte }
{
    byte.is_ascii_alphanumeric() || byte == b'_' || byte == b'$'
}

/// How many bytes go on with a word.
fn word_len(bytes: &[u8]) -> usize
    ensures value { result ≡ word_len bytes.now }
    ensures within { result ≤ length bytes.now }
{
    bytes
        .iter()
        .position(|byte| !continues_word(*byte))
        .unwrap_or(bytes.len())
}
