ghost use Rattle.std.specs.Prelude.{
  ◌≡◌,
  ◌∷◌,
  ◌<◌,
  ◌≤◌,
  ◌+◌,
  ◌==◌,
  ◌&&◌,
  ◌||◌,
  false,
  not,
  nat_lt,
  drop,
  length,
  slice_index,
  IfSome,
  IsTrue,
};
ghost use Rattle.std.specs.List.{position_or_len};
ghost use Rattle.mc_token.specs.Bytes.{is_space, star, slash, backslash};
ghost use Rattle.mc_token.specs.Elements.{
  line_len,
  block_end,
  quote_end,
  is_dash_comment,
  is_block_comment,
  opens_line,
  opens_block,
  single,
  closed,
  element_of,
  elements,
};
ghost use Rattle.mc_token.specs.Statements.{is_end};
ghost use Rattle.mc_token.specs.Tokens.{blank_len};

/// What an element of a script is.
#[derive(Clone, Copy, Debug, PartialEq, Eq)]
pub enum Kind {
    /// One of the six spaces.
    Space,
    /// A closed comment.
    Comment,
    /// A string in quotes of either kind, both quotes included.
    Quoted,
    /// A quote or `/*` that is never closed, and all that follows it.
    Unclosed,
    /// The end of a statement.
    Semicolon,
    /// Any other byte.
    Other,
}

/// An element of a script, and how many bytes it has.
#[derive(Clone, Copy, Debug, PartialEq, Eq)]
pub struct Element {
    pub kind: Kind,
    pub len: usize,
}

/// The element at a place of the script.
#[tactic(auto, using(crate::proofs::Elements::elements_steps))]
pub fn element_at(script: &[u8], at: usize) -> Element
    requires { at < length script.now }
    ensures cut { elements (drop at script.now)
        ≡ result ∷ elements (drop (at + result.len) script.now) }
    ensures not_empty { 0 < result.len }
    ensures one_byte { IsTrue (is_end result.kind) → result.len ≡ 1 }
    ensures within { at + result.len ≤ length script.now }
{
    element_of(script[at], &script[at + 1..])
}

/// The element that this byte begins, where these bytes are behind it.
#[tactic(auto, unfolding(crate::specs::Elements::element_of))]
fn element_of(first: u8, behind: &[u8]) -> Element
    ensures value { result ≡ element_of first behind.now }
    ensures not_empty { 0 < result.len }
    ensures one_byte { IsTrue (is_end result.kind) → result.len ≡ 1 }
    ensures within { result.len ≤ 1 + length behind.now }
{
    if is_space(first) {
        single(Kind::Space)
    } else if first == b';' {
        single(Kind::Semicolon)
    } else if opens_line(first, behind) {
        Element {
            kind: Kind::Comment,
            len: 1 + line_len(behind),
        }
    } else if opens_block(first, behind) {
        closed(Kind::Comment, block_end(behind), behind)
    } else if first == b'\'' || first == b'"' {
        closed(Kind::Quoted, quote_end(first, behind), behind)
    } else {
        single(Kind::Other)
    }
}

/// How many bytes the space or the closed comment has that this byte begins, if it begins one.
// The branches of `element_of` that may be blank: by `element_of` a string would be scanned here,
// and once more for its token.
#[tactic(auto, using(crate::proofs::Blanks::blank_steps))]
pub fn blank_len(first: u8, behind: &[u8]) -> Option<usize>
    ensures value { result ≡ blank_len first behind.now }
    ensures not_empty { IfSome result (λ len. 0 < len) }
    ensures within { IfSome result (λ len. len ≤ 1 + length behind.now) }
{
    if is_space(first) {
        Some(1)
    } else if opens_line(first, behind) {
        Some(1 + line_len(behind))
    } else if opens_block(first, behind) {
        match block_end(behind) {
            Some(end) => Some(1 + end),
            None => None,
        }
    } else {
        None
    }
}

/// Whether a comment to the end of the line begins here.
fn opens_line(first: u8, behind: &[u8]) -> bool
    ensures { result ≡ opens_line first behind.now }
{
    first == b'#' || (first == b'-' && is_dash_comment(behind))
}

/// Whether a comment up to `*/` begins here.
fn opens_block(first: u8, behind: &[u8]) -> bool
    ensures { result ≡ opens_block first behind.now }
{
    first == b'/' && is_block_comment(behind)
}

/// Whether the byte is a space, TAB, LF, VT, FF or CR.
fn is_space(byte: u8) -> bool
    ensures { result ≡ is_space byte }
{
    byte == b' ' || (b'\t' <= byte && byte <= b'\r')
}

fn single(kind: Kind) -> Element
    ensures { result ≡ single kind }
{
    Element { kind, len: 1 }
}

/// An element that ends at this place of the bytes behind its first one, or is never closed.
fn closed(kind: Kind, end: Option<usize>, behind: &[u8]) -> Element
    requires no_end { is_end kind ≡ false }
    requires within { IfSome end (λ e. e ≤ length behind.now) }
    ensures value { result ≡ closed kind end behind.now }
    ensures not_empty { 0 < result.len }
    ensures no_end { is_end result.kind ≡ false }
    ensures within { result.len ≤ 1 + length behind.now }
{
    match end {
        Some(end) => Element { kind, len: 1 + end },
        None => Element {
            kind: Kind::Unclosed,
            len: 1 + behind.len(),
        },
    }
}

/// How many bytes stand before the next line feed, or before the end.
fn line_len(bytes: &[u8]) -> usize
    ensures value { result ≡ line_len bytes.now }
    ensures within { result ≤ length bytes.now }
{
    bytes
        .iter()
        .position(|byte| *byte == b'\n')
        .unwrap_or(bytes.len())
}

/// Whether a `-` before these bytes begins a comment.
fn is_dash_comment(behind: &[u8]) -> bool
    ensures { result ≡ is_dash_comment behind.now }
{
    !behind.is_empty() && behind[0] == b'-' && (behind.len() == 1 || is_space(behind[1]))
}

/// Whether a `/` before these bytes begins a comment.
fn is_block_comment(behind: &[u8]) -> bool
    ensures { result ≡ is_block_comment behind.now }
{
    !behind.is_empty() && behind[0] == b'*' && (behind.len() == 1 || behind[1] != b'!')
}

/// Where the first `*/` ends, the one behind the star that these bytes begin with.
#[tactic(auto, using(crate::proofs::Elements::block_end_steps))]
fn block_end(behind: &[u8]) -> Option<usize>
    ensures value { result ≡ block_end 1 (drop 1 behind.now) }
    ensures within { IfSome result (λ end. end ≤ length behind.now) }
{
    for at in 1..behind.len() {
        if ends_block(behind, at) {
            return Some(at + 2);
        }
    }
    None
}

/// Whether `*/` begins at this place.
fn ends_block(bytes: &[u8], at: usize) -> bool
    requires { at < length bytes.now }
    ensures value { result
        ≡ (slice_index bytes.now at == star && slice_index bytes.now (at + 1) == slash) }
    ensures within { IsTrue result → at + 1 < length bytes.now }
{
    bytes[at] == b'*' && at + 1 < bytes.len() && bytes[at + 1] == b'/'
}

/// Where a string ends whose quote stands before these bytes.
#[tactic(auto, using(crate::proofs::Elements::quote_end_steps))]
pub fn quote_end(quote: u8, behind: &[u8]) -> Option<usize>
    ensures value { result ≡ quote_end quote 0 behind.now }
    ensures not_empty { IfSome result (λ end. 0 < end) }
    ensures within { IfSome result (λ end. end ≤ length behind.now) }
{
    let mut at = 0;
    while at < behind.len() {
        if is_closing(quote, behind, at) {
            return Some(at + 1);
        }
        if hides_next(quote, behind[at]) {
            at += 2;
        } else {
            at += 1 + plain_len(quote, &behind[at + 1..]);
        }
    }
    None
}

/// How many bytes stand before the first quote or backslash, or before the end.
pub fn plain_len(quote: u8, bytes: &[u8]) -> usize
    ensures len { result ≡ position_or_len (λ byte. byte == quote || byte == backslash) bytes.now }
    ensures within { result ≤ length bytes.now }
{
    for (i, byte) in bytes.iter().enumerate() {
        if hides_next(quote, *byte) {
            return i;
        }
    }
    bytes.len()
}

/// Whether the byte at this place is the quote, and isn't doubled.
fn is_closing(quote: u8, bytes: &[u8], at: usize) -> bool
    requires { at < length bytes.now }
    ensures { result ≡ (slice_index bytes.now at == quote
        && not (nat_lt (at + 1) (length bytes.now) && slice_index bytes.now (at + 1) == quote)) }
{
    bytes[at] == quote && !(at + 1 < bytes.len() && bytes[at + 1] == quote)
}

/// Whether the byte is the quote or a backslash: where it doesn't close the string, it takes the
/// next one with it.
fn hides_next(quote: u8, byte: u8) -> bool
    ensures { result ≡ (byte == quote || byte == backslash) }
{
    byte == quote || byte == b'\\'
}
