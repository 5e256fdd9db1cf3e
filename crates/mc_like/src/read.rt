ghost use Rattle.mc_charset.specs.Chars.{chars};
ghost use Rattle.mc_like.specs.Items.{is_escape, item_of, items_of};
ghost use Rattle.mc_like.specs.Pattern.{AreOfSet};
ghost use Rattle.mc_like.specs.Read.{HasFirst, ReadsItem};
ghost use Rattle.std.specs.Prelude.{◌≡◌, ◌++◌, [], MatchOption, IfOk};

use crate::PatternItem;
use mc_base::{List, NoMemory};
use mc_charset::{CharAt, Charset, next_char};

/// Appends the items of a pattern's text.
pub(crate) fn put_items(
    set: Charset,
    escape: Option<u32>,
    text: &[u8],
    items: &mut List<PatternItem>,
) -> Result<(), NoMemory>
    requires { AreOfSet set items.old }
    ensures all { IfOk result
        (λ _. items.new ≡ items.old ++ items_of escape (chars set text.now)) }
    ensures of_set { AreOfSet set items.new }
{
    items.reserve(text.len())?;
    let mut rest = text;
    while let Some((item, behind)) = next_item(set, escape, rest) {
        items.push(item)?;
        rest = behind;
    }
    Ok(())
}

/// The first item of a pattern's text, and the text behind it.
fn next_item(set: Charset, escape: Option<u32>, text: &[u8]) -> Option<(PatternItem, &[u8])>
    ensures { MatchOption result (items_of escape (chars set text.now) ≡ [])
        (λ read. ReadsItem set escape text.now read.1.now read.0) }
{
    let Some((code, rest)) = next_code(set, text) else {
        return None;
    };
    if !is_escape(escape, code) {
        return Some((item_of(code), rest));
    }
    match next_code(set, rest) {
        Some((literal, behind)) => Some((PatternItem::Literal(literal), behind)),
        None => Some((PatternItem::Literal(code), rest)),
    }
}

/// The first character of a text, and the text behind it.
fn next_code(set: Charset, text: &[u8]) -> Option<(u32, &[u8])>
    ensures { MatchOption result (chars set text.now ≡ [])
        (λ read. HasFirst set text.now read.1.now read.0) }
{
    match next_char(set, text) {
        CharAt::Char { code, len } => Some((code, &text[len..])),
        CharAt::End | CharAt::Bad => None,
    }
}

/// Whether the character is the pattern's escape.
fn is_escape(escape: Option<u32>, code: u32) -> bool
    ensures { result ≡ is_escape escape code }
{
    match escape {
        Some(escape) => code == escape,
        None => false,
    }
}

/// What a character that is not escaped stands for.
fn item_of(code: u32) -> PatternItem
    ensures { result ≡ item_of code }
{
    const PERCENT_SIGN: u32 = 0x25;
    const LOW_LINE: u32 = 0x5F;
    match code {
        PERCENT_SIGN => PatternItem::Any,
        LOW_LINE => PatternItem::One,
        _ => PatternItem::Literal(code),
    }
}
