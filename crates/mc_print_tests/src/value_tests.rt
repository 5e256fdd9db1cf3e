use mc_base::{NoMemory, Text};
use mc_charset::{Charset, is_well_formed};
use mc_values::{
    GREATEST_STRING, Value, ascii_text, convert_value, copy_value, int_text, is_within_limit,
    push_hex, push_hex_number, within_limit,
};
use std::alloc::Global;

/// Whether the number is spelled by these bytes in the set.
fn is_spelled(alloc: Global, number: i64, set: Charset, bytes: &[u8]) -> Result<bool, NoMemory> {
    Ok(int_text(alloc, number, set)?.as_slice() == bytes)
}

#[test]
fn numbers(rt: HostRuntime) {
    let latin1 = is_spelled(
        rt.alloc(),
        i64::MIN,
        Charset::Latin1,
        b"-9223372036854775808",
    );
    assert!(rt; latin1.unwrap_or(false), "the least number");
    let utf16 = is_spelled(rt.alloc(), -7, Charset::Utf16, b"\x00-\x007");
    assert!(rt; utf16.unwrap_or(false), "two bytes a character");
    let utf32 = is_spelled(rt.alloc(), 0, Charset::Utf32, b"\x00\x00\x000");
    assert!(rt; utf32.unwrap_or(false), "four bytes a character");
}

/// Whether `ab` in ucs2 has two bytes a character.
fn is_wide(alloc: Global) -> Result<bool, NoMemory> {
    let text = b"ab";
    if !text.is_ascii() {
        return Ok(false);
    }
    Ok(ascii_text(alloc, Charset::Ucs2, text)?.as_slice() == b"\x00a\x00b".as_slice())
}

#[test]
fn ascii(rt: HostRuntime) {
    assert!(rt;
        is_wide(rt.alloc()).unwrap_or(false),
        "an ASCII text in ucs2"
    );
}

/// Whether CONVERT makes this of the bytes; NULL stands as no bytes.
fn is_converted(
    alloc: Global,
    from: Charset,
    to: Charset,
    bytes: &[u8],
    wanted: &[u8],
) -> Result<bool, NoMemory> {
    if !is_well_formed(from, bytes) {
        return Ok(false);
    }
    match convert_value(alloc, from, to, bytes)? {
        Some(text) => Ok(!wanted.is_empty() && text.as_slice() == wanted),
        None => Ok(wanted.is_empty()),
    }
}

#[test]
fn conversions(rt: HostRuntime) {
    let utf8 = Charset::Utf8mb4;
    let taken = is_converted(rt.alloc(), Charset::Binary, utf8, b"\xC3\xA9", b"\xC3\xA9");
    assert!(rt; taken.unwrap_or(false), "bytes are taken for a text");
    let null = is_converted(rt.alloc(), Charset::Binary, utf8, b"\xE9", b"");
    assert!(rt; null.unwrap_or(false), "bytes that are no text are NULL");
    let lost = is_converted(
        rt.alloc(),
        Charset::Utf16,
        Charset::Latin1,
        b"\x04\x4F",
        b"?",
    );
    assert!(rt; lost.unwrap_or(false), "a character that latin1 lacks");
}

/// Whether a string's copy is that string.
fn is_copied(alloc: Global) -> Result<bool, NoMemory> {
    let value = Value::Str {
        charset: Charset::Latin1,
        text: Text::from_slice(alloc, b"\xE9")?,
    };
    match copy_value(alloc, &value)? {
        Value::Str { charset, text } => Ok(
            charset == Charset::Latin1 && text.as_slice() == [0xE9].as_slice(),
        ),
        Value::Null | Value::Int(_) => Ok(false),
    }
}

/// The digits of these bytes and of a number, behind a letter.
fn digits(alloc: Global) -> Result<Text, NoMemory> {
    let mut text = Text::from_slice(alloc, b"x")?;
    push_hex(&mut text, b"\x0F\xA0\x9B")?;
    push_hex_number(alloc, &mut text, -2)?;
    Ok(text)
}

#[test]
fn copies_digits_and_lengths(rt: HostRuntime) {
    assert!(rt; is_copied(rt.alloc()).unwrap_or(false), "a copy");
    let text = digits(rt.alloc()).unwrap_or(Text::new(rt.alloc()));
    let wanted: &[u8] = b"x0FA09BFFFFFFFFFFFFFFFE";
    assert!(rt; text.as_slice() == wanted, "digits");
    assert!(rt; within_limit(text).is_some(), "a short text");
    assert!(rt; GREATEST_STRING == 1_048_576, "the greatest length");
    assert!(rt; is_within_limit(GREATEST_STRING), "a string may have it");
    assert!(rt; !is_within_limit(GREATEST_STRING + 1), "and no more");
}
