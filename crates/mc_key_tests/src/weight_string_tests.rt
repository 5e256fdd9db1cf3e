use mc_base::{NoMemory, Text};
use mc_charset::{CollId, is_well_formed};
use mc_key::{WeightForm, weight_string};
use mc_order::{BinCollation, Collation};
use std::alloc::Global;

/// The number of a built-in collation, a text of its set, and the text's weight string.
#[derive(Drop)]
struct Row {
    why: &'static str,
    id: u32,
    text: &'static [u8],
    form: WeightForm,
    string: &'static [u8],
}

const ROWS: [Row; 7] = [
    Row {
        why: "a weight of latin1_bin is a byte",
        id: 1,
        text: b"ab",
        form: WeightForm::Plain,
        string: b"ab",
    },
    Row {
        why: "as CHAR there are spaces behind the text",
        id: 1,
        text: b"ab",
        form: WeightForm::Chars(4),
        string: b"ab  ",
    },
    Row {
        why: "as BINARY there are zero bytes behind it",
        id: 1,
        text: b"ab",
        form: WeightForm::Bytes(4),
        string: b"ab\0\0",
    },
    Row {
        why: "as BINARY it is cut between bytes",
        id: 4,
        text: b"\xC3\xA9",
        form: WeightForm::Bytes(1),
        string: b"\xC3",
    },
    Row {
        why: "as CHAR it is cut between characters",
        id: 4,
        text: b"\xC3\xA9b",
        form: WeightForm::Chars(1),
        string: b"\x00\x00\xE9",
    },
    Row {
        why: "three bytes, the greatest first",
        id: 4,
        text: b"\xF0\x9F\x98\x80 ",
        form: WeightForm::Plain,
        string: b"\x01\xF6\x00\x00\x00\x20",
    },
    Row {
        why: "a space of ucs2 has two bytes and one weight",
        id: 5,
        text: b"\0a",
        form: WeightForm::Chars(2),
        string: b"\x00\x00\x61\x00\x00\x20",
    },
];

/// The weight string under a built-in collation, or None where the text is none of its set.
fn answer(alloc: Global, id: u32, text: &[u8], form: WeightForm) -> Result<Option<Text>, NoMemory> {
    if id > 8 {
        return Ok(None);
    }
    let collation = BinCollation::new(CollId(id));
    if !is_well_formed(collation.charset(), text) {
        return Ok(None);
    }
    weight_string(alloc, &collation, text, form)
}

/// Whether these bytes were answered.
fn is_string(found: &Result<Option<Text>, NoMemory>, string: &[u8]) -> bool {
    match found {
        Ok(Some(text)) => text.as_slice() == string,
        _ => false,
    }
}

/// How many bytes were answered; None where NULL was.
fn string_len(found: &Result<Option<Text>, NoMemory>) -> Result<Option<usize>, NoMemory> {
    match found {
        Ok(Some(text)) => Ok(Some(text.len())),
        Ok(None) => Ok(None),
        Err(_) => Err(NoMemory),
    }
}

#[test]
fn weight_strings_are_as_worked_out(rt: HostRuntime) {
    for row in &ROWS {
        let found = answer(rt.alloc(), row.id, row.text, row.form);
        assert!(rt; is_string(&found, row.string), "{}", row.why);
    }
}

#[test]
fn a_string_past_the_greatest_length_is_null(rt: HostRuntime) {
    let whole = answer(rt.alloc(), 1, b"ab", WeightForm::Bytes(1_048_576));
    assert!(rt; string_len(&whole) == Ok(Some(1_048_576)));
    let longer = answer(rt.alloc(), 1, b"ab", WeightForm::Bytes(1_048_577));
    assert!(rt; string_len(&longer) == Ok(None));
    let wide = answer(rt.alloc(), 4, b"ab", WeightForm::Chars(349_526));
    assert!(rt; string_len(&wide) == Ok(None), "three bytes a character");
}
