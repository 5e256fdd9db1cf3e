use mc_base::{NoMemory, Text};
use mc_strfun::repeat;
use mc_values::GREATEST_STRING;
use std::alloc::Global;

/// How long so many copies of two letters are, where that is allowed.
fn copies_len(alloc: Global, count: i64) -> Result<Option<usize>, NoMemory> {
    let text = Text::from_slice(alloc, b"ab")?;
    match repeat(alloc, &text, count) {
        Ok(copies) => Ok(copies.map(|copies| copies.len())),
        Err(NoMemory) => Err(NoMemory),
    }
}

#[test]
fn no_text_is_longer_than_the_greatest_one(rt: HostRuntime) {
    let half = (GREATEST_STRING / 2) as i64;
    assert!(rt; copies_len(rt.alloc(), half) == Ok(Some(GREATEST_STRING)));
    assert!(rt; copies_len(rt.alloc(), half + 1) == Ok(None));
    assert!(rt; copies_len(rt.alloc(), i64::MAX) == Ok(None));
}
