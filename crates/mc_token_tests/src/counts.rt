use crate::row::tokens_of;
use mc_base::{NoMemory, Text};
use mc_token::LexFault;
use std::alloc::Global;

/// A statement of so many words, and this behind them.
fn words_and(alloc: Global, count: u32, behind: &[u8]) -> Result<Text, NoMemory> {
    let mut text = Text::new(alloc);
    for _ in 0..count {
        text.extend_from_slice(b"a ")?;
    }
    text.extend_from_slice(behind)?;
    Ok(text)
}

/// How many tokens such a statement has, or 0.
fn count_of(alloc: Global, count: u32, behind: &[u8]) -> usize {
    match words_and(alloc, count, behind) {
        Ok(text) => tokens_of(alloc, text.as_slice()).map_or(0, |tokens| tokens.len()),
        Err(_) => 0,
    }
}

/// Whether such a statement has too many tokens, or no token at a byte.
fn has_fault(alloc: Global, count: u32, behind: &[u8], no_token: Option<u32>) -> bool {
    let Ok(text) = words_and(alloc, count, behind) else {
        return false;
    };
    match tokens_of(alloc, text.as_slice()) {
        Err(LexFault::TooManyTokens) => no_token.is_none(),
        Err(LexFault::NoToken(at)) => no_token == Some(at),
        _ => false,
    }
}

#[test]
fn a_statement_has_so_many_tokens(rt: HostRuntime) {
    let alloc = rt.alloc();
    assert_eq!(rt; count_of(alloc, 2048, b""), 2048);
    assert_eq!(rt; count_of(alloc, 2047, b"1 /* b */ -- c"), 2048);
    assert!(rt; has_fault(alloc, 2049, b"", None));
    assert!(rt; has_fault(alloc, 2048, b"<=>", None));
    assert!(rt; has_fault(alloc, 2050, b"!", Some(4100)));
    assert!(rt; has_fault(alloc, 2048, b"b 'c", Some(4098)));
}
