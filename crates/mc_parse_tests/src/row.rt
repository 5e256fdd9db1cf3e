use mc_base::{List, NoMemory, Span, Text};
use mc_parse::{ParseFault, parse};
use mc_token::{LexFault, Token, tokens};
use std::alloc::Global;

/// A statement in two parts: what stands before the token that it cannot go on with, and the rest.
#[derive(Debug)]
pub struct Row {
    pub front: &'static str,
    pub rest: &'static str,
}

/// What comes of a script that is one statement.
#[derive(Clone, Copy, Debug, PartialEq, Eq)]
pub enum Comes {
    Tree,
    NoToken(u32),
    TooManyTokens,
    NoReading(u32),
    TooDeep(u32),
    NoMemory,
}

/// What comes of tokens that end at this byte.
fn comes_of_tokens(alloc: Global, tokens: &List<Token>, end: u32) -> Comes {
    match parse(alloc, tokens, end) {
        Ok(_) => Comes::Tree,
        Err(ParseFault::NoReading(at)) => Comes::NoReading(at),
        Err(ParseFault::TooDeep(at)) => Comes::TooDeep(at),
        Err(ParseFault::NoMemory) => Comes::NoMemory,
    }
}

/// What comes of a script that is one statement.
pub fn comes_of(alloc: Global, script: &[u8]) -> Comes {
    if script.len() > 1_000_000 {
        return Comes::NoMemory;
    }
    let end = script.len() as u32;
    match tokens(alloc, script, Span { start: 0, end }) {
        Ok(tokens) => comes_of_tokens(alloc, &tokens, end),
        Err(LexFault::NoToken(at)) => Comes::NoToken(at),
        Err(LexFault::TooManyTokens) => Comes::TooManyTokens,
        Err(LexFault::NoMemory) => Comes::NoMemory,
    }
}

/// The two parts as one text.
fn joined(alloc: Global, row: &Row) -> Result<Text, NoMemory> {
    let mut script = Text::from_slice(alloc, row.front.as_bytes())?;
    script.extend_from_slice(row.rest.as_bytes())?;
    Ok(script)
}

/// Whether no statement goes on with the second part of the row.
pub fn is_stuck(alloc: Global, row: &Row) -> bool {
    let Ok(script) = joined(alloc, row) else {
        return false;
    };
    match comes_of(alloc, script.as_slice()) {
        Comes::NoReading(at) => at as usize == row.front.len(),
        _ => false,
    }
}
