use mc_base::{List, Span};
use mc_token::{LexFault, Lexeme, Symbol, Token, tokens};
use std::alloc::Global;

/// What a token says.
#[derive(Clone, Copy, Debug)]
pub enum Says {
    Word(&'static [u8]),
    Name(&'static [u8]),
    Int(i64),
    Str(&'static [u8]),
    National(&'static [u8]),
    Hex(&'static [u8]),
    Mark(Symbol),
}

/// A statement and its tokens: what each says, and the bytes where it begins and ends.
#[derive(Debug)]
pub struct Row {
    pub script: &'static [u8],
    pub tokens: &'static [(Says, u32, u32)],
    pub why: &'static str,
}

/// The tokens of a script that is one statement.
pub fn tokens_of(alloc: Global, script: &[u8]) -> Result<List<Token>, LexFault> {
    if script.len() > 1_000_000 {
        return Err(LexFault::NoMemory);
    }
    let end = script.len() as u32;
    tokens(alloc, script, Span { start: 0, end })
}

/// Whether the statement has the tokens of the row.
pub fn is_read_so(alloc: Global, row: &Row) -> bool {
    match tokens_of(alloc, row.script) {
        Ok(found) => are_as(found.as_slice(), row.tokens),
        Err(_) => false,
    }
}

/// Whether these tokens say this and stand there.
pub fn are_as(found: &[Token], wanted: &[(Says, u32, u32)]) -> bool {
    if found.len() != wanted.len() {
        return false;
    }
    for (token, (says, start, end)) in found.iter().zip(wanted) {
        if !is_as(&token.kind, *says) || token.span.start != *start || token.span.end != *end {
            return false;
        }
    }
    true
}

/// Whether the lexeme says this.
fn is_as(lexeme: &Lexeme, says: Says) -> bool {
    match (lexeme, says) {
        (Lexeme::Word(text), Says::Word(wanted)) => text.as_slice() == wanted,
        (Lexeme::Name(text), Says::Name(wanted)) => text.as_slice() == wanted,
        (Lexeme::Int(number), Says::Int(wanted)) => *number == wanted,
        (Lexeme::Str(text), Says::Str(wanted)) => text.as_slice() == wanted,
        (Lexeme::National(text), Says::National(wanted)) => text.as_slice() == wanted,
        (Lexeme::Hex(bytes), Says::Hex(wanted)) => bytes.as_slice() == wanted,
        (Lexeme::Sym(symbol), Says::Mark(wanted)) => *symbol == wanted,
        _ => false,
    }
}
