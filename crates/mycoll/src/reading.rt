ghost use Rattle.mc_ast.specs.Texts.{HasUtf8Strings};
ghost use Rattle.mc_token.specs.Tokens.{tokens_of};
ghost use Rattle.mycoll.specs.Reading.{TokensRead, HasRead};
ghost use Rattle.std.specs.Prelude.{◌≡◌, ◌≤◌, IfOk, IsUtf8, Ok, length};

use crate::messages::{no_reading, too_deep, too_many_tokens};
use crate::unanswered::{Unanswered, refused};
use mc_ast::{Statement, texts_law};
use mc_base::{List, Span};
use mc_parse::{ParseFault, parse};
use mc_token::{LexFault, Token, token_laws, tokens};
use std::alloc::Global;

/// The tree of the tokens of a statement, or the refusal of their reading.
fn read_tokens(
    alloc: Global,
    script: &[u8],
    statement: Span,
    tokens: &List<Token>,
) -> Result<Statement, Unanswered>
    requires in_order { statement.start ≤ statement.end }
    requires within { statement.end ≤ length script.now }
    requires utf8 { IsUtf8 script.now }
    requires tokens { tokens_of script.now statement ≡ Ok tokens.now }
    ensures read { HasRead script.now statement result }
    ensures texts { IfOk result HasUtf8Strings }
{
    token_laws();
    texts_law();
    match parse(alloc, tokens, statement.end) {
        Ok(tree) => Ok(tree),
        Err(ParseFault::NoReading(place)) => Err(refused(no_reading(alloc, place))),
        Err(ParseFault::TooDeep(place)) => Err(refused(too_deep(alloc, place))),
        Err(ParseFault::NoMemory) => Err(Unanswered::NoMemory),
    }
}

/// The tree of a statement, or the refusal of its syntax.
pub fn read_statement(
    alloc: Global,
    script: &[u8],
    statement: Span,
) -> Result<Statement, Unanswered>
    requires in_order { statement.start ≤ statement.end }
    requires within { statement.end ≤ length script.now }
    requires utf8 { IsUtf8 script.now }
    ensures read { HasRead script.now statement result }
    ensures texts { IfOk result HasUtf8Strings }
{
    match tokens(alloc, script, statement) {
        Ok(tokens) => read_tokens(alloc, script, statement, &tokens),
        Err(LexFault::NoToken(place)) => Err(refused(no_reading(alloc, place))),
        Err(LexFault::TooManyTokens) => Err(refused(too_many_tokens(alloc))),
        Err(LexFault::NoMemory) => Err(Unanswered::NoMemory),
    }
}
