ghost use Rattle.std.specs.Prelude.{
  ◌≡◌,
  ◌∷◌,
  ◌++◌,
  [],
  ◌+◌,
  ◌<◌,
  ◌≤◌,
  ◌^◌,
  Ok,
  drop,
  length,
  IfOk,
  IfErr,
  OnOk,
};
ghost use Rattle.mc_token.specs.Spellings.{least_len};
ghost use Rattle.mc_token.specs.Tokens.{
  all_tokens,
  token_of,
  tokens_in,
  limited,
  fault_of,
  IsCause,
  tokens_of,
};

use crate::piece::{Piece, piece_at};
use crate::reading::lexeme_of;
use crate::spelling::Spelling;
use crate::{LexFault, Token};
use mc_base::{List, NoMemory, Span};
use std::alloc::Global;

/// How many tokens a statement may have.
const TOKEN_LIMIT: usize = 2048;

/// The tokens of a statement that `next_statement` gave: between them stand spaces and comments
/// alone, and each is the longest one at its place. NoToken is at the first byte where none of
/// these begins, or a string, a name or a comment that isn't closed. TooManyTokens comes where
/// there are more than 2,048 tokens and no NoToken. MySQL 8.0 manual, 9.1, 9.2, 9.7 and 10.3.7.
#[tactic(auto, unfolding(crate::specs::Tokens::tokens_of))]
pub fn tokens(alloc: Global, script: &[u8], statement: Span) -> Result<List<Token>, LexFault>
    requires in_order { statement.start ≤ statement.end }
    requires within { statement.end ≤ length script.now }
    ensures ok { IfOk result (λ tokens. tokens_of script.now statement ≡ Ok tokens) }
    ensures err { IfErr result (λ fault. IsCause fault (tokens_of script.now statement)) }
{
    let mut tokens = List::new(alloc);
    match push_tokens(alloc, &mut tokens, script, statement) {
        Ok(()) => Ok(tokens),
        Err(fault) => Err(fault),
    }
}

/// Appends the tokens of a statement of the script to none.
#[tactic(auto, using(crate::proofs::Lexing::tokens_steps))]
fn push_tokens(
    alloc: Global,
    tokens: &mut List<Token>,
    script: &[u8],
    statement: Span,
) -> Result<(), LexFault>
    requires none { tokens.now ≡ [] }
    requires in_order { statement.start ≤ statement.end }
    requires within { statement.end ≤ length script.now }
    ensures ok { OnOk result (limited (all_tokens script.now statement) ≡ Ok tokens.new) }
    ensures err { IfErr result
        (λ fault. IsCause fault (limited (all_tokens script.now statement))) }
{
    let end = statement.end as usize;
    let mut at = statement.start as usize;
    while at < end {
        match piece_at(script, at, end) {
            Piece::Blank(len) => at += len,
            Piece::Begun(spelling) => {
                if tokens.len() == TOKEN_LIMIT {
                    return Err(excess(script, at, end));
                }
                push_token(alloc, tokens, script, at, spelling)?;
                at += spelling.len;
            }
            Piece::Nothing => return Err(LexFault::NoToken(at as u32)),
        }
    }
    Ok(())
}

/// The fault of a statement that has a token too much at this place: the first NoToken from there
/// on, where there is one.
#[tactic(auto, using(crate::proofs::Lexing::tokens_steps))]
fn excess(script: &[u8], from: usize, end: usize) -> LexFault
    requires fits { end < 2 ^ 32 }
    requires in_order { from ≤ end }
    requires within { end ≤ length script.now }
    ensures { result ≡ fault_of (tokens_in end from (drop from script.now)) }
{
    let mut at = from;
    while at < end {
        match piece_at(script, at, end) {
            Piece::Blank(len) => at += len,
            Piece::Begun(spelling) => at += spelling.len,
            Piece::Nothing => return LexFault::NoToken(at as u32),
        }
    }
    LexFault::TooManyTokens
}

/// Appends the token that begins at this place of the script.
fn push_token(
    alloc: Global,
    tokens: &mut List<Token>,
    script: &[u8],
    at: usize,
    spelling: Spelling,
) -> Result<(), NoMemory>
    requires fits { at + spelling.len < 2 ^ 32 }
    requires long_enough { least_len spelling.shape ≤ spelling.len }
    requires within { at + spelling.len ≤ length script.now }
    ensures { OnOk result
        (tokens.new ≡ tokens.old ++ token_of at spelling (drop at script.now) ∷ []) }
{
    let kind = lexeme_of(alloc, spelling.shape, &script[at..at + spelling.len])?;
    let start = at as u32;
    let span = Span {
        start,
        end: start + spelling.len as u32,
    };
    tokens.push(Token { span, kind })
}
