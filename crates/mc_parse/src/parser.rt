ghost use Rattle.std.specs.Prelude.{◌≡◌, ◌≤◌, ◌-◌, ℕ, List, Err, drop, length};
ghost use Rattle.mc_token.specs.declared.lexeme.Token.{Token};
ghost use Rattle.mc_sql.specs.Rules as rule;
ghost use Rattle.mc_ast.specs.Parsed.{place_of};
ghost use Rattle.mc_ast.specs.Values as value;
ghost use Rattle.mc_parse.specs.Clauses.{IsClause, IsClauseFault};
ghost use Rattle.mc_parse.specs.Outcome.{IsParsed};

use crate::ParseFault;
use crate::boxes::instead;
use crate::fault::Fault;
use crate::place::Place;
use crate::statement::statement;
use mc_ast::Statement;
use mc_base::List;
use mc_token::Token;
use std::alloc::Global;

/// The tree of these tokens of a statement, which ends at this byte. NoReading carries the start of
/// the first token that no statement goes on with, or the end; TooDeep that of the first one at
/// which the parentheses open, that token included, and the NOT and unary minus whose operands
/// haven't ended are more than 64.
pub fn parse(alloc: Global, tokens: &List<Token>, end: u32) -> Result<Statement, ParseFault>
    ensures { IsParsed tokens.now end result }
{
    let tokens = tokens.as_slice();
    match statement(alloc, Place::new(tokens)) {
        Ok((tree, rest)) => whole(tree, rest),
        Err(fault) => Err(placed(fault, tokens, end)),
    }
}

/// The statement, if no tokens are left behind it.
#[tactic(auto, using(crate::proofs::Parsed::whole_at, crate::proofs::Parsed::left_at))]
fn whole(tree: Statement, rest: Place<'_>) -> Result<Statement, ParseFault>
    ensures { (tokens : List Token) (end : ℕ)
        → IsClause rule.statement tokens rest.entry.tokens.now (value.a_statement tree)
        → IsParsed tokens end result }
{
    if rest.left() == 0 {
        Ok(tree)
    } else {
        let fault = ParseFault::NoReading(rest.span().start);
        Err(instead(tree, fault))
    }
}

/// The fault, with the byte of its place.
#[tactic(auto, using(crate::proofs::Parsed::placed_ways))]
fn placed(fault: Fault, tokens: &[Token], end: u32) -> ParseFault
    requires { IsClauseFault rule.statement tokens.now fault }
    ensures { IsParsed tokens.now end (Err result) }
{
    match fault {
        Fault::NoReading(left) => ParseFault::NoReading(start_of(tokens, left, end)),
        Fault::TooDeep(left) => ParseFault::TooDeep(start_of(tokens, left, end)),
        Fault::NoMemory => ParseFault::NoMemory,
    }
}

/// The byte at which the last so many tokens begin; of none, the end.
fn start_of(tokens: &[Token], left: usize, end: u32) -> u32
    requires { left ≤ length tokens.now }
    ensures { result ≡ place_of end (drop (length tokens.now - left) tokens.now) }
{
    match &tokens[tokens.len() - left..] {
        [next, ..] => next.span.start,
        [] => end,
    }
}
