//! Expressions in parentheses, with commas between them.

ghost use Rattle.std.specs.Prelude.{◌≡◌, [], IfOk, IfErr};
ghost use Rattle.mc_parse.specs.Members.{IsMembers, IsNoMembers};

use crate::arguments::{more_ors, push_or};
use crate::fault::Fault;
use crate::place::Place;
use mc_ast::Expr;
use mc_base::{List, Span};
use mc_token::Symbol;
use std::alloc::Global;

/// or {, or} ) behind the parenthesis that opens: the expressions, and where the one that closes
/// stands.
#[cycle(expr)]
pub(crate) fn members<'a>(
    alloc: Global,
    below: usize,
    place: Place<'a>,
) -> Result<(List<Expr>, Span, Place<'a>), Fault>
    ensures ok { IfOk result (λ found. IsMembers below place.entry.tokens.now found.2.tokens.now
        found.0 found.1) }
    ensures err { IfErr result (λ fault. IsNoMembers below place.entry.tokens.now fault) }
{
    let mut list = List::new(alloc);
    match push_members(alloc, below, &mut list, place) {
        Ok((end, rest)) => Ok((list, end, rest)),
        Err(fault) => Err(fault),
    }
}

/// The same, appended to an empty list.
#[cycle(expr)]
fn push_members<'a>(
    alloc: Global,
    below: usize,
    list: &mut List<Expr>,
    place: Place<'a>,
) -> Result<(Span, Place<'a>), Fault>
    requires { list.now ≡ [] }
    ensures ok { IfOk result (λ found. IsMembers below place.entry.tokens.now found.1.tokens.now
        list.new found.0) }
    ensures err { IfErr result (λ fault. IsNoMembers below place.entry.tokens.now fault) }
{
    match push_or(alloc, below, list, place) {
        Ok(rest) => match more_ors(alloc, below, list, rest) {
            Ok(rest) => match rest.mark(Symbol::RightParen) {
                Some(behind) => Ok((rest.span(), behind)),
                None => Err(Fault::NoReading(rest.left())),
            },
            Err(fault) => Err(fault),
        },
        Err(fault) => Err(fault),
    }
}
