//! What is said of a sum: comparisons, IS NULL, LIKE, IN and BETWEEN.

ghost use Rattle.std.specs.Prelude.{codes, ℕ, Bool, List, IsTrue, MatchOption, IfOk, IfErr};
ghost use Rattle.mc_token.specs.declared.lexeme.Lexeme.TheVariants as lexeme;
ghost use Rattle.mc_token.specs.declared.lexeme.Token.{Token};
ghost use Rattle.mc_ast.specs.Values.{flag};
ghost use Rattle.mc_grammar.specs.Places.{Done};
ghost use Rattle.mc_sql.specs.Rules as rule;
ghost use Rattle.mc_parse.specs.Comparisons.{comparison_signs, said_signs, IsComparison};
ghost use Rattle.mc_parse.specs.Language.{language, at, behind, behind_at};
ghost use Rattle.mc_parse.specs.Place.{are_missing, IsNext};
ghost use Rattle.mc_parse.specs.Read.{IsFault, IsOperand, IsOperandAt};
ghost use Rattle.mc_parse.specs.Said.{IsComparing, IsTesting};

use crate::boxes::instead;
use crate::fault::Fault;
use crate::matching::{listed, matched, ranged};
use crate::operand::{Operand, compare, is_null};
use crate::operators::sum;
use crate::place::Place;
use mc_ast::CmpOp;
use mc_token::{Keyword, Symbol};
use std::alloc::Global;

/// A sign of a comparison, if it is next, and the place behind it.
fn comparison<'a>(place: Place<'a>) -> Option<(CmpOp, Place<'a>)>
    ensures { MatchOption result (IsTrue (are_missing comparison_signs place.entry.tokens.now))
        (λ found. IsComparison found.0 place.entry.tokens.now found.1.tokens.now) }
{
    if let Some(behind) = place.mark(Symbol::Eq) {
        return Some((CmpOp::Eq, behind));
    }
    if let Some(behind) = place.mark(Symbol::NullEq) {
        return Some((CmpOp::NullEq, behind));
    }
    if let Some(behind) = place.mark(Symbol::Ne) {
        return Some((CmpOp::Ne, behind));
    }
    if let Some(behind) = place.mark(Symbol::NeBang) {
        return Some((CmpOp::Ne, behind));
    }
    if let Some(behind) = place.mark(Symbol::Lt) {
        return Some((CmpOp::Lt, behind));
    }
    if let Some(behind) = place.mark(Symbol::Le) {
        return Some((CmpOp::Le, behind));
    }
    if let Some(behind) = place.mark(Symbol::Gt) {
        return Some((CmpOp::Gt, behind));
    }
    match place.mark(Symbol::Ge) {
        Some(behind) => Some((CmpOp::Ge, behind)),
        None => None,
    }
}

/// sum | sum cmp sum | sum IS [NOT] NULL | sum [NOT] LIKE sum [ESCAPE Str]
/// | sum [NOT] IN ( or {, or} ) | sum [NOT] BETWEEN sum AND sum
#[cycle(expr)]
pub(crate) fn pred<'a>(
    alloc: Global,
    below: usize,
    alias: bool,
    place: Place<'a>,
) -> Result<(Operand, Place<'a>), Fault>
    ensures ok { IfOk result (λ found. IsOperandAt alias rule.pred below place.entry.tokens.now
        found.1.tokens.now found.0) }
    ensures err { IfErr result (λ fault. IsFault (behind_at alias rule.pred) rule.pred below
        place.entry.tokens.now fault) }
{
    match sum(alloc, below, place) {
        Ok((left, rest)) => match said(alloc, below, alias, left, rest) {
            Ok((operand, rest)) => Ok((operand, rest)),
            Err(fault) => Err(fault),
        },
        Err(fault) => Err(fault),
    }
}

/// What is said of a sum that stands before, or the sum alone.
#[cycle(expr)]
fn said<'a>(
    alloc: Global,
    below: usize,
    alias: bool,
    left: Operand,
    place: Place<'a>,
) -> Result<(Operand, Place<'a>), Fault>
    ensures ok { IfOk result (λ found. (tokens : List Token)
        → IsOperand rule.sum below tokens place.entry.tokens.now left
        → IsOperandAt alias rule.pred below tokens found.1.tokens.now found.0) }
    ensures err { IfErr result (λ fault. (tokens : List Token)
        → IsOperand rule.sum below tokens place.entry.tokens.now left
        → IsFault (behind_at alias rule.pred) rule.pred below tokens fault) }
{
    match comparison(place) {
        Some((op, behind)) => match compared(alloc, below, alias, op, left, behind) {
            Ok((operand, rest)) => Ok((operand, rest)),
            Err(fault) => Err(fault),
        },
        None => match place.keyword(Keyword::Is) {
            Some(behind) => match tested(alloc, left, behind) {
                Ok((operand, rest)) => Ok((operand, rest)),
                Err(fault) => Err(fault),
            },
            None => match place.keyword(Keyword::Not) {
                Some(behind) => match denied(alloc, below, alias, left, behind) {
                    Ok((operand, rest)) => Ok((operand, rest)),
                    Err(fault) => Err(fault),
                },
                None => match affirmed(alloc, below, alias, left, place) {
                    Ok((operand, rest)) => Ok((operand, rest)),
                    Err(fault) => Err(fault),
                },
            },
        },
    }
}

/// sum cmp sum, behind its sign.
#[cycle(expr)]
fn compared<'a>(
    alloc: Global,
    below: usize,
    alias: bool,
    op: CmpOp,
    left: Operand,
    place: Place<'a>,
) -> Result<(Operand, Place<'a>), Fault>
    ensures ok { IfOk result (λ found. (tokens : List Token)
        → IsComparing alias below op tokens place.entry.tokens.now left
        → IsOperandAt alias rule.pred below tokens found.1.tokens.now found.0) }
    ensures err { IfErr result (λ fault. (tokens : List Token)
        → IsComparing alias below op tokens place.entry.tokens.now left
        → IsFault (behind_at alias rule.pred) rule.pred below tokens fault) }
{
    match sum(alloc, below, place) {
        Ok((right, rest)) => Ok((compare(alloc, op, left, right)?, rest)),
        Err(fault) => Err(instead(left, fault)),
    }
}

/// NOT, if it is next: whether it is, and the place behind it.
fn not_option<'a>(place: Place<'a>) -> (bool, Place<'a>)
    ensures { (below : ℕ) → Done language (behind rule.not_option) 1 (at below rule.not_option)
        place.entry.tokens.now result.1.tokens.now (flag result.0) }
{
    match place.keyword(Keyword::Not) {
        Some(behind) => (true, behind),
        None => (false, place),
    }
}

/// sum IS [NOT] NULL, behind IS.
fn tested<'a>(alloc: Global, left: Operand, place: Place<'a>) -> Result<(Operand, Place<'a>), Fault>
    ensures ok { IfOk result (λ found. (alias : Bool) (below : ℕ) (tokens : List Token)
        → IsTesting alias below tokens place.entry.tokens.now left
        → IsOperandAt alias rule.pred below tokens found.1.tokens.now found.0) }
    ensures err { IfErr result (λ fault. (alias : Bool) (below : ℕ) (tokens : List Token)
        → IsTesting alias below tokens place.entry.tokens.now left
        → IsFault (behind_at alias rule.pred) rule.pred below tokens fault) }
{
    let (negated, place) = not_option(place);
    match place.keyword(Keyword::Null) {
        Some(rest) => Ok((is_null(alloc, left, negated, place.span())?, rest)),
        None => Err(instead(left, Fault::NoReading(place.left()))),
    }
}

/// LIKE, IN or BETWEEN, behind NOT.
#[cycle(expr)]
fn denied<'a>(
    alloc: Global,
    below: usize,
    alias: bool,
    left: Operand,
    place: Place<'a>,
) -> Result<(Operand, Place<'a>), Fault>
    ensures ok { IfOk result (λ found. (tokens at_word : List Token)
        → IsOperand rule.sum below tokens at_word left
        → IsNext (lexeme.Word (codes "not")) at_word place.entry.tokens.now
        → IsOperandAt alias rule.pred below tokens found.1.tokens.now found.0) }
    ensures err { IfErr result (λ fault. (tokens at_word : List Token)
        → IsOperand rule.sum below tokens at_word left
        → IsNext (lexeme.Word (codes "not")) at_word place.entry.tokens.now
        → IsFault (behind_at alias rule.pred) rule.pred below tokens fault) }
{
    match place.keyword(Keyword::Like) {
        Some(behind) => match matched(alloc, below, alias, left, true, behind) {
            Ok((operand, rest)) => Ok((operand, rest)),
            Err(fault) => Err(fault),
        },
        None => match place.keyword(Keyword::In) {
            Some(behind) => match listed(alloc, below, alias, left, true, behind) {
                Ok((operand, rest)) => Ok((operand, rest)),
                Err(fault) => Err(fault),
            },
            None => match place.keyword(Keyword::Between) {
                Some(behind) => match ranged(alloc, below, alias, left, true, behind) {
                    Ok((operand, rest)) => Ok((operand, rest)),
                    Err(fault) => Err(fault),
                },
                None => Err(instead(left, Fault::NoReading(place.left()))),
            },
        },
    }
}

/// LIKE, IN or BETWEEN, or nothing is said of the sum.
#[cycle(expr)]
fn affirmed<'a>(
    alloc: Global,
    below: usize,
    alias: bool,
    left: Operand,
    place: Place<'a>,
) -> Result<(Operand, Place<'a>), Fault>
    requires { IsTrue (are_missing said_signs place.tokens.now) }
    ensures ok { IfOk result (λ found. (tokens : List Token)
        → IsOperand rule.sum below tokens place.entry.tokens.now left
        → IsOperandAt alias rule.pred below tokens found.1.tokens.now found.0) }
    ensures err { IfErr result (λ fault. (tokens : List Token)
        → IsOperand rule.sum below tokens place.entry.tokens.now left
        → IsFault (behind_at alias rule.pred) rule.pred below tokens fault) }
{
    match place.keyword(Keyword::Like) {
        Some(behind) => match matched(alloc, below, alias, left, false, behind) {
            Ok((operand, rest)) => Ok((operand, rest)),
            Err(fault) => Err(fault),
        },
        None => match place.keyword(Keyword::In) {
            Some(behind) => match listed(alloc, below, alias, left, false, behind) {
                Ok((operand, rest)) => Ok((operand, rest)),
                Err(fault) => Err(fault),
            },
            None => match place.keyword(Keyword::Between) {
                Some(behind) => match ranged(alloc, below, alias, left, false, behind) {
                    Ok((operand, rest)) => Ok((operand, rest)),
                    Err(fault) => Err(fault),
                },
                None => Ok((left, place)),
            },
        },
    }
}
