ghost use Rattle.std.specs.Prelude.{
  ◌≡◌,
  [],
  ◌∷◌,
  ◌+◌,
  ◌<◌,
  ◌≤◌,
  ◌^◌,
  false,
  true,
  drop,
  length,
  min,
  IfSome,
  IfNone,
};
ghost use Rattle.mc_token.specs.Elements.{elements};
ghost use Rattle.mc_token.specs.Statements.{
  is_content,
  is_end,
  statement_len,
  statements_in,
  statements,
};

use crate::element::{Kind, element_at};
use mc_base::Span;

/// The first statement of a script from a byte on, and the byte to go on from. None where nothing
/// but spaces, closed comments and semicolons is left. A statement goes from its first byte that is
/// neither a space nor in a closed comment to before its semicolon, or to the script's end. `from`
/// is 0 or what an earlier call gave. MySQL 8.0 manual, 9.1.1 and 9.7.
#[tactic(auto, unfolding(crate::specs::Statements::statements))]
pub fn next_statement(script: &[u8], from: u32) -> Option<(Span, u32)>
    requires { length script.now < 2 ^ 32 }
    ensures none { IfNone result (statements script.now from ≡ []) }
    ensures some { IfSome result
        (λ found. statements script.now from ≡ found.0 ∷ statements script.now found.1) }
    ensures begins { IfSome result (λ found. from ≤ found.0.start) }
    ensures not_empty { IfSome result (λ found. found.0.start < found.0.end) }
    ensures within { IfSome result (λ found. found.0.end ≤ length script.now) }
    ensures goes_on { IfSome result
        (λ found. found.1 ≡ min (found.0.end + 1) (length script.now)) }
{
    let start = statement_start(script, from as usize)?;
    let end = statement_end(script, start);
    let next = (end + 1).min(script.len());
    let span = Span {
        start: start as u32,
        end: end as u32,
    };
    Some((span, next as u32))
}

/// Where the first statement from a byte on begins, where one does.
#[tactic(auto, using(crate::proofs::Statements::statement_steps))]
fn statement_start(script: &[u8], from: usize) -> Option<usize>
    ensures none { IfNone result (statements_in false from (elements (drop from script.now)) ≡ []) }
    ensures some { IfSome result (λ start.
        statements_in false from (elements (drop from script.now))
        ≡ record { start = start; end = start + statement_len (elements (drop start script.now)) }
        ∷ statements_in true start (elements (drop start script.now))) }
    ensures not_empty { IfSome result
        (λ start. 0 < statement_len (elements (drop start script.now))) }
    ensures begins { IfSome result (λ start. from ≤ start) }
    ensures within { IfSome result (λ start. start < length script.now) }
{
    let mut at = from;
    while at < script.len() {
        let element = element_at(script, at);
        if is_content(element.kind) {
            return Some(at);
        }
        at += element.len;
    }
    None
}

/// Where the statement that has begun before a byte ends: at the next semicolon, or at the end.
#[tactic(auto, using(crate::proofs::Statements::statement_steps))]
fn statement_end(script: &[u8], from: usize) -> usize
    requires { from ≤ length script.now }
    ensures value { result ≡ from + statement_len (elements (drop from script.now)) }
    ensures rest { statements_in true from (elements (drop from script.now))
        ≡ statements_in false (min (result + 1) (length script.now))
        (elements (drop (min (result + 1) (length script.now)) script.now)) }
    ensures within { result ≤ length script.now }
{
    let mut at = from;
    while at < script.len() {
        let element = element_at(script, at);
        if is_end(element.kind) {
            return at;
        }
        at += element.len;
    }
    at
}

/// Whether such an element can begin a statement.
fn is_content(kind: Kind) -> bool
    ensures { result ≡ is_content kind }
{
    match kind {
        Kind::Space | Kind::Comment | Kind::Semicolon => false,
        Kind::Quoted | Kind::Unclosed | Kind::Other => true,
    }
}

/// Whether such an element ends a statement.
fn is_end(kind: Kind) -> bool
    ensures { result ≡ is_end kind }
{
    match kind {
        Kind::Semicolon => true,
        Kind::Space | Kind::Comment | Kind::Quoted | Kind::Unclosed | Kind::Other => false,
    }
}
