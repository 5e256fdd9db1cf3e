ghost use Rattle.mc_charset.specs.Chars.{IsWellFormed, Spells};
ghost use Rattle.mc_eval.specs.Outcomes.{IsValue};
ghost use Rattle.mc_eval.specs.Texts.{spelled, text_or_null};
ghost use Rattle.mc_strfun.specs.Joins.{spelled_within};
ghost use Rattle.mc_values.specs.Values.{greatest_string, within_limit};
ghost use Rattle.std.specs.Option.{option_and_then};
ghost use Rattle.std.specs.Prelude.{◌≡◌, ◌≤◌, IfSome, List, Option, ℕ, length};

use mc_base::Text;
use mc_charset::Charset;
use mc_values::{Value, within_limit};

/// The text of a set that an operation gives; NULL where there is none.
pub(crate) fn text_or_null(set: Charset, text: Option<Text>) -> Value
    requires well_formed { IfSome text (IsWellFormed set) }
    requires short { IfSome text (λ kept. length kept ≤ greatest_string) }
    ensures { IsValue (text_or_null set text) result }
{
    match text {
        Some(text) => Value::Str { charset: set, text },
        None => Value::Null,
    }
}

/// The same of the text that a function of `mc_strfun` gives.
#[tactic(auto, using(crate::proofs::Spelled::well_formed, crate::proofs::Spelled::short))]
pub(crate) fn within(set: Charset, text: Option<Text>) -> Value
    ensures { (codes : Option (List ℕ)) → text ≡ option_and_then (spelled_within set) codes →
        IsValue (text_or_null set (option_and_then (spelled_within set) codes)) result }
{
    match text {
        Some(text) => Value::Str { charset: set, text },
        None => Value::Null,
    }
}

/// The same of the text that some characters spell.
#[tactic(auto, using(crate::proofs::Spelled::well_formed, crate::proofs::Spelled::short))]
pub(crate) fn spelled(set: Charset, text: Option<Text>) -> Value
    ensures { (codes : List ℕ) → text ≡ spelled_within set codes →
        IsValue (spelled set codes) result }
{
    match text {
        Some(text) => Value::Str { charset: set, text },
        None => Value::Null,
    }
}

/// The same of bytes within the greatest length, which some characters spell.
pub(crate) fn repeated(set: Charset, text: Option<Text>) -> Value
    ensures { (codes bytes : List ℕ) → Spells set codes bytes → text ≡ within_limit bytes →
        IsValue (spelled set codes) result }
{
    spelled(set, text)
}

/// The text of a set as a value; NULL where it is too long.
pub(crate) fn limited(set: Charset, text: Text) -> Value
    ensures { (codes : List ℕ) → Spells set codes text → IsValue (spelled set codes) result }
{
    match within_limit(text) {
        Some(text) => Value::Str { charset: set, text },
        None => Value::Null,
    }
}
