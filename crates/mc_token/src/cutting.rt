ghost use Rattle.std.specs.Prelude.{◌≡◌, ◌↔◌, ℕ, List, drop};
ghost use Rattle.mc_token.specs.Elements.{elements};
ghost use Rattle.mc_token.specs.Cut.{Cut};
ghost use Rattle.mc_token.specs.Parts.{parts_of, statements_of};
ghost use Rattle.mc_token.specs.Statements.{statements};
ghost use Rattle.mc_token.specs.declared.element.Element.{Element};

/// The law of the elements of a script: they are the one list of parts that, joined, are the
/// script, each what its kind says of its bytes and of what is behind them (MySQL 8.0 manual,
/// 9.1.1 and 9.7).
pub fn cut_law()
    ensures cut { (script : List ℕ) (parts : List Element)
        → Cut script parts ↔ parts ≡ elements script }
{}

/// The law of the statements of a script from a place on: its elements split at the semicolons,
/// each part from its first element of content on, and the parts without content dropped.
#[tactic(auto, using(crate::proofs::Parts::statements_are))]
pub fn statements_law()
    ensures parts { (script : List ℕ) (from : ℕ)
        → statements script from ≡ statements_of from (parts_of (elements (drop from script))) }
{}
