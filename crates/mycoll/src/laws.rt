ghost use Rattle.std.specs.Prelude.{◌≡◌, ◌++◌, ℕ, All, List, Ok, Option, drop};
ghost use Rattle.mc_base.specs.declared.span.Span.{Span};
ghost use Rattle.mc_book.specs.BookOutcome.{IsBuilt};
ghost use Rattle.mc_catalog.specs.Limits.{built_in_count};
ghost use Rattle.mc_catalog.specs.declared.catalog.Catalog.{Catalog};
ghost use Rattle.mycoll.specs.Answers.{AreAll, AreFirst, IsAnswer};
ghost use Rattle.mc_token.specs.Statements.{statements};
ghost use Rattle.mycoll.specs.Costs.{Cost, Costs};
ghost use Rattle.mycoll.specs.Outcome.{named_catalog};
ghost use Rattle.mycoll.specs.World.{World, State};
ghost use Rattle.mycoll.specs.declared.said.Said.{Said};

use mc_parse::outcomes_are_unique;

/// The law of answers: a statement has at most one answer, and leaves at most one state. So a
/// script has at most one list of answers, and the answers to some first statements are the first
/// ones of it. That there is an answer `run` alone shows, by giving it. A script that is answered
/// has one cost.
pub fn answers_law()
    ensures once { (w : World) (before : State) (script : List ℕ) (statement : Span)
        (said other : Said) (after behind : State)
        → IsAnswer w before script statement said after
        → IsAnswer w before script statement other behind
        → (said ≡ other) × (after ≡ behind) }
    ensures all { (w : World) (s : State) (script : List ℕ) (said other : List Said)
        → (these : AreAll w s script said) → (those : AreAll w s script other)
        → (said ≡ other) × (these.behind ≡ those.behind) }
    ensures first { (w : World) (s : State) (script : List ℕ) (said all : List Said)
        → AreFirst w s script said → AreAll w s script all
        → (more : List Said) × (all ≡ said ++ more) }
    ensures cost { (w : World) (s : State) (script : List ℕ) (said : List Said)
        → AreAll w s script said
        → (cost : Cost) × Costs w s script (statements script 0) cost }
    ensures one_cost { (w : World) (s : State) (script : List ℕ) (one other : Cost)
        → Costs w s script (statements script 0) one
        → Costs w s script (statements script 0) other → one ≡ other }
{
    outcomes_are_unique();
}

/// The law of accepted catalogs: the collations that one declares are of built kinds. So no file of
/// a collation is refused as `NotBuilt` by a run.
pub fn catalog_law()
    ensures { (files : List ℕ → Option (List ℕ)) (name : Option (List ℕ)) (catalog : Catalog)
        → named_catalog files name ≡ Ok catalog
        → All IsBuilt (drop built_in_count catalog.collations) }
{}
