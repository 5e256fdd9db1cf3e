ghost use Rattle.std.specs.Prelude.{List};
ghost use Rattle.mc_grammar.specs.Grammar.{Symbol};
ghost use Rattle.mc_grammar.specs.Language.{Language, Reads};
ghost use Rattle.mc_grammar.specs.Completions.{Completions, completion, Complete};

/// The law: the symbols that are left at a place of a grammar read their completion.
pub fn symbols_are_completed<K, R, A, S, T, V>()
    ensures { (l : Language K R A S T V) (c : Completions K R T) → Complete l c
        → (symbols : List (Symbol K R)) → Reads l symbols (completion c symbols) }
{}
