ghost use Rattle.std.specs.Prelude.{◌≡◌, List};
ghost use Rattle.mc_token.specs.declared.lexeme.Token.{Token};
ghost use Rattle.mc_grammar.specs.Grammar.{Symbol};
ghost use Rattle.mc_grammar.specs.Reading.{Forest, tokens_of, Fits};
ghost use Rattle.mc_grammar.specs.Completions.{completion};
ghost use Rattle.mc_sql.specs.Classes.{Class};
ghost use Rattle.mc_sql.specs.Rules.{Rule, Alternative};
ghost use Rattle.mc_sql.specs.Statements.{statements};
ghost use Rattle.mc_sql.specs.Completions.{completions};

/// The law: the symbols that are left at any place inside a rule read their completion.
pub fn places_are_completed()
    ensures { (symbols : List (Symbol Class Rule)) → (reading : Forest Alternative Token)
        × (Fits statements symbols reading
        × (tokens_of reading ≡ completion completions symbols)) }
{}
