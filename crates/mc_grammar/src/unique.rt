ghost use Rattle.std.specs.Prelude.{◌≡◌, ℕ, List, []};
ghost use Rattle.mc_grammar.specs.Grammar.{Grammar};
ghost use Rattle.mc_grammar.specs.Reading.{Forest, IsReading};
ghost use Rattle.mc_grammar.specs.Ahead.{Tables, BeginsWhole};
ghost use Rattle.mc_grammar.specs.Apart.{ToldApart};

/// The law: where the alternatives of each rule are told apart, a list of tokens has at most one
/// reading by a rule that the end of the tokens may follow. Public source: Aho, Lam, Sethi and
/// Ullman, Compilers, 4.4.
pub fn readings_are_unique<K, R, A, T>()
    ensures { (g : Grammar K R A T) (t : Tables K R) (depth : ℕ) → ToldApart g t depth
        → (r : R) (tokens : List T) (f h : Forest A T) → BeginsWhole g t (t.follows r) []
        → IsReading g r tokens f → IsReading g r tokens h → f ≡ h }
{}
