ghost use Rattle.std.specs.Prelude.{◌≡◌, ℕ, Bool, List};
ghost use Rattle.mc_grammar.specs.Grammar.{Grammar};
ghost use Rattle.mc_grammar.specs.Answers.{HasReading, HasNoReading, HasDeepReading};

/// The laws of the three answers of a parser, whatever the grammar: no two of them fit one list of
/// tokens, and each has one place in it. Public source: Aho, Lam, Sethi and Ullman, Compilers,
/// 4.1.3.
pub fn answers_exclude_each_other<K, R, A, T>()
    ensures reading_or_none { (g : Grammar K R A T) (deeper : A → List Bool) (limit : ℕ) (r : R)
        (tokens front rest : List T) → HasReading g deeper limit r tokens
        → HasNoReading g deeper limit r tokens front rest → ⊥ }
    ensures reading_or_deep { (g : Grammar K R A T) (deeper : A → List Bool) (limit : ℕ) (r : R)
        (tokens front rest : List T) → HasReading g deeper limit r tokens
        → HasDeepReading g deeper limit r tokens front rest → ⊥ }
    ensures none_or_deep { (g : Grammar K R A T) (deeper : A → List Bool) (limit : ℕ) (r : R)
        (tokens f v h w : List T) → HasNoReading g deeper limit r tokens f v
        → HasDeepReading g deeper limit r tokens h w → ⊥ }
    ensures one_none { (g : Grammar K R A T) (deeper : A → List Bool) (limit : ℕ) (r : R)
        (tokens f v h w : List T) → HasNoReading g deeper limit r tokens f v
        → HasNoReading g deeper limit r tokens h w → (f ≡ h) × (v ≡ w) }
    ensures one_deep { (g : Grammar K R A T) (deeper : A → List Bool) (limit : ℕ) (r : R)
        (tokens f v h w : List T) → HasDeepReading g deeper limit r tokens f v
        → HasDeepReading g deeper limit r tokens h w → (f ≡ h) × (v ≡ w) }
{}
