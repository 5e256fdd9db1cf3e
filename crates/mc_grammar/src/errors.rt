ghost use Rattle.std.specs.Prelude.{ℕ, Bool, List, [], ◌∷◌, ◌++◌, None};
ghost use Rattle.mc_grammar.specs.Grammar.{Grammar};
ghost use Rattle.mc_grammar.specs.Reading.{Forest, IsReading};
ghost use Rattle.mc_grammar.specs.Ahead.{Tables, Covers};
ghost use Rattle.mc_grammar.specs.Places.{Done, Fails, IsTooDeep};
ghost use Rattle.mc_grammar.specs.Room.{room_language, whole_rule};
ghost use Rattle.mc_grammar.specs.Goes.{GoesOn, GoesOnWithin};

/// The law: where a descent fails at the top, the tokens that it took go on within the limit, and
/// together with the next one they do not go on. Public source: Aho, Lam, Sethi and Ullman,
/// Compilers, 4.1.3.
pub fn failures_come_first<K, R, A, T, V>()
    ensures { (g : Grammar K R A T) (t : Tables K R) (deeper : A → List Bool)
        (token_value : T → V) (node_value : A → List T → List V → V)
        → Covers g t → (limit : ℕ) (r : R) (tokens : List T)
        (next : T) (behind : List T)
        → (o : Fails (room_language g t deeper token_value node_value) (None ∷ [])
        (whole_rule limit r) tokens (next ∷ behind))
        → GoesOnWithin g deeper limit r o.front
        × (GoesOn g r (o.front ++ (next ∷ [])) → ⊥) }
{}

/// The law: where a descent fails at the end of the tokens, they go on within the limit and have no
/// reading.
pub fn ends_come_first<K, R, A, T, V>()
    ensures { (g : Grammar K R A T) (t : Tables K R) (deeper : A → List Bool)
        (token_value : T → V) (node_value : A → List T → List V → V)
        → Covers g t → (limit : ℕ) (r : R) (tokens : List T)
        → Fails (room_language g t deeper token_value node_value) (None ∷ [])
        (whole_rule limit r) tokens []
        → GoesOnWithin g deeper limit r tokens
        × ((reading : Forest A T) → IsReading g r tokens reading → ⊥) }
{}

/// The law: where a descent has read its rule at the top and tokens are left, it is the same.
pub fn left_tokens_come_first<K, R, A, T, V>()
    ensures { (g : Grammar K R A T) (t : Tables K R) (deeper : A → List Bool)
        (token_value : T → V) (node_value : A → List T → List V → V)
        → Covers g t → (limit : ℕ) (r : R) (tokens : List T)
        (next : T) (behind : List T) (value : V)
        → (o : Done (room_language g t deeper token_value node_value) (None ∷ []) 1
        (whole_rule limit r) tokens (next ∷ behind) value)
        → GoesOnWithin g deeper limit r o.front
        × (GoesOn g r (o.front ++ (next ∷ [])) → ⊥) }
{}

/// The law: where a descent is too deep at the top, the tokens that it took go on within the limit,
/// and together with the next one they go on, but not within it.
pub fn depths_come_first<K, R, A, T, V>()
    ensures { (g : Grammar K R A T) (t : Tables K R) (deeper : A → List Bool)
        (token_value : T → V) (node_value : A → List T → List V → V) → Covers g t
        → (limit : ℕ) (r : R)
        (tokens rest : List T)
        → (o : IsTooDeep (room_language g t deeper token_value node_value) (None ∷ [])
        (whole_rule limit r) tokens rest)
        → GoesOnWithin g deeper limit r o.front
        × GoesOn g r (o.front ++ (o.token ∷ []))
        × (GoesOnWithin g deeper limit r (o.front ++ (o.token ∷ [])) → ⊥) }
{}
