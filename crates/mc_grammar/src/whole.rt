ghost use Rattle.std.specs.Prelude.{◌≡◌, ℕ, Bool, List, [], ◌∷◌};
ghost use Rattle.mc_grammar.specs.Grammar.{Grammar};
ghost use Rattle.mc_grammar.specs.Reading.{Forest, bare, leaf, node, tokens_of};
ghost use Rattle.mc_grammar.specs.Ahead.{Ahead, Tables};
ghost use Rattle.mc_grammar.specs.Places.{Done};
ghost use Rattle.mc_grammar.specs.Room.{Admitted, room_language, whole_rule};
ghost use Rattle.mc_grammar.specs.Goes.{Whole};

/// The law: where a descent has read its rule at the top and no tokens are left, they have a
/// reading within the limit, and the descent's value is that of the reading. Public source: Aho,
/// Lam, Sethi and Ullman, Compilers, 4.4.
pub fn whole_readings_have_values<K, R, A, T, V>()
    ensures { (g : Grammar K R A T) (t : Tables K R) (deeper : A → List Bool)
        (token_value : T → V) (node_value : A → List T → List V → V)
        (after : Ahead (Admitted K)) (limit look : ℕ)
        (r : R) (view : Forest A T → List V) (tokens : List T) (value : V)
        → view bare ≡ []
        → ((x : T) (f : Forest A T) → view (leaf x f) ≡ token_value x ∷ view f)
        → ((a : A) (x f : Forest A T)
        → view (node a x f) ≡ node_value a (tokens_of x) (view x) ∷ view f)
        → Done (room_language g t deeper token_value node_value) after look
        (whole_rule limit r) tokens [] value
        → Whole g deeper limit r view tokens value }
{}
