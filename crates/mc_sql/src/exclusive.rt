ghost use Rattle.std.specs.Prelude.{◌≡◌, List};
ghost use Rattle.mc_token.specs.declared.lexeme.Token.{Token};
ghost use Rattle.mc_grammar.specs.Answers.{HasReading, HasNoReading, HasDeepReading};
ghost use Rattle.mc_sql.specs.Rules.{statement};
ghost use Rattle.mc_sql.specs.Statements.{statements};
ghost use Rattle.mc_sql.specs.Nest.{deeper, nest_limit};

/// The laws of the answers for a statement: a reading within the limit, no reading from a place on
/// and a place that is too deep exclude each other, and each place is one.
pub fn statements_have_one_answer()
    ensures reading_or_none { (tokens front rest : List Token)
        → HasReading statements deeper nest_limit statement tokens
        → HasNoReading statements deeper nest_limit statement tokens front rest → ⊥ }
    ensures reading_or_deep { (tokens front rest : List Token)
        → HasReading statements deeper nest_limit statement tokens
        → HasDeepReading statements deeper nest_limit statement tokens front rest → ⊥ }
    ensures none_or_deep { (tokens f v h w : List Token)
        → HasNoReading statements deeper nest_limit statement tokens f v
        → HasDeepReading statements deeper nest_limit statement tokens h w → ⊥ }
    ensures one_none { (tokens f v h w : List Token)
        → HasNoReading statements deeper nest_limit statement tokens f v
        → HasNoReading statements deeper nest_limit statement tokens h w
        → (f ≡ h) × (v ≡ w) }
    ensures one_deep { (tokens f v h w : List Token)
        → HasDeepReading statements deeper nest_limit statement tokens f v
        → HasDeepReading statements deeper nest_limit statement tokens h w
        → (f ≡ h) × (v ≡ w) }
{}
