ghost use Rattle.std.specs.Prelude.{◌≡◌, List, [], map};
ghost use Rattle.mc_token.specs.declared.lexeme.Token.{Token};
ghost use Rattle.mc_grammar.specs.Reading.{Forest, IsReading};
ghost use Rattle.mc_grammar.specs.Nest.{Nested, nested};
ghost use Rattle.mc_sql.specs.Rules.{Rule, Alternative};
ghost use Rattle.mc_sql.specs.Statements.{statements};
ghost use Rattle.mc_sql.specs.Nest.{deeper, nests};

/// The law: a token of a reading stands at the level of its nest, which is how many parentheses are
/// open there, that token included, with the NOT and unary minus whose operands have not ended.
pub fn levels_are_nests()
    ensures { (r : Rule) (tokens : List Token) (reading : Forest Alternative Token)
        → IsReading statements r tokens reading
        → map (λ (n : Nested Token). n.level) (nested deeper 0 [] reading) ≡ nests reading }
{}
