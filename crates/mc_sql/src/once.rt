ghost use Rattle.std.specs.Prelude.{◌≡◌, List};
ghost use Rattle.mc_token.specs.declared.lexeme.Token.{Token};
ghost use Rattle.mc_grammar.specs.Reading.{Forest, IsReading};
ghost use Rattle.mc_sql.specs.Rules.{Alternative, statement};
ghost use Rattle.mc_sql.specs.Statements.{statements};

/// The law: a list of tokens has at most one reading as a statement.
pub fn statements_read_once()
    ensures { (tokens : List Token) (f h : Forest Alternative Token)
        → IsReading statements statement tokens f
        → IsReading statements statement tokens h → f ≡ h }
{}
