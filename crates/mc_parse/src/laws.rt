ghost use Rattle.std.specs.Prelude.{◌≡◌, ℕ, List, Result};
ghost use Rattle.mc_token.specs.declared.lexeme.Token.{Token};
ghost use Rattle.mc_ast.specs.declared.statement.Statement.{Statement};
ghost use Rattle.mc_parse.specs.Outcome.{IsParsed, IsTold};
ghost use Rattle.mc_parse.specs.declared.fault.ParseFault.{ParseFault};

use mc_ast::trees_are_unique;
use mc_sql::statements_have_one_answer;

/// The law: one thing at most comes of the tokens of a statement, unless memory runs out: one tree,
/// or one fault at one place.
pub fn outcomes_are_unique()
    ensures { (tokens : List Token) (end : ℕ) (a b : Result Statement ParseFault)
        → IsParsed tokens end a → IsParsed tokens end b → IsTold a → IsTold b → a ≡ b }
{
    statements_have_one_answer();
    trees_are_unique();
}
