ghost use Rattle.std.specs.Prelude.{◌≡◌, List};
ghost use Rattle.mc_token.specs.declared.lexeme.Token.{Token};
ghost use Rattle.mc_grammar.specs.Reading.{Forest, IsReading};
ghost use Rattle.mc_sql.specs.Rules.{Alternative, statement};
ghost use Rattle.mc_sql.specs.Statements.{statements};
ghost use Rattle.mc_ast.specs.declared.statement.Statement.{Statement};
ghost use Rattle.mc_ast.specs.Trees.{IsTreeOf};

use mc_sql::statements_read_once;

/// The law: a list of tokens has at most one tree, spans included.
pub fn trees_are_unique()
    ensures { (tokens : List Token) (tree other : Statement)
        → IsTreeOf tokens tree → IsTreeOf tokens other → tree ≡ other }
{
    statements_read_once();
}

/// The law: tokens that the grammar reads have a tree.
pub fn readings_have_trees()
    ensures { (tokens : List Token) (reading : Forest Alternative Token)
        → IsReading statements statement tokens reading
        → (tree : Statement) × IsTreeOf tokens tree }
{}
