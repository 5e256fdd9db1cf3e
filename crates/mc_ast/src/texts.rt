ghost use Rattle.std.specs.Prelude.{List};
ghost use Rattle.mc_token.specs.TokenLaws.{HaveUtf8Texts};
ghost use Rattle.mc_token.specs.declared.lexeme.Token.{Token};
ghost use Rattle.mc_ast.specs.Texts.{HasUtf8Strings};
ghost use Rattle.mc_ast.specs.Trees.{IsTreeOf};
ghost use Rattle.mc_ast.specs.declared.statement.Statement.{Statement};

/// The law: where the texts of the tokens' strings are UTF-8, those of their tree are.
pub fn texts_law()
    ensures { (tokens : List Token) (tree : Statement)
        → IsTreeOf tokens tree → HaveUtf8Texts tokens → HasUtf8Strings tree }
{}
