ghost use Rattle.std.specs.Prelude.{◌≡◌};
ghost use Rattle.mc_token.specs.declared.lexeme.LexFault.TheVariants as fault;

use mc_base::{NoMemory, Span, Text};

/// What a token says: MySQL 8.0 manual, 9.1 and 9.2.
#[derive(Debug, Drop)]
pub enum Lexeme {
    /// A word, folded to lower case.
    Word(Text),
    /// A name between backquotes, folded to lower case.
    Name(Text),
    /// A whole number.
    Int(i64),
    /// A string, its quotes and escapes taken away.
    Str(Text),
    /// A string with `N` before it.
    National(Text),
    /// The bytes of a hexadecimal literal.
    Hex(Text),
    /// An operator or a mark.
    Sym(Symbol),
}

/// A mark or an operator, one for each spelling.
#[derive(Clone, Copy, Debug, PartialEq, Eq)]
pub enum Symbol {
    LeftParen,
    RightParen,
    Comma,
    Dot,
    Star,
    Plus,
    Minus,
    Percent,
    Eq,
    Ne,
    NeBang,
    Lt,
    Le,
    Gt,
    Ge,
    NullEq,
}

/// A token: what it says, and its bytes in the script.
#[derive(Debug, Drop)]
pub struct Token {
    pub span: Span,
    pub kind: Lexeme,
}

/// Why a statement has no tokens.
#[derive(Debug, Drop)]
pub enum LexFault {
    /// No token begins at this byte of the script, or one that isn't closed does.
    NoToken(u32),
    /// More than 2,048 tokens, each of them whole.
    TooManyTokens,
    /// Memory ran out.
    NoMemory,
}

impl From<NoMemory> for LexFault {
    ghost from_gives = { λ _ e. e ≡ fault.NoMemory };

    fn from(_error: NoMemory) -> LexFault {
        LexFault::NoMemory
    }
}
