ghost use Rattle.std.specs.Prelude.{◌≡◌};
ghost use Rattle.std.specs.Char.{is_ascii_uppercase};
ghost use Rattle.std.specs.List.{list_any};
ghost use Rattle.mc_token.specs.Kinds.{introduced_set, set_spelled, IsKind, IsNoKeyword};

use crate::keyword::keyword_named;
use crate::{Keyword, Lexeme, Symbol};
use mc_charset::{Charset, charset_by_name};

/// What a token is, without its text: what a parser looks at, told once for each token.
#[derive(Clone, Copy, Debug, PartialEq, Eq)]
pub enum TokenKind {
    /// A word that the grammar asks for by name.
    Keyword(Keyword),
    /// `_` and the name of this character set: an introducer before a string, elsewhere a name.
    Introducer(Charset),
    /// Any other word.
    Word,
    /// A name between backquotes.
    Name,
    /// A whole number.
    Int,
    /// A string.
    Str,
    /// A string with `N` before it.
    National,
    /// A hexadecimal literal.
    Hex,
    /// A mark.
    Sym(Symbol),
}

/// What a lexeme is, for a parser: its words are compared once.
pub fn kind_of(lexeme: &Lexeme) -> TokenKind
    ensures { IsKind result lexeme.now }
{
    match lexeme {
        Lexeme::Word(word) => kind_of_word(word.as_slice()),
        Lexeme::Name(_) => TokenKind::Name,
        Lexeme::Int(_) => TokenKind::Int,
        Lexeme::Str(_) => TokenKind::Str,
        Lexeme::National(_) => TokenKind::National,
        Lexeme::Hex(_) => TokenKind::Hex,
        Lexeme::Sym(symbol) => TokenKind::Sym(*symbol),
    }
}

/// What a word is.
fn kind_of_word(word: &[u8]) -> TokenKind
    ensures { IsKind result (Lexeme.Word word.now) }
{
    match keyword_named(word) {
        Some(keyword) => TokenKind::Keyword(keyword),
        None => kind_of_other_word(word),
    }
}

/// What a word is that is no keyword.
fn kind_of_other_word(word: &[u8]) -> TokenKind
    requires { IsNoKeyword word.now }
    ensures { IsKind result (Lexeme.Word word.now) }
{
    match introduced_set(word) {
        Some(set) => TokenKind::Introducer(set),
        None => TokenKind::Word,
    }
}

/// The character set whose name stands behind the `_` of a word.
fn introduced_set(word: &[u8]) -> Option<Charset>
    ensures { result ≡ introduced_set word.now }
{
    match word {
        [b'_', name @ ..] => set_spelled(name),
        _ => None,
    }
}

/// The character set that is named so, in lower case.
#[tactic(auto, using(crate::proofs::Introducers::spelled_by))]
fn set_spelled(name: &[u8]) -> Option<Charset>
    ensures { result ≡ set_spelled name.now }
{
    if has_capital(name) {
        return None;
    }
    charset_by_name(name)
}

/// Whether a letter from A to Z is among these bytes.
fn has_capital(bytes: &[u8]) -> bool
    ensures { result ≡ list_any is_ascii_uppercase bytes.now }
{
    bytes.iter().any(|byte| byte.is_ascii_uppercase())
}
