ghost use Rattle.std.specs.Prelude.{◌≡◌, not, length, drop, IsTrue, MatchOption};
ghost use Rattle.mc_token.specs.Keywords.{keyword_text};
ghost use Rattle.mc_token.specs.declared.lexeme.Lexeme.TheVariants as lexeme;
ghost use Rattle.mc_token.specs.declared.lexeme.Symbol.TheVariants as sign;
ghost use Rattle.mc_sql.specs.Classes.{is_lexeme_of};
ghost use Rattle.mc_sql.specs.Classes as class;
ghost use Rattle.mc_ast.specs.Values.{lexeme_text, lexeme_number};
ghost use Rattle.mc_parse.specs.Place.{
  is_at,
  is_missing,
  is_name_kind,
  is_intro_kind,
  is_called_kind,
  span_at,
  text_at,
  number_at,
  IsNext,
  IsTextOf,
};

use mc_base::Span;
use mc_token::{Keyword, Lexeme, Symbol, Token, TokenKind, kind_of};

/// Where a parser stands: the tokens that are left, and the kind of the next one, told once.
#[derive(Clone, Copy)]
pub(crate) struct Place<'a> {
    kind: Option<TokenKind>,
    tokens: &'a [Token],
    ghost known: { IsTrue (is_at kind tokens.now) },
}

impl<'a> Place<'a> {
    /// The place before these tokens.
    pub(crate) fn new(tokens: &'a [Token]) -> Place<'a>
        ensures { result.tokens.now ≡ tokens.now }
    {
        Place {
            kind: kind_at(tokens),
            tokens,
        }
    }

    /// How many tokens are left.
    pub(crate) fn left(self) -> usize
        ensures { result ≡ length self.entry.tokens.now }
    {
        self.tokens.len()
    }

    /// Where the next token stands.
    pub(crate) fn span(self) -> Span
        ensures { result ≡ span_at self.entry.tokens.now }
    {
        match self.tokens {
            [next, ..] => next.span,
            [] => Span { start: 0, end: 0 },
        }
    }

    /// The place behind the next token.
    fn behind(self) -> Place<'a>
        ensures { result.tokens.now ≡ drop 1 self.entry.tokens.now }
    {
        match self.tokens {
            [_, rest @ ..] => Place::new(rest),
            [] => self,
        }
    }

    /// The place behind this word, if it is next.
    #[tactic(auto, using(crate::proofs::TokenKinds::keyword_ways))]
    pub(crate) fn keyword(self, keyword: Keyword) -> Option<Place<'a>>
        ensures { MatchOption result
            (IsTrue (is_missing (class.word (keyword_text keyword)) self.entry.tokens.now))
            (λ place. IsNext (lexeme.Word (keyword_text keyword)) self.entry.tokens.now
            place.tokens.now) }
    {
        if self.kind == Some(TokenKind::Keyword(keyword)) {
            Some(self.behind())
        } else {
            None
        }
    }

    /// The place behind this mark, if it is next.
    #[tactic(auto, using(crate::proofs::TokenKinds::mark_ways))]
    pub(crate) fn mark(self, symbol: Symbol) -> Option<Place<'a>>
        ensures { MatchOption result
            (IsTrue (is_missing (class.mark symbol) self.entry.tokens.now))
            (λ place. IsNext (lexeme.Sym symbol) self.entry.tokens.now place.tokens.now) }
    {
        if self.kind == Some(TokenKind::Sym(symbol)) {
            Some(self.behind())
        } else {
            None
        }
    }

    /// What the next token says.
    fn text(self) -> &'a [u8]
        ensures { result.now ≡ text_at self.entry.tokens.now }
    {
        match self.tokens {
            [next, ..] => text_of(&next.kind),
            [] => b"",
        }
    }

    /// The number of the next token, or 0.
    fn number(self) -> i64
        ensures { result ≡ number_at self.entry.tokens.now }
    {
        match self.tokens {
            [next, ..] => number_of(&next.kind),
            [] => 0,
        }
    }

    /// A name, if it is next, and the place behind it.
    #[tactic(auto, using(crate::proofs::TokenKinds::name_ways))]
    pub(crate) fn name(self) -> Option<(&'a [u8], Place<'a>)>
        ensures { MatchOption result (IsTrue (is_missing class.name self.entry.tokens.now))
            (λ found. IsTextOf class.name self.entry.tokens.now found.1.tokens.now found.0.now) }
    {
        if is_name(self.kind) {
            Some((self.text(), self.behind()))
        } else {
            None
        }
    }

    /// A number, if it is next, and the place behind it.
    #[tactic(auto, using(crate::proofs::TokenKinds::int_ways))]
    pub(crate) fn int(self) -> Option<(i64, Place<'a>)>
        ensures { MatchOption result (IsTrue (is_missing class.int self.entry.tokens.now))
            (λ found. IsNext (lexeme.Int found.0) self.entry.tokens.now found.1.tokens.now) }
    {
        if self.kind == Some(TokenKind::Int) {
            Some((self.number(), self.behind()))
        } else {
            None
        }
    }

    /// Whether a parenthesis that opens stands behind the next token, whose kind isn't told for it.
    pub(crate) fn opens_behind(self) -> bool
        ensures { result ≡ not (is_missing (class.mark sign.LeftParen)
            (drop 1 self.entry.tokens.now)) }
    {
        match self.tokens {
            [_, next, ..] => is_open(&next.kind),
            _ => false,
        }
    }

    /// A string, if it is next, and the place behind it.
    #[tactic(auto, using(crate::proofs::TokenKinds::str_ways))]
    pub(crate) fn str(self) -> Option<(&'a [u8], Place<'a>)>
        ensures { MatchOption result (IsTrue (is_missing class.str self.entry.tokens.now))
            (λ found. IsNext (lexeme.Str found.0.now) self.entry.tokens.now found.1.tokens.now) }
    {
        if self.kind == Some(TokenKind::Str) {
            Some((self.text(), self.behind()))
        } else {
            None
        }
    }
}

/// The kind of the next token, if there is one.
#[tactic(auto, using(crate::proofs::TokenKinds::kind_told))]
fn kind_at(tokens: &[Token]) -> Option<TokenKind>
    ensures { IsTrue (is_at result tokens.now) }
{
    match tokens {
        [next, ..] => Some(kind_of(&next.kind)),
        [] => None,
    }
}

/// Whether a lexeme is a parenthesis that opens.
fn is_open(lexeme: &Lexeme) -> bool
    ensures { result ≡ is_lexeme_of (class.mark sign.LeftParen) lexeme.now }
{
    match lexeme {
        Lexeme::Sym(Symbol::LeftParen) => true,
        _ => false,
    }
}

/// Whether a token of this kind is a name.
fn is_name(kind: Option<TokenKind>) -> bool
    ensures { result ≡ is_name_kind kind }
{
    match kind {
        Some(TokenKind::Keyword(keyword)) => !keyword.is_reserved(),
        Some(TokenKind::Introducer(_) | TokenKind::Word | TokenKind::Name) => true,
        _ => false,
    }
}

/// The text of a lexeme; of a number or a mark, none.
fn text_of(lexeme: &Lexeme) -> &[u8]
    ensures { result.now ≡ lexeme_text lexeme.now }
{
    match lexeme {
        Lexeme::Word(text) => text.as_slice(),
        Lexeme::Name(text) => text.as_slice(),
        Lexeme::Str(text) => text.as_slice(),
        Lexeme::National(text) => text.as_slice(),
        Lexeme::Hex(bytes) => bytes.as_slice(),
        _ => b"",
    }
}

/// The number of a lexeme; of any other, 0.
fn number_of(lexeme: &Lexeme) -> i64
    ensures { result ≡ lexeme_number lexeme.now }
{
    match lexeme {
        Lexeme::Int(number) => *number,
        _ => 0,
    }
}

// What only strings and calls begin with.

impl<'a> Place<'a> {
    /// A string with `N` before it, if it is next, and the place behind it.
    #[tactic(auto, using(crate::proofs::CallKinds::national_ways))]
    pub(crate) fn national(self) -> Option<(&'a [u8], Place<'a>)>
        ensures { MatchOption result (IsTrue (is_missing class.national self.entry.tokens.now))
            (λ found. IsNext (lexeme.National found.0.now) self.entry.tokens.now
            found.1.tokens.now) }
    {
        if self.kind == Some(TokenKind::National) {
            Some((self.text(), self.behind()))
        } else {
            None
        }
    }

    /// The bytes of a hexadecimal literal, if it is next, and the place behind it.
    #[tactic(auto, using(crate::proofs::CallKinds::hex_ways))]
    pub(crate) fn hex(self) -> Option<(&'a [u8], Place<'a>)>
        ensures { MatchOption result (IsTrue (is_missing class.hex self.entry.tokens.now))
            (λ found. IsNext (lexeme.Hex found.0.now) self.entry.tokens.now found.1.tokens.now) }
    {
        if self.kind == Some(TokenKind::Hex) {
            Some((self.text(), self.behind()))
        } else {
            None
        }
    }

    /// An introducer with its `_`, if it is next, and the place behind it.
    #[tactic(auto, using(crate::proofs::CallKinds::intro_ways))]
    pub(crate) fn intro(self) -> Option<(&'a [u8], Place<'a>)>
        ensures { MatchOption result (IsTrue (is_missing class.intro self.entry.tokens.now))
            (λ found. IsTextOf class.intro self.entry.tokens.now found.1.tokens.now found.0.now) }
    {
        if is_intro(self.kind) {
            Some((self.text(), self.behind()))
        } else {
            None
        }
    }

    /// The word of a call with its arguments alone, if it is next, and the place behind it.
    #[tactic(auto, using(crate::proofs::CallKinds::called_ways))]
    pub(crate) fn called(self) -> Option<(&'a [u8], Place<'a>)>
        ensures { MatchOption result (IsTrue (is_missing class.called self.entry.tokens.now))
            (λ found. IsTextOf class.called self.entry.tokens.now found.1.tokens.now found.0.now) }
    {
        if is_called(self.kind) {
            Some((self.text(), self.behind()))
        } else {
            None
        }
    }
}

/// Whether a token of this kind is an introducer.
fn is_intro(kind: Option<TokenKind>) -> bool
    ensures { result ≡ is_intro_kind kind }
{
    match kind {
        Some(TokenKind::Introducer(_)) => true,
        _ => false,
    }
}

/// Whether a token of this kind is the word of a call with its arguments alone.
fn is_called(kind: Option<TokenKind>) -> bool
    ensures { result ≡ is_called_kind kind }
{
    match kind {
        Some(TokenKind::Keyword(Keyword::Mod)) => true,
        Some(TokenKind::Keyword(Keyword::Cast)) => false,
        Some(TokenKind::Keyword(keyword)) => !keyword.is_reserved(),
        Some(TokenKind::Introducer(_) | TokenKind::Word) => true,
        _ => false,
    }
}
