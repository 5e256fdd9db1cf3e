ghost use Rattle.std.specs.Prelude.{◌≡◌, ◌↔◌, ◌++◌, ◌∷◌, ℕ, ◌≤◌, List, Ok, Err, drop, length};
ghost use Rattle.std.specs.Str.{IsUtf8};
ghost use Rattle.mc_base.specs.declared.span.Span.{Span};
ghost use Rattle.mc_token.specs.Tokens.{all_tokens, tokens_of};
ghost use Rattle.mc_token.specs.Contents.{Says};
ghost use Rattle.mc_token.specs.Cover.{AreTokens, Cover, EndsWithin, StopsAt};
ghost use Rattle.mc_token.specs.Hexadecimal.{bytes_of_digits, values_of, two_digits};
ghost use Rattle.mc_token.specs.Lexemes.{content};
ghost use Rattle.mc_token.specs.Spelled.{IsSpelled};
ghost use Rattle.mc_token.specs.Statements.{statements};
ghost use Rattle.mc_token.specs.Strings.{IsContent, IsQuote};
ghost use Rattle.mc_token.specs.TokenLaws.{AreInOrder, HaveFoldedTexts, HaveUtf8Texts};
ghost use Rattle.mc_token.specs.declared.lexeme.Token.{Token};
ghost use Rattle.mc_token.specs.declared.spelling.Shape.{Shape};

use crate::LexFault;

/// The laws of tokens. Those of a statement, however many, are the one list of spans that covers
/// all of it but spaces and comments, each token spelled as its kind says, before all that the
/// script has behind it; else such a list covers it up to the byte of the fault, where nothing
/// begins. In a statement of a script nothing crosses its end that begins where they come to. Of
/// the fronts of some bytes one alone spells a token, so each token is the longest at its place.
/// The tokens stand inside the statement, one behind the other. Words and names are in lower case,
/// and if the script is UTF-8, so is the text of each string. The text of a string is what the
/// bytes between its quotes stand for: plain bytes for themselves, doubled quotes for one, escapes
/// for theirs. The bytes of a hexadecimal literal, two digits each, have its digits, a 0 before an
/// odd number of them.
pub fn token_laws()
    ensures cover { (script : List ℕ) (statement : Span) (tokens : List Token)
        → statement.start ≤ statement.end → statement.end ≤ length script
        → all_tokens script statement ≡ Ok tokens
        ↔ AreTokens statement.end statement.start (drop statement.start script) tokens }
    ensures fault { (script : List ℕ) (statement : Span) (place : ℕ)
        → statement.start ≤ statement.end → statement.end ≤ length script
        → all_tokens script statement ≡ Err (LexFault.NoToken place)
        ↔ StopsAt statement.end statement.start (drop statement.start script) place }
    ensures within { (script : List ℕ) (from : ℕ) (statement : Span) (more : List Span)
        (tokens : List Token) (place : ℕ) (behind : List ℕ)
        → statements script from ≡ statement ∷ more
        → Cover statement.start (drop statement.start script) tokens place behind
        → EndsWithin statement.end place behind }
    ensures one_spelling { (shape other : Shape) (taken behind front rest : List ℕ)
        → IsSpelled shape taken behind → IsSpelled other front rest
        → taken ++ behind ≡ front ++ rest → (shape ≡ other) × (taken ≡ front) }
    ensures in_order { (script : List ℕ) (statement : Span) (tokens : List Token)
        → statement.start ≤ statement.end → statement.end ≤ length script
        → tokens_of script statement ≡ Ok tokens → AreInOrder statement.start statement.end tokens }
    ensures folded { (script : List ℕ) (statement : Span) (tokens : List Token)
        → statement.start ≤ statement.end → statement.end ≤ length script
        → tokens_of script statement ≡ Ok tokens → HaveFoldedTexts tokens }
    ensures texts { (script : List ℕ) (statement : Span) (tokens : List Token)
        → IsUtf8 script → tokens_of script statement ≡ Ok tokens → HaveUtf8Texts tokens }
    ensures content { (quote : ℕ) (inside text : List ℕ)
        → IsQuote quote → IsContent quote inside
        → Says quote inside text ↔ text ≡ content quote inside }
    ensures digits { (digits : List ℕ) → two_digits (bytes_of_digits digits) ≡ values_of digits }
{}
