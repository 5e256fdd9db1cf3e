ghost use Rattle.mc_charset.specs.Chars.{
  spell,
  chars,
  code_points,
  is_spelled,
  Spells,
  IsWellFormed,
};
ghost use Rattle.mc_charset.specs.Names.{same_set};
ghost use Rattle.mc_charset.specs.declared.charset.Charset.{Charset};
ghost use Rattle.mc_charset.specs.declared.charset.Charset.TheVariants.{
  Latin1,
  Utf8mb3,
  Utf8mb4,
  Ucs2,
  Utf16,
  Binary,
};
ghost use Rattle.std.specs.Prelude.{
  IsUtf8,
  IsTrue,
  All,
  ◌≡◌,
  ◌↔◌,
  ◌<◌,
  ℕ,
  List,
  Some,
  ◌++◌,
  [],
};

/// The laws of spellings: at most one list of characters spells a text, and `chars` is that list;
/// no spelling of a set is a proper prefix of another one of the set; joined lists spell joined
/// texts; a text is well formed exactly where its characters spell it; each character is a code
/// point.
pub fn chars_law()
    ensures one_list { (set : Charset) (codes others text : List ℕ)
        → Spells set codes text → Spells set others text → codes ≡ others }
    ensures decodes { (set : Charset) (codes text : List ℕ)
        → Spells set codes text → chars set text ≡ codes }
    ensures encodes { (set : Charset) (text : List ℕ)
        → IsWellFormed set text → Spells set (chars set text) text }
    ensures no_prefix { (set : Charset) (code other : ℕ) (front more : List ℕ)
        → spell set code ≡ Some front → spell set other ≡ Some (front ++ more)
        → (code ≡ other) × (more ≡ []) }
    ensures joins { (set : Charset) (codes more text rest : List ℕ)
        → Spells set codes text → Spells set more rest → Spells set (codes ++ more) (text ++ rest) }
    ensures fronts { (set : Charset) (codes front rest : List ℕ)
        → Spells set codes front → chars set (front ++ rest) ≡ codes ++ chars set rest }
    ensures tells { (set : Charset) (text : List ℕ)
        → IsTrue (is_spelled set text) ↔ IsWellFormed set text }
    ensures code_point { (set : Charset) (code : ℕ) (front : List ℕ)
        → spell set code ≡ Some front → code < code_points }
    ensures all_code_points { (set : Charset) (text : List ℕ)
        → All (λ code. code < code_points) (chars set text) }
{}

/// Two sets are one exactly where they have one name.
pub fn set_names_law()
    ensures { (set other : Charset) → IsTrue (same_set set other) ↔ (set ≡ other) }
{}

/// utf8mb4 is UTF-8: its well formed texts are those that std takes for UTF-8.
pub fn utf8_law()
    ensures read { (text : List ℕ) → IsUtf8 text → IsWellFormed Utf8mb4 text }
    ensures written { (text : List ℕ) → IsWellFormed Utf8mb4 text → IsUtf8 text }
{}

/// utf8mb4 has the texts of utf8mb3, and utf16 those of ucs2, with the same characters.
pub fn wider_law()
    ensures utf8mb4 { (codes text : List ℕ)
        → Spells Utf8mb3 codes text → Spells Utf8mb4 codes text }
    ensures utf16 { (codes text : List ℕ) → Spells Ucs2 codes text → Spells Utf16 codes text }
{}

/// Each byte is a character of binary and of latin1, so each text is well formed in these sets.
pub fn bytes_law(text: &[u8])
    ensures binary { IsWellFormed Binary text.now }
    ensures latin1 { IsWellFormed Latin1 text.now }
{}
