ghost use Rattle.std.specs.Prelude.{◌≡◌, ◌≢◌, length, MatchOption};
ghost use Rattle.mc_token.specs.declared.keyword.Keyword.{Keyword};
ghost use Rattle.mc_token.specs.Keywords.{keyword_text, is_reserved, keywords_of_len, keyword_of};

/// A word that the grammar asks for by name.
#[derive(Clone, Copy, Debug, PartialEq, Eq)]
pub enum Keyword {
    Select,
    Distinct,
    From,
    Where,
    Group,
    By,
    Order,
    Asc,
    Desc,
    Limit,
    As,
    And,
    Or,
    Xor,
    Not,
    Is,
    Null,
    Like,
    In,
    Between,
    Collate,
    Div,
    Mod,
    Explain,
    Convert,
    Using,
    True,
    False,
    Character,
    Set,
    Char,
    Binary,
    Both,
    Leading,
    Trailing,
    For,
    Offset,
    Escape,
    Cast,
    Count,
    Trim,
    Substring,
    WeightString,
}

const TWO: [Keyword; 5] = [
    Keyword::As,
    Keyword::By,
    Keyword::In,
    Keyword::Is,
    Keyword::Or,
];

const THREE: [Keyword; 8] = [
    Keyword::And,
    Keyword::Asc,
    Keyword::Div,
    Keyword::For,
    Keyword::Mod,
    Keyword::Not,
    Keyword::Set,
    Keyword::Xor,
];

const FOUR: [Keyword; 9] = [
    Keyword::Both,
    Keyword::Cast,
    Keyword::Char,
    Keyword::Desc,
    Keyword::From,
    Keyword::Like,
    Keyword::Null,
    Keyword::Trim,
    Keyword::True,
];

const FIVE: [Keyword; 7] = [
    Keyword::Count,
    Keyword::False,
    Keyword::Group,
    Keyword::Limit,
    Keyword::Order,
    Keyword::Using,
    Keyword::Where,
];

const SIX: [Keyword; 4] = [
    Keyword::Binary,
    Keyword::Escape,
    Keyword::Offset,
    Keyword::Select,
];

const SEVEN: [Keyword; 5] = [
    Keyword::Between,
    Keyword::Collate,
    Keyword::Convert,
    Keyword::Explain,
    Keyword::Leading,
];

const EIGHT: [Keyword; 2] = [Keyword::Distinct, Keyword::Trailing];

const NINE: [Keyword; 2] = [Keyword::Character, Keyword::Substring];

const THIRTEEN: [Keyword; 1] = [Keyword::WeightString];

impl Keyword {
    /// The keyword's letters, in lower case.
    pub fn text(self) -> &'static [u8]
        ensures { result.now ≡ keyword_text self }
    {
        match self {
            Keyword::Select => b"select",
            Keyword::Distinct => b"distinct",
            Keyword::From => b"from",
            Keyword::Where => b"where",
            Keyword::Group => b"group",
            Keyword::By => b"by",
            Keyword::Order => b"order",
            Keyword::Asc => b"asc",
            Keyword::Desc => b"desc",
            Keyword::Limit => b"limit",
            Keyword::As => b"as",
            Keyword::And => b"and",
            Keyword::Or => b"or",
            Keyword::Xor => b"xor",
            Keyword::Not => b"not",
            Keyword::Is => b"is",
            Keyword::Null => b"null",
            Keyword::Like => b"like",
            Keyword::In => b"in",
            Keyword::Between => b"between",
            Keyword::Collate => b"collate",
            Keyword::Div => b"div",
            Keyword::Mod => b"mod",
            Keyword::Explain => b"explain",
            Keyword::Convert => b"convert",
            Keyword::Using => b"using",
            Keyword::True => b"true",
            Keyword::False => b"false",
            Keyword::Character => b"character",
            Keyword::Set => b"set",
            Keyword::Char => b"char",
            Keyword::Binary => b"binary",
            Keyword::Both => b"both",
            Keyword::Leading => b"leading",
            Keyword::Trailing => b"trailing",
            Keyword::For => b"for",
            Keyword::Offset => b"offset",
            Keyword::Escape => b"escape",
            Keyword::Cast => b"cast",
            Keyword::Count => b"count",
            Keyword::Trim => b"trim",
            Keyword::Substring => b"substring",
            Keyword::WeightString => b"weight_string",
        }
    }

    /// Whether the keyword is a name only between backquotes.
    pub fn is_reserved(self) -> bool
        ensures { result ≡ is_reserved self }
    {
        matches!(
            self,
            Keyword::Select
                | Keyword::Distinct
                | Keyword::From
                | Keyword::Where
                | Keyword::Group
                | Keyword::By
                | Keyword::Order
                | Keyword::Asc
                | Keyword::Desc
                | Keyword::Limit
                | Keyword::As
                | Keyword::And
                | Keyword::Or
                | Keyword::Xor
                | Keyword::Not
                | Keyword::Is
                | Keyword::Null
                | Keyword::Like
                | Keyword::In
                | Keyword::Between
                | Keyword::Collate
                | Keyword::Div
                | Keyword::Mod
                | Keyword::Explain
                | Keyword::Convert
                | Keyword::Using
                | Keyword::True
                | Keyword::False
                | Keyword::Character
                | Keyword::Set
                | Keyword::Char
                | Keyword::Binary
                | Keyword::Both
                | Keyword::Leading
                | Keyword::Trailing
                | Keyword::For
        )
    }
}

/// The keyword that a word in lower case is; None where it is another word.
#[tactic(auto, using(crate::proofs::Keywords::keyword_exact))]
pub fn keyword_named(word: &[u8]) -> Option<Keyword>
    ensures spelled { MatchOption result ((keyword : Keyword) → word.now ≢ keyword_text keyword)
        (λ keyword. word.now ≡ keyword_text keyword) }
    ensures computed { result ≡ keyword_of word.now }
{
    keyword_of(word)
}

/// The keyword that a word is.
#[tactic(auto, unfolding(crate::specs::Keywords::keyword_of))]
fn keyword_of(word: &[u8]) -> Option<Keyword>
    ensures { result ≡ keyword_of word.now }
{
    keywords_of_len(word.len())
        .iter()
        .copied()
        .find(|keyword| word == keyword.text())
}

/// The keywords that have so many letters.
fn keywords_of_len(len: usize) -> &'static [Keyword]
    ensures { result.now ≡ keywords_of_len len }
{
    match len {
        2 => &TWO,
        3 => &THREE,
        4 => &FOUR,
        5 => &FIVE,
        6 => &SIX,
        7 => &SEVEN,
        8 => &EIGHT,
        9 => &NINE,
        13 => &THIRTEEN,
        _ => &[],
    }
}
