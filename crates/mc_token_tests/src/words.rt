use crate::row::Says::{Hex, Int, Mark, Name, Str, Word};
use crate::row::{Row, is_read_so};
use mc_token::Symbol;

const WORDS: [Row; 36] = [
    Row {
        script: b"",
        tokens: &[],
        why: "nothing",
    },
    Row {
        script: b"a",
        tokens: &[(Word(b"a"), 0, 1)],
        why: "one letter",
    },
    Row {
        script: b"_",
        tokens: &[(Word(b"_"), 0, 1)],
        why: "an underscore alone",
    },
    Row {
        script: b"_a$1",
        tokens: &[(Word(b"_a$1"), 0, 4)],
        why: "a dollar sign and a digit inside",
    },
    Row {
        script: b"SeLeCt",
        tokens: &[(Word(b"select"), 0, 6)],
        why: "upper case is folded",
    },
    Row {
        script: b"n",
        tokens: &[(Word(b"n"), 0, 1)],
        why: "an N that opens nothing",
    },
    Row {
        script: b"x",
        tokens: &[(Word(b"x"), 0, 1)],
        why: "an X that opens nothing",
    },
    Row {
        script: b"NX",
        tokens: &[(Word(b"nx"), 0, 2)],
        why: "N before another letter",
    },
    Row {
        script: b"N\"a\"",
        tokens: &[(Word(b"n"), 0, 1), (Str(b"a"), 1, 4)],
        why: "double quotes make no national string",
    },
    Row {
        script: b"N 'a'",
        tokens: &[(Word(b"n"), 0, 1), (Str(b"a"), 2, 5)],
        why: "nor does a space",
    },
    Row {
        script: b"xN'a'",
        tokens: &[(Word(b"xn"), 0, 2), (Str(b"a"), 2, 5)],
        why: "nor an N at the end of a word",
    },
    Row {
        script: b"X\"41\"",
        tokens: &[(Word(b"x"), 0, 1), (Str(b"41"), 1, 5)],
        why: "double quotes make no literal of X",
    },
    Row {
        script: b"nX'41'",
        tokens: &[(Word(b"nx"), 0, 2), (Str(b"41"), 2, 6)],
        why: "nor an X at the end of a word",
    },
    Row {
        script: b"_latin1'a'",
        tokens: &[(Word(b"_latin1"), 0, 7), (Str(b"a"), 7, 10)],
        why: "an introducer is a word",
    },
    Row {
        script: b"_latin1 X'E4'",
        tokens: &[(Word(b"_latin1"), 0, 7), (Hex(b"\xe4"), 8, 13)],
        why: "also before a literal",
    },
    Row {
        script: b"a.b",
        tokens: &[
            (Word(b"a"), 0, 1),
            (Mark(Symbol::Dot), 1, 2),
            (Word(b"b"), 2, 3),
        ],
        why: "a dot parts words",
    },
    Row {
        script: b"a`b`",
        tokens: &[(Word(b"a"), 0, 1), (Name(b"b"), 1, 4)],
        why: "a backquote ends a word",
    },
    Row {
        script: b"`a`",
        tokens: &[(Name(b"a"), 0, 3)],
        why: "a name",
    },
    Row {
        script: b"`SELECT`",
        tokens: &[(Name(b"select"), 0, 8)],
        why: "a reserved word as a name, folded",
    },
    Row {
        script: b"`$`",
        tokens: &[(Name(b"$"), 0, 3)],
        why: "a dollar sign may begin a name",
    },
    Row {
        script: b"`a1_$`",
        tokens: &[(Name(b"a1_$"), 0, 6)],
        why: "what a name may hold",
    },
    Row {
        script: b"`a``b`",
        tokens: &[(Name(b"a"), 0, 3), (Name(b"b"), 3, 6)],
        why: "doubled backquotes are two names",
    },
    Row {
        script: b"`aaaaaaaaaaaaaaaaaaaaaaaaaaaaaaaaaaaaaaaaaaaaaaaaaaaaaaaaaaaaaaaa`",
        tokens: &[(
            Name(b"aaaaaaaaaaaaaaaaaaaaaaaaaaaaaaaaaaaaaaaaaaaaaaaaaaaaaaaaaaaaaaaa"),
            0,
            66,
        )],
        why: "the longest name",
    },
    Row {
        script: b"0",
        tokens: &[(Int(0), 0, 1)],
        why: "zero",
    },
    Row {
        script: b"7",
        tokens: &[(Int(7), 0, 1)],
        why: "one digit",
    },
    Row {
        script: b"007",
        tokens: &[(Int(7), 0, 3)],
        why: "zeros in front",
    },
    Row {
        script: b"9223372036854775807",
        tokens: &[(Int(9223372036854775807), 0, 19)],
        why: "the greatest number",
    },
    Row {
        script: b"0009223372036854775807",
        tokens: &[(Int(9223372036854775807), 0, 22)],
        why: "with zeros in front",
    },
    Row {
        script: b"1.5",
        tokens: &[(Int(1), 0, 1), (Mark(Symbol::Dot), 1, 2), (Int(5), 2, 3)],
        why: "no decimal numbers",
    },
    Row {
        script: b"1.e",
        tokens: &[
            (Int(1), 0, 1),
            (Mark(Symbol::Dot), 1, 2),
            (Word(b"e"), 2, 3),
        ],
        why: "no exponents",
    },
    Row {
        script: b"-1",
        tokens: &[(Mark(Symbol::Minus), 0, 1), (Int(1), 1, 2)],
        why: "a sign is a mark",
    },
    Row {
        script: b"1'a'",
        tokens: &[(Int(1), 0, 1), (Str(b"a"), 1, 4)],
        why: "a quote ends a number",
    },
    Row {
        script: b"1`a`",
        tokens: &[(Int(1), 0, 1), (Name(b"a"), 1, 4)],
        why: "so does a backquote",
    },
    Row {
        script: b"1(2)",
        tokens: &[
            (Int(1), 0, 1),
            (Mark(Symbol::LeftParen), 1, 2),
            (Int(2), 2, 3),
            (Mark(Symbol::RightParen), 3, 4),
        ],
        why: "and a mark",
    },
    Row {
        script: b"1#2",
        tokens: &[(Int(1), 0, 1)],
        why: "and a comment",
    },
    Row {
        script: b"1 \t\n\x0b\x0c\r2",
        tokens: &[(Int(1), 0, 1), (Int(2), 7, 8)],
        why: "the six spaces",
    },
];

#[test]
fn words_names_and_numbers(rt: HostRuntime) {
    for row in &WORDS {
        assert!(rt; is_read_so(rt.alloc(), row), "{row:?}");
    }
}
