use crate::row::Says::{Hex, Mark, National, Str};
use crate::row::{Row, is_read_so};
use mc_token::Symbol;

const STRINGS: [Row; 42] = [
    Row {
        script: b"''",
        tokens: &[(Str(b""), 0, 2)],
        why: "an empty string",
    },
    Row {
        script: b"\"\"",
        tokens: &[(Str(b""), 0, 2)],
        why: "one in double quotes",
    },
    Row {
        script: b"'a''b'",
        tokens: &[(Str(b"a'b"), 0, 6)],
        why: "a doubled quote stands for itself",
    },
    Row {
        script: b"\"a\"\"b\"",
        tokens: &[(Str(b"a\"b"), 0, 6)],
        why: "a doubled double quote too",
    },
    Row {
        script: b"''''",
        tokens: &[(Str(b"'"), 0, 4)],
        why: "nothing but a doubled quote",
    },
    Row {
        script: b"'a\"\"b'",
        tokens: &[(Str(b"a\"\"b"), 0, 6)],
        why: "the other quote is not doubled",
    },
    Row {
        script: b"\"a''b\"",
        tokens: &[(Str(b"a''b"), 0, 6)],
        why: "nor here",
    },
    Row {
        script: b"'a''b' 'c'",
        tokens: &[(Str(b"a'b"), 0, 6), (Str(b"c"), 7, 10)],
        why: "strings side by side",
    },
    Row {
        script: b"'a'\"b\"",
        tokens: &[(Str(b"a"), 0, 3), (Str(b"b"), 3, 6)],
        why: "of two kinds of quotes",
    },
    Row {
        script: b"'\\0'",
        tokens: &[(Str(b"\x00"), 0, 4)],
        why: "a zero byte",
    },
    Row {
        script: b"'\\b'",
        tokens: &[(Str(b"\x08"), 0, 4)],
        why: "a backspace",
    },
    Row {
        script: b"'\\n'",
        tokens: &[(Str(b"\n"), 0, 4)],
        why: "a line feed",
    },
    Row {
        script: b"'\\r'",
        tokens: &[(Str(b"\r"), 0, 4)],
        why: "a carriage return",
    },
    Row {
        script: b"'\\t'",
        tokens: &[(Str(b"\t"), 0, 4)],
        why: "a tabulator",
    },
    Row {
        script: b"'\\Z'",
        tokens: &[(Str(b"\x1a"), 0, 4)],
        why: "a substitute",
    },
    Row {
        script: b"'\\''",
        tokens: &[(Str(b"'"), 0, 4)],
        why: "a hidden quote",
    },
    Row {
        script: b"'\\\"'",
        tokens: &[(Str(b"\""), 0, 4)],
        why: "a hidden double quote",
    },
    Row {
        script: b"\"\\\"\"",
        tokens: &[(Str(b"\""), 0, 4)],
        why: "one in double quotes",
    },
    Row {
        script: b"'\\\\'",
        tokens: &[(Str(b"\\"), 0, 4)],
        why: "a hidden backslash",
    },
    Row {
        script: b"'\\%'",
        tokens: &[(Str(b"\\%"), 0, 4)],
        why: "a percent sign keeps its backslash",
    },
    Row {
        script: b"'\\_'",
        tokens: &[(Str(b"\\_"), 0, 4)],
        why: "so does an underscore",
    },
    Row {
        script: b"'\\q\\B\\z\\N'",
        tokens: &[(Str(b"qBzN"), 0, 10)],
        why: "others lose it, capitals are others",
    },
    Row {
        script: b"'\\\\n'",
        tokens: &[(Str(b"\\n"), 0, 5)],
        why: "a hidden backslash hides nothing",
    },
    Row {
        script: b"'\\\xc3\xa9'",
        tokens: &[(Str(b"\xc3\xa9"), 0, 5)],
        why: "a backslash before a byte above 7F",
    },
    Row {
        script: b"'\xc3\xa9\xf0\x9f\x98\x80'",
        tokens: &[(Str(b"\xc3\xa9\xf0\x9f\x98\x80"), 0, 8)],
        why: "bytes above 7F",
    },
    Row {
        script: b"'a\nb;c'",
        tokens: &[(Str(b"a\nb;c"), 0, 7)],
        why: "a line feed and a semicolon",
    },
    Row {
        script: b"'#' '-- ' '/*'",
        tokens: &[(Str(b"#"), 0, 3), (Str(b"-- "), 4, 9), (Str(b"/*"), 10, 14)],
        why: "no comments inside",
    },
    Row {
        script: b"N'a'",
        tokens: &[(National(b"a"), 0, 4)],
        why: "a national string",
    },
    Row {
        script: b"n'a''b\\t'",
        tokens: &[(National(b"a'b\t"), 0, 9)],
        why: "with a doubled quote and an escape",
    },
    Row {
        script: b"N'a''b'",
        tokens: &[(National(b"a'b"), 0, 7)],
        why: "a doubled quote",
    },
    Row {
        script: b"N'a' 'b'",
        tokens: &[(National(b"a"), 0, 4), (Str(b"b"), 5, 8)],
        why: "and a string beside it",
    },
    Row {
        script: b"X'41'",
        tokens: &[(Hex(b"A"), 0, 5)],
        why: "two digits in quotes",
    },
    Row {
        script: b"x'4a4B'",
        tokens: &[(Hex(b"JK"), 0, 7)],
        why: "digits of either case",
    },
    Row {
        script: b"X''",
        tokens: &[(Hex(b""), 0, 3)],
        why: "no digits in quotes",
    },
    Row {
        script: b"X'41''42'",
        tokens: &[(Hex(b"A"), 0, 5), (Str(b"42"), 5, 9)],
        why: "a doubled quote ends a literal",
    },
    Row {
        script: b"X'41'X'42'",
        tokens: &[(Hex(b"A"), 0, 5), (Hex(b"B"), 5, 10)],
        why: "two literals side by side",
    },
    Row {
        script: b"0x41",
        tokens: &[(Hex(b"A"), 0, 4)],
        why: "digits behind 0x",
    },
    Row {
        script: b"0x1",
        tokens: &[(Hex(b"\x01"), 0, 3)],
        why: "a 0 before an odd number of digits",
    },
    Row {
        script: b"0xABC",
        tokens: &[(Hex(b"\n\xbc"), 0, 5)],
        why: "three digits",
    },
    Row {
        script: b"0x00ff",
        tokens: &[(Hex(b"\x00\xff"), 0, 6)],
        why: "zeros and small letters",
    },
    Row {
        script: b"0x41=0x42",
        tokens: &[
            (Hex(b"A"), 0, 4),
            (Mark(Symbol::Eq), 4, 5),
            (Hex(b"B"), 5, 9),
        ],
        why: "a mark ends them",
    },
    Row {
        script: b"0x41'a'",
        tokens: &[(Hex(b"A"), 0, 4), (Str(b"a"), 4, 7)],
        why: "so does a quote",
    },
];

#[test]
fn strings_and_hexadecimal_literals(rt: HostRuntime) {
    for row in &STRINGS {
        assert!(rt; is_read_so(rt.alloc(), row), "{row:?}");
    }
}
