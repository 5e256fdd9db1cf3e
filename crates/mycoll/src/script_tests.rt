use crate::status::Status;
use crate::tests::{one_file, status_of, words_of};
use mc_base::{List, MemSink, NoMemory, Text};
use std::alloc::Global;

/// A script that is answered without a catalog, and what is written.
struct Script {
    why: &'static str,
    script: &'static [u8],
    status: Status,
    written: &'static [u8],
}

const SCRIPTS: [Script; 27] = [
    Script {
        why: "each character in latin1",
        script: b"SELECT HEX(CONVERT('\xc3\xa9\xe2\x82\xac' USING latin1));",
        status: Status::Done,
        written: b"HEX(CONVERT('\xc3\xa9\xe2\x82\xac' USING latin1))\nE980\n",
    },
    Script {
        why: "ucs2 lacks the character, so it is `?`",
        script: b"SELECT HEX(CONVERT('\xf0\x9f\x98\x80' USING ucs2));",
        status: Status::Done,
        written: b"HEX(CONVERT('\xf0\x9f\x98\x80' USING ucs2))\n003F\n",
    },
    Script {
        why: "a byte is missing to a unit of ucs2",
        script: b"SELECT HEX(_ucs2 X'41');",
        status: Status::Done,
        written: b"HEX(_ucs2 X'41')\n0041\n",
    },
    Script {
        why: "bytes that are no text of the target are NULL",
        script: b"SELECT HEX(CONVERT(X'FF' USING utf8mb4));",
        status: Status::Done,
        written: b"HEX(CONVERT(X'FF' USING utf8mb4))\nNULL\n",
    },
    Script {
        why: "bytes that are no text of the introducer's set",
        script: b"SELECT HEX(_utf8mb4 X'FF');",
        status: Status::SomeRefused,
        written: b"ERROR 1300: Invalid utf8mb4 character string\n",
    },
    Script {
        why: "the set's own name stands in the refusal",
        script: b"SELECT HEX(_utf8 X'FF');",
        status: Status::SomeRefused,
        written: b"ERROR 1300: Invalid utf8mb3 character string\n",
    },
    Script {
        why: "no set of this name",
        script: b"SELECT HEX(CONVERT('a' USING foo));",
        status: Status::SomeRefused,
        written: b"ERROR 1115: Unknown character set: 'foo'\n",
    },
    Script {
        why: "the literal is refused before the name",
        script: b"SELECT HEX(CONVERT(_utf8mb4 X'FF' USING foo));",
        status: Status::SomeRefused,
        written: b"ERROR 1300: Invalid utf8mb4 character string\n",
    },
    Script {
        why: "binary names a set, and from latin1 the bytes stay",
        script: b"SELECT HEX(CONVERT(_latin1 X'E4' USING BINARY));",
        status: Status::Done,
        written: b"HEX(CONVERT(_latin1 X'E4' USING BINARY))\nE4\n",
    },
    Script {
        why: "a set's name between backquotes, in either case",
        script: b"SELECT HEX(CONVERT('a' USING `Latin1`));",
        status: Status::Done,
        written: b"HEX(CONVERT('a' USING `Latin1`))\n61\n",
    },
    Script {
        why: "a reserved word names nothing",
        script: b"SELECT HEX(CONVERT('a' USING select));",
        status: Status::SomeRefused,
        written: b"ERROR 9001: no reading at byte 29\n",
    },
    Script {
        why: "an odd number of digits in quotes",
        script: b"SELECT HEX(X'4');",
        status: Status::SomeRefused,
        written: b"ERROR 9001: no reading at byte 11\n",
    },
    Script {
        why: "a letter that is no digit",
        script: b"SELECT HEX(x'4G');",
        status: Status::SomeRefused,
        written: b"ERROR 9001: no reading at byte 11\n",
    },
    Script {
        why: "an odd number of digits behind 0x",
        script: b"SELECT HEX(0xABC);",
        status: Status::Done,
        written: b"HEX(0xABC)\n0ABC\n",
    },
    Script {
        why: "0x without a digit",
        script: b"SELECT HEX(0x);",
        status: Status::SomeRefused,
        written: b"ERROR 9001: no reading at byte 11\n",
    },
    Script {
        why: "a national string and the one beside it",
        script: b"SELECT HEX(N'a' 'b');",
        status: Status::Done,
        written: b"HEX(N'a' 'b')\n6162\n",
    },
    Script {
        why: "no national string in double quotes",
        script: b"SELECT HEX(n\"a\");",
        status: Status::SomeRefused,
        written: b"ERROR 9001: no reading at byte 12\n",
    },
    Script {
        why: "an introduced string is its bytes",
        script: b"SELECT HEX(_latin1'\xc3\xa9');SELECT HEX(_latin1 X'E4');",
        status: Status::Done,
        written: b"HEX(_latin1'\xc3\xa9')\nC3A9\nHEX(_latin1 X'E4')\nE4\n",
    },
    Script {
        why: "no set of this name, so no introducer",
        script: b"SELECT HEX(_nope'a');",
        status: Status::SomeRefused,
        written: b"ERROR 9001: no reading at byte 16\n",
    },
    Script {
        why: "utf8 is another name of utf8mb3",
        script: b"SELECT HEX(_utf8'a');SELECT HEX(_UTF8 'a');",
        status: Status::Done,
        written: b"HEX(_utf8'a')\n61\nHEX(_UTF8 'a')\n61\n",
    },
    Script {
        why: "a comparison without padding",
        script: b"SELECT 'a' COLLATE utf8mb4_0900_bin = 'a ';SELECT 'a ' = 'a' COLLATE utf8mb4_bin",
        status: Status::Done,
        written: b"'a' COLLATE utf8mb4_0900_bin = 'a '\n0\n'a ' = 'a' COLLATE utf8mb4_bin\n1\n",
    },
    Script {
        why: "a comment inside a statement, with a semicolon",
        script: b"SELECT 'a' /* ; */ = 'a';",
        status: Status::Done,
        written: b"'a' /* ; */ = 'a'\n1\n",
    },
    Script {
        why: "a collation's name between backquotes, in either case",
        script: b"SELECT 'a' COLLATE `utf8mb4_BIN` = 'a ';",
        status: Status::Done,
        written: b"'a' COLLATE `utf8mb4_BIN` = 'a '\n1\n",
    },
    Script {
        why: "no collation of this name",
        script: b"SELECT 'a' COLLATE nope = 'a';",
        status: Status::SomeRefused,
        written: b"ERROR 1273: Unknown collation: 'nope'\n",
    },
    Script {
        why: "a collation of another set",
        script: b"SELECT 'a' COLLATE latin1_bin = 'a';",
        status: Status::SomeRefused,
        written: b"ERROR 1253: COLLATION 'latin1_bin' is not valid for CHARACTER SET 'utf8mb4'\n",
    },
    Script {
        why: "no collation of this name, whatever the sets",
        script: b"SELECT 'a' COLLATE nope = _latin1'a';",
        status: Status::SomeRefused,
        written: b"ERROR 1273: Unknown collation: 'nope'\n",
    },
    Script {
        why: "two collations, and a hexadecimal literal without one",
        script: b"SELECT 'a' COLLATE utf8mb4_bin = 'a' COLLATE utf8mb4_bin;SELECT X'41' = 'A';",
        status: Status::Done,
        written: b"'a' COLLATE utf8mb4_bin = 'a' COLLATE utf8mb4_bin\n1\nX'41' = 'A'\n1\n",
    },
];

/// Whether a script is answered so without a catalog.
pub fn is_answered(
    alloc: Global,
    script: Text,
    status: Status,
    written: &[u8],
) -> Result<bool, NoMemory> {
    let words = words_of(alloc, &[b"s.sql"])?;
    let mut files = one_file(alloc, b"s.sql", script, &[])?;
    let mut out = MemSink::new(alloc, List::new(alloc));
    let ends = status_of(alloc, words.as_slice(), &mut files, &mut out);
    Ok(ends == status && out.written().as_slice() == written)
}

fn is_answered_so(alloc: Global, row: &Script) -> Result<bool, NoMemory> {
    let script = Text::from_slice(alloc, row.script)?;
    is_answered(alloc, script, row.status, row.written)
}

#[test]
fn scripts_are_answered_as_worked_out(rt: HostRuntime) {
    for row in &SCRIPTS {
        assert!(rt;
            is_answered_so(rt.alloc(), row).unwrap_or(false),
            "{}",
            row.why
        );
    }
}
