//! Printed by tools/coercibility_table.py, which works the answers out from the rules.

/// Operands, what they have to be compared and as a text, and what the row shows.
pub(crate) struct Row {
    pub(crate) operands: &'static [&'static [u8]],
    pub(crate) compare: &'static [u8],
    pub(crate) text: &'static [u8],
    pub(crate) why: &'static str,
}

pub(crate) const SHORT: [Row; 9] = [
    Row {
        operands: &[],
        compare: b"binary bin 6 ascii",
        text: b"binary bin 6 ascii",
        why: "no operand",
    },
    Row {
        operands: &[b"latin1 bin 1 latin1"],
        compare: b"latin1 bin 1 latin1",
        text: b"latin1 bin 1 latin1",
        why: "one operand of no collation",
    },
    Row {
        operands: &[b"latin1 ci 2 latin1"],
        compare: b"latin1 ci 2 latin1",
        text: b"latin1 ci 2 latin1",
        why: "one column",
    },
    Row {
        operands: &[b"binary bin 6 ascii"],
        compare: b"binary bin 6 ascii",
        text: b"binary bin 6 ascii",
        why: "one NULL",
    },
    Row {
        operands: &[b"latin1 ci 2 latin1", b"latin1 cs 2 latin1"],
        compare: b"mix",
        text: b"latin1 bin 1 latin1",
        why: "two columns",
    },
    Row {
        operands: &[b"latin1 ci 2 latin1", b"utf8mb4 ci 4 ascii"],
        compare: b"latin1 ci 2 latin1",
        text: b"latin1 ci 2 latin1",
        why: "a column and a literal of ASCII",
    },
    Row {
        operands: &[b"latin1 ci 2 latin1", b"utf8mb4 ci 4 bmp"],
        compare: b"mix",
        text: b"mix",
        why: "a column and a literal that its set lacks",
    },
    Row {
        operands: &[b"latin1 ci 2 latin1", b"binary bin 4 bytes"],
        compare: b"mix",
        text: b"mix",
        why: "a column and a byte above 7F",
    },
    Row {
        operands: &[b"latin1 bin 1 latin1", b"utf8mb4 ci 4 ascii"],
        compare: b"mix",
        text: b"latin1 bin 1 latin1",
        why: "two columns joined, and a literal",
    },
];

pub(crate) const COLUMNS: [Row; 7] = [
    Row {
        operands: &[
            b"latin1 ci 2 latin1",
            b"latin1 ci 2 latin1",
            b"utf8mb4 ci 4 ascii",
        ],
        compare: b"latin1 ci 2 latin1",
        text: b"latin1 ci 2 latin1",
        why: "a column beats a literal of ASCII",
    },
    Row {
        operands: &[
            b"latin1 ci 2 latin1",
            b"utf8mb4 ci 4 ascii",
            b"utf8mb4 ci 4 bmp",
        ],
        compare: b"mix",
        text: b"mix",
        why: "a character that the column's set lacks",
    },
    Row {
        operands: &[
            b"latin1 ci 2 latin1",
            b"latin1 cs 2 latin1",
            b"latin1 bin 2 latin1",
        ],
        compare: b"latin1 bin 2 latin1",
        text: b"latin1 bin 2 latin1",
        why: "the binary collation beats both",
    },
    Row {
        operands: &[
            b"latin1 ci 2 latin1",
            b"latin1 cs 2 latin1",
            b"utf8mb4 ci 4 ascii",
        ],
        compare: b"mix",
        text: b"latin1 bin 1 latin1",
        why: "two columns and a literal that fits their set",
    },
    Row {
        operands: &[
            b"latin1 ci 2 latin1",
            b"latin1 cs 2 latin1",
            b"utf8mb4 ci 4 bmp",
        ],
        compare: b"mix",
        text: b"mix",
        why: "two columns and a literal that doesn't fit",
    },
    Row {
        operands: &[
            b"latin1 ci 2 latin1",
            b"latin1 cs 2 latin1",
            b"latin1 ci 0 latin1",
        ],
        compare: b"latin1 ci 0 latin1",
        text: b"latin1 ci 0 latin1",
        why: "COLLATE beats both",
    },
    Row {
        operands: &[
            b"latin1 ci 0 latin1",
            b"latin1 cs 0 latin1",
            b"latin1 bin 2 latin1",
        ],
        compare: b"mix",
        text: b"mix",
        why: "COLLATE twice",
    },
];

pub(crate) const UNICODE: [Row; 6] = [
    Row {
        operands: &[
            b"utf16 ci 2 ascii",
            b"utf16 ci 2 unicode",
            b"utf32 ci 2 ascii",
        ],
        compare: b"utf16 ci 2 unicode",
        text: b"utf16 ci 2 unicode",
        why: "of one collation the greater repertoire beats",
    },
    Row {
        operands: &[
            b"utf16 ci 2 unicode",
            b"utf32 ci 2 unicode",
            b"utf8mb4 ci 2 unicode",
        ],
        compare: b"mix",
        text: b"mix",
        why: "three sets of all characters",
    },
    Row {
        operands: &[
            b"utf8mb4 ci 2 ascii",
            b"utf16 ci 2 ascii",
            b"utf32 ci 2 ascii",
        ],
        compare: b"mix",
        text: b"mix",
        why: "three sets of ASCII",
    },
    Row {
        operands: &[
            b"utf8mb4 ci 2 unicode",
            b"utf16 ci 2 ascii",
            b"utf32 ci 2 ascii",
        ],
        compare: b"utf8mb4 ci 2 unicode",
        text: b"utf8mb4 ci 2 unicode",
        why: "one of all characters, two of ASCII",
    },
    Row {
        operands: &[
            b"utf16 ci 2 ascii",
            b"utf16 bin 2 unicode",
            b"utf32 ci 2 ascii",
        ],
        compare: b"utf16 bin 2 unicode",
        text: b"utf16 bin 2 unicode",
        why: "a binary collation above ASCII",
    },
    Row {
        operands: &[
            b"utf16 ci 2 unicode",
            b"utf16 bin 2 ascii",
            b"utf32 ci 2 ascii",
        ],
        compare: b"mix",
        text: b"utf16 bin 1 unicode",
        why: "a binary collation of ASCII",
    },
];

pub(crate) const BYTES: [Row; 10] = [
    Row {
        operands: &[
            b"binary bin 6 ascii",
            b"binary bin 6 ascii",
            b"binary bin 6 ascii",
        ],
        compare: b"binary bin 6 ascii",
        text: b"binary bin 6 ascii",
        why: "nothing but NULL",
    },
    Row {
        operands: &[
            b"binary bin 6 ascii",
            b"latin1 ci 2 latin1",
            b"binary bin 6 ascii",
        ],
        compare: b"latin1 ci 2 latin1",
        text: b"latin1 ci 2 latin1",
        why: "one beside NULL",
    },
    Row {
        operands: &[
            b"latin1 ci 2 latin1",
            b"latin1 cs 2 latin1",
            b"binary bin 6 ascii",
        ],
        compare: b"mix",
        text: b"latin1 bin 1 latin1",
        why: "two columns share their set",
    },
    Row {
        operands: &[
            b"binary bin 4 bytes",
            b"utf8mb4 ci 4 ascii",
            b"utf8mb4 bin 5 ascii",
        ],
        compare: b"binary bin 4 bytes",
        text: b"binary bin 4 bytes",
        why: "bytes beside letters",
    },
    Row {
        operands: &[
            b"binary bin 4 ascii",
            b"utf8mb4 ci 4 bmp",
            b"utf8mb4 bin 5 ascii",
        ],
        compare: b"binary bin 4 bytes",
        text: b"binary bin 4 bytes",
        why: "the repertoire of bytes",
    },
    Row {
        operands: &[
            b"latin1 ci 2 latin1",
            b"binary bin 4 bytes",
            b"binary bin 6 ascii",
        ],
        compare: b"mix",
        text: b"mix",
        why: "a byte above 7F beside a column",
    },
    Row {
        operands: &[
            b"latin1 ci 2 latin1",
            b"binary bin 4 ascii",
            b"binary bin 6 ascii",
        ],
        compare: b"latin1 ci 2 latin1",
        text: b"latin1 ci 2 latin1",
        why: "bytes below 80 beside a column",
    },
    Row {
        operands: &[
            b"latin1 bin 1 latin1",
            b"utf8mb4 ci 4 ascii",
            b"binary bin 6 ascii",
        ],
        compare: b"mix",
        text: b"latin1 bin 1 latin1",
        why: "no collation is compared with a literal",
    },
    Row {
        operands: &[
            b"latin1 bin 1 latin1",
            b"binary bin 6 ascii",
            b"binary bin 6 ascii",
        ],
        compare: b"latin1 bin 1 latin1",
        text: b"latin1 bin 1 latin1",
        why: "no collation beside NULL",
    },
    Row {
        operands: &[
            b"utf8mb4 bin 5 ascii",
            b"utf8mb4 bin 5 ascii",
            b"utf8mb4 bin 5 ascii",
        ],
        compare: b"utf8mb4 bin 5 ascii",
        text: b"utf8mb4 bin 5 ascii",
        why: "numbers",
    },
];

pub(crate) const FOUR: [Row; 7] = [
    Row {
        operands: &[
            b"latin1 ci 2 latin1",
            b"latin1 cs 2 latin1",
            b"utf8mb4 ci 2 ascii",
            b"binary bin 6 ascii",
        ],
        compare: b"utf8mb4 ci 2 latin1",
        text: b"utf8mb4 ci 2 latin1",
        why: "a Unicode column beats both",
    },
    Row {
        operands: &[
            b"latin1 ci 2 latin1",
            b"latin1 cs 2 latin1",
            b"utf8mb4 ci 2 unicode",
            b"utf8mb4 ci 4 ascii",
        ],
        compare: b"utf8mb4 ci 2 unicode",
        text: b"utf8mb4 ci 2 unicode",
        why: "a Unicode column beats a literal too",
    },
    Row {
        operands: &[
            b"utf8mb4 ci 2 unicode",
            b"utf8mb4 cs 2 unicode",
            b"latin1 ci 2 latin1",
            b"utf8mb4 bin 5 ascii",
        ],
        compare: b"mix",
        text: b"utf8mb4 bin 1 unicode",
        why: "two Unicode columns share their set",
    },
    Row {
        operands: &[
            b"utf8mb4 ci 2 unicode",
            b"utf8mb4 cs 2 ascii",
            b"utf16 ci 2 ascii",
            b"utf8mb4 ci 4 ascii",
        ],
        compare: b"mix",
        text: b"utf8mb4 bin 1 unicode",
        why: "the one above ASCII shares",
    },
    Row {
        operands: &[
            b"utf8mb4 ci 2 ascii",
            b"utf8mb4 cs 2 ascii",
            b"utf16 ci 2 ascii",
            b"utf8mb4 ci 4 ascii",
        ],
        compare: b"mix",
        text: b"mix",
        why: "two Unicode sets of ASCII",
    },
    Row {
        operands: &[
            b"latin1 ci 2 latin1",
            b"latin1 cs 3 latin1",
            b"utf8mb4 ci 4 ascii",
            b"utf8mb4 bin 5 ascii",
        ],
        compare: b"latin1 ci 2 latin1",
        text: b"latin1 ci 2 latin1",
        why: "four levels",
    },
    Row {
        operands: &[
            b"binary bin 0 bytes",
            b"utf8mb4 ci 4 bmp",
            b"latin1 ci 2 latin1",
            b"binary bin 6 ascii",
        ],
        compare: b"binary bin 0 bytes",
        text: b"binary bin 0 bytes",
        why: "binary takes all",
    },
];
