use crate::row::{Comes, comes_of};
use mc_base::{NoMemory, Text};
use std::alloc::Global;

/// A statement of SELECT, so many times each of two texts, and what stands behind them.
#[derive(Debug)]
struct Deep {
    texts: [(&'static str, usize); 2],
    behind: &'static str,
    comes: Comes,
    why: &'static str,
}

const DEEP: [Deep; 16] = [
    Deep {
        texts: [("(", 64), ("", 0)],
        behind: "",
        comes: Comes::NoReading(71),
        why: "64 parentheses are open, and the operand is missing",
    },
    Deep {
        texts: [("(", 65), ("", 0)],
        behind: "",
        comes: Comes::TooDeep(71),
        why: "the 65th parenthesis",
    },
    Deep {
        texts: [("NOT ", 64), ("", 0)],
        behind: "1",
        comes: Comes::Tree,
        why: "64 NOTs",
    },
    Deep {
        texts: [("NOT ", 65), ("", 0)],
        behind: "1",
        comes: Comes::TooDeep(263),
        why: "the 65th NOT",
    },
    Deep {
        texts: [("- ", 64), ("", 0)],
        behind: "a",
        comes: Comes::Tree,
        why: "64 unary minus",
    },
    Deep {
        texts: [("- ", 65), ("", 0)],
        behind: "a",
        comes: Comes::TooDeep(135),
        why: "the 65th unary minus",
    },
    Deep {
        texts: [("-(", 32), ("", 0)],
        behind: "a",
        comes: Comes::NoReading(72),
        why: "32 of both, and the parentheses are not closed",
    },
    Deep {
        texts: [("-(", 32), ("-", 1)],
        behind: "a",
        comes: Comes::TooDeep(71),
        why: "a minus behind 32 of both",
    },
    Deep {
        texts: [("NOT(", 32), ("(", 1)],
        behind: "a",
        comes: Comes::TooDeep(135),
        why: "a parenthesis behind 32 NOTs with one each",
    },
    Deep {
        texts: [("f(", 64), ("", 0)],
        behind: "COUNT(*)",
        comes: Comes::TooDeep(140),
        why: "the parenthesis of COUNT(*) counts",
    },
    Deep {
        texts: [("(", 63), ("", 0)],
        behind: "WEIGHT_STRING(a AS CHAR(1",
        comes: Comes::TooDeep(93),
        why: "the inner parenthesis of WEIGHT_STRING counts",
    },
    Deep {
        texts: [("(", 64), ("", 0)],
        behind: "a NOT IN",
        comes: Comes::NoReading(79),
        why: "the NOT of NOT IN is no level",
    },
    Deep {
        texts: [("(", 64), ("", 0)],
        behind: "a IN (",
        comes: Comes::TooDeep(76),
        why: "the parenthesis of IN counts",
    },
    Deep {
        texts: [("(", 64), ("", 0)],
        behind: "= (",
        comes: Comes::NoReading(71),
        why: "no reading comes before too deep",
    },
    Deep {
        texts: [("(1)+", 682), ("", 0)],
        behind: "1",
        comes: Comes::TooManyTokens,
        why: "2,730 tokens",
    },
    Deep {
        texts: [("1+", 1022), ("", 0)],
        behind: "1 a",
        comes: Comes::Tree,
        why: "2,047 tokens",
    },
];

/// Chains, whose trees are deeper than the descent, and the deepest descent.
const CHAINS: [Deep; 4] = [
    Deep {
        texts: [("1 XOR ", 1023), ("1", 1)],
        behind: "",
        comes: Comes::Tree,
        why: "a chain of XOR of 2,047 tokens",
    },
    Deep {
        texts: [("a", 1), (" COLLATE b", 1023)],
        behind: "",
        comes: Comes::Tree,
        why: "a chain of COLLATE of 2,048 tokens, SELECT included",
    },
    Deep {
        texts: [("1 OR 1 XOR 1 AND 1 IN (1, ", 64), ("1", 1)],
        behind: "))))))))))))))))))))))))))))))))))))))))))))))))))))))))))))))))",
        comes: Comes::Tree,
        why: "64 lists, each behind all operators on truth",
    },
    Deep {
        texts: [("1 OR 1 XOR 1 AND 1 IN (1, ", 65), ("1", 1)],
        behind: ")))))))))))))))))))))))))))))))))))))))))))))))))))))))))))))))))",
        comes: Comes::TooDeep(1693),
        why: "the parenthesis of the 65th list",
    },
];

/// Appends a text so many times.
fn repeat(script: &mut Text, text: &str, times: usize) -> Result<(), NoMemory> {
    for _ in 0..times {
        script.extend_from_slice(text.as_bytes())?;
    }
    Ok(())
}

/// The statement of a row.
fn script_of(alloc: Global, row: &Deep) -> Result<Text, NoMemory> {
    let mut script = Text::from_slice(alloc, b"SELECT ")?;
    for (text, times) in &row.texts {
        repeat(&mut script, text, *times)?;
    }
    script.extend_from_slice(row.behind.as_bytes())?;
    Ok(script)
}

fn comes_so(alloc: Global, row: &Deep) -> bool {
    match script_of(alloc, row) {
        Ok(script) => comes_of(alloc, script.as_slice()) == row.comes,
        Err(NoMemory) => false,
    }
}

#[test]
fn levels_and_tokens_are_limited(rt: HostRuntime) {
    for row in &DEEP {
        assert!(rt; comes_so(rt.alloc(), row), "{}", row.why);
    }
}

#[test]
fn chains_are_read_and_dropped(rt: HostRuntime) {
    for row in &CHAINS {
        assert!(rt; comes_so(rt.alloc(), row), "{}", row.why);
    }
}
