use crate::row::Says::Mark;
use crate::row::{Row, is_read_so};
use mc_token::Symbol;

const MARKS: [Row; 56] = [
    Row {
        script: b"(",
        tokens: &[(Mark(Symbol::LeftParen), 0, 1)],
        why: "the mark alone",
    },
    Row {
        script: b")",
        tokens: &[(Mark(Symbol::RightParen), 0, 1)],
        why: "the mark alone",
    },
    Row {
        script: b",",
        tokens: &[(Mark(Symbol::Comma), 0, 1)],
        why: "the mark alone",
    },
    Row {
        script: b".",
        tokens: &[(Mark(Symbol::Dot), 0, 1)],
        why: "the mark alone",
    },
    Row {
        script: b"*",
        tokens: &[(Mark(Symbol::Star), 0, 1)],
        why: "the mark alone",
    },
    Row {
        script: b"+",
        tokens: &[(Mark(Symbol::Plus), 0, 1)],
        why: "the mark alone",
    },
    Row {
        script: b"-",
        tokens: &[(Mark(Symbol::Minus), 0, 1)],
        why: "the mark alone",
    },
    Row {
        script: b"%",
        tokens: &[(Mark(Symbol::Percent), 0, 1)],
        why: "the mark alone",
    },
    Row {
        script: b"=",
        tokens: &[(Mark(Symbol::Eq), 0, 1)],
        why: "the mark alone",
    },
    Row {
        script: b"<>",
        tokens: &[(Mark(Symbol::Ne), 0, 2)],
        why: "the mark alone",
    },
    Row {
        script: b"!=",
        tokens: &[(Mark(Symbol::NeBang), 0, 2)],
        why: "the mark alone",
    },
    Row {
        script: b"<",
        tokens: &[(Mark(Symbol::Lt), 0, 1)],
        why: "the mark alone",
    },
    Row {
        script: b"<=",
        tokens: &[(Mark(Symbol::Le), 0, 2)],
        why: "the mark alone",
    },
    Row {
        script: b">",
        tokens: &[(Mark(Symbol::Gt), 0, 1)],
        why: "the mark alone",
    },
    Row {
        script: b">=",
        tokens: &[(Mark(Symbol::Ge), 0, 2)],
        why: "the mark alone",
    },
    Row {
        script: b"<=>",
        tokens: &[(Mark(Symbol::NullEq), 0, 3)],
        why: "the mark alone",
    },
    Row {
        script: b"<=>=",
        tokens: &[(Mark(Symbol::NullEq), 0, 3), (Mark(Symbol::Eq), 3, 4)],
        why: "and one more",
    },
    Row {
        script: b"<=>>",
        tokens: &[(Mark(Symbol::NullEq), 0, 3), (Mark(Symbol::Gt), 3, 4)],
        why: "and another",
    },
    Row {
        script: b"<=><=>",
        tokens: &[(Mark(Symbol::NullEq), 0, 3), (Mark(Symbol::NullEq), 3, 6)],
        why: "twice",
    },
    Row {
        script: b"<==>",
        tokens: &[
            (Mark(Symbol::Le), 0, 2),
            (Mark(Symbol::Eq), 2, 3),
            (Mark(Symbol::Gt), 3, 4),
        ],
        why: "no longer one begins at the second",
    },
    Row {
        script: b"<==",
        tokens: &[(Mark(Symbol::Le), 0, 2), (Mark(Symbol::Eq), 2, 3)],
        why: "two of them",
    },
    Row {
        script: b"<=<",
        tokens: &[(Mark(Symbol::Le), 0, 2), (Mark(Symbol::Lt), 2, 3)],
        why: "the third byte is another",
    },
    Row {
        script: b"<=<>",
        tokens: &[(Mark(Symbol::Le), 0, 2), (Mark(Symbol::Ne), 2, 4)],
        why: "and begins a longer one",
    },
    Row {
        script: b"< =>",
        tokens: &[
            (Mark(Symbol::Lt), 0, 1),
            (Mark(Symbol::Eq), 2, 3),
            (Mark(Symbol::Gt), 3, 4),
        ],
        why: "a space parts them",
    },
    Row {
        script: b"<= >",
        tokens: &[(Mark(Symbol::Le), 0, 2), (Mark(Symbol::Gt), 3, 4)],
        why: "here too",
    },
    Row {
        script: b"<>=",
        tokens: &[(Mark(Symbol::Ne), 0, 2), (Mark(Symbol::Eq), 2, 3)],
        why: "the first two are one",
    },
    Row {
        script: b"<>>",
        tokens: &[(Mark(Symbol::Ne), 0, 2), (Mark(Symbol::Gt), 2, 3)],
        why: "and one more",
    },
    Row {
        script: b"<>>=",
        tokens: &[(Mark(Symbol::Ne), 0, 2), (Mark(Symbol::Ge), 2, 4)],
        why: "and a longer one",
    },
    Row {
        script: b"<><>",
        tokens: &[(Mark(Symbol::Ne), 0, 2), (Mark(Symbol::Ne), 2, 4)],
        why: "twice",
    },
    Row {
        script: b"<<",
        tokens: &[(Mark(Symbol::Lt), 0, 1), (Mark(Symbol::Lt), 1, 2)],
        why: "no shift",
    },
    Row {
        script: b"<<=",
        tokens: &[(Mark(Symbol::Lt), 0, 1), (Mark(Symbol::Le), 1, 3)],
        why: "the second is longer",
    },
    Row {
        script: b"<<>",
        tokens: &[(Mark(Symbol::Lt), 0, 1), (Mark(Symbol::Ne), 1, 3)],
        why: "here too",
    },
    Row {
        script: b"<<=>",
        tokens: &[(Mark(Symbol::Lt), 0, 1), (Mark(Symbol::NullEq), 1, 4)],
        why: "and here",
    },
    Row {
        script: b"<!=",
        tokens: &[(Mark(Symbol::Lt), 0, 1), (Mark(Symbol::NeBang), 1, 3)],
        why: "before an exclamation mark",
    },
    Row {
        script: b"<-",
        tokens: &[(Mark(Symbol::Lt), 0, 1), (Mark(Symbol::Minus), 1, 2)],
        why: "before a minus",
    },
    Row {
        script: b">==",
        tokens: &[(Mark(Symbol::Ge), 0, 2), (Mark(Symbol::Eq), 2, 3)],
        why: "and one more",
    },
    Row {
        script: b">=>",
        tokens: &[(Mark(Symbol::Ge), 0, 2), (Mark(Symbol::Gt), 2, 3)],
        why: "and another",
    },
    Row {
        script: b">>",
        tokens: &[(Mark(Symbol::Gt), 0, 1), (Mark(Symbol::Gt), 1, 2)],
        why: "no shift",
    },
    Row {
        script: b">>=",
        tokens: &[(Mark(Symbol::Gt), 0, 1), (Mark(Symbol::Ge), 1, 3)],
        why: "the second is longer",
    },
    Row {
        script: b"><",
        tokens: &[(Mark(Symbol::Gt), 0, 1), (Mark(Symbol::Lt), 1, 2)],
        why: "no mark together",
    },
    Row {
        script: b"><=",
        tokens: &[(Mark(Symbol::Gt), 0, 1), (Mark(Symbol::Le), 1, 3)],
        why: "the second is longer",
    },
    Row {
        script: b"> =",
        tokens: &[(Mark(Symbol::Gt), 0, 1), (Mark(Symbol::Eq), 2, 3)],
        why: "a space parts them",
    },
    Row {
        script: b"==",
        tokens: &[(Mark(Symbol::Eq), 0, 1), (Mark(Symbol::Eq), 1, 2)],
        why: "no mark together",
    },
    Row {
        script: b"=<",
        tokens: &[(Mark(Symbol::Eq), 0, 1), (Mark(Symbol::Lt), 1, 2)],
        why: "nor these",
    },
    Row {
        script: b"=>",
        tokens: &[(Mark(Symbol::Eq), 0, 1), (Mark(Symbol::Gt), 1, 2)],
        why: "nor these",
    },
    Row {
        script: b"=<=>",
        tokens: &[(Mark(Symbol::Eq), 0, 1), (Mark(Symbol::NullEq), 1, 4)],
        why: "the longest one behind another",
    },
    Row {
        script: b"=!=",
        tokens: &[(Mark(Symbol::Eq), 0, 1), (Mark(Symbol::NeBang), 1, 3)],
        why: "two bytes behind one",
    },
    Row {
        script: b"!==",
        tokens: &[(Mark(Symbol::NeBang), 0, 2), (Mark(Symbol::Eq), 2, 3)],
        why: "and before one",
    },
    Row {
        script: b"!=>",
        tokens: &[(Mark(Symbol::NeBang), 0, 2), (Mark(Symbol::Gt), 2, 3)],
        why: "and another",
    },
    Row {
        script: b"!=!=",
        tokens: &[(Mark(Symbol::NeBang), 0, 2), (Mark(Symbol::NeBang), 2, 4)],
        why: "twice",
    },
    Row {
        script: b"**",
        tokens: &[(Mark(Symbol::Star), 0, 1), (Mark(Symbol::Star), 1, 2)],
        why: "two stars",
    },
    Row {
        script: b"..",
        tokens: &[(Mark(Symbol::Dot), 0, 1), (Mark(Symbol::Dot), 1, 2)],
        why: "two dots",
    },
    Row {
        script: b"()",
        tokens: &[
            (Mark(Symbol::LeftParen), 0, 1),
            (Mark(Symbol::RightParen), 1, 2),
        ],
        why: "two parentheses",
    },
    Row {
        script: b"+-*%",
        tokens: &[
            (Mark(Symbol::Plus), 0, 1),
            (Mark(Symbol::Minus), 1, 2),
            (Mark(Symbol::Star), 2, 3),
            (Mark(Symbol::Percent), 3, 4),
        ],
        why: "four operators",
    },
    Row {
        script: b"+-",
        tokens: &[(Mark(Symbol::Plus), 0, 1), (Mark(Symbol::Minus), 1, 2)],
        why: "a sign behind a sign",
    },
    Row {
        script: b"-+",
        tokens: &[(Mark(Symbol::Minus), 0, 1), (Mark(Symbol::Plus), 1, 2)],
        why: "and the other way",
    },
];

#[test]
fn marks_beside_marks(rt: HostRuntime) {
    for row in &MARKS {
        assert!(rt; is_read_so(rt.alloc(), row), "{row:?}");
    }
}
