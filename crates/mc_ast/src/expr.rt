use crate::{ArithOp, CmpOp, Cut, TrimSide};
use mc_base::{Boxed, List, Span, Text};

/// An expression, and the bytes of the script from the first to the last token of its own form.
#[cycle(expr)]
#[derive(Drop)]
pub struct Expr {
    pub span: Span,
    pub form: Form,
}

/// What an expression is: MySQL 8.0 manual, 9.5. Names and texts have their escapes and quotes
/// taken away. Parentheses make no form of their own.
#[cycle(expr)]
#[derive(Drop)]
pub enum Form {
    /// Two expressions or more.
    Or(List<Expr>),
    /// Two expressions or more.
    And(List<Expr>),
    Xor(Boxed<Expr>, Boxed<Expr>),
    Not(Boxed<Expr>),
    Compare {
        op: CmpOp,
        left: Boxed<Expr>,
        right: Boxed<Expr>,
    },
    IsNull {
        expr: Boxed<Expr>,
        negated: bool,
    },
    Like {
        expr: Boxed<Expr>,
        pattern: Boxed<Expr>,
        escape: Option<Text>,
        negated: bool,
    },
    In {
        expr: Boxed<Expr>,
        list: List<Expr>,
        negated: bool,
    },
    Between {
        expr: Boxed<Expr>,
        low: Boxed<Expr>,
        high: Boxed<Expr>,
        negated: bool,
    },
    Arith {
        op: ArithOp,
        left: Boxed<Expr>,
        right: Boxed<Expr>,
    },
    Neg(Boxed<Expr>),
    Collate {
        expr: Boxed<Expr>,
        name: Text,
    },
    Int(i64),
    True,
    False,
    Null,
    Str(Text),
    National(Text),
    Hex(Text),
    /// A string with the name of its set before it.
    IntroStr {
        set: Text,
        text: Text,
    },
    IntroHex {
        set: Text,
        text: Text,
    },
    /// A column.
    Name(Text),
    /// A column with its table.
    Qualified {
        table: Text,
        name: Text,
    },
    Convert {
        expr: Boxed<Expr>,
        set: Text,
    },
    CastChar {
        expr: Boxed<Expr>,
        set: Option<Text>,
    },
    CastBinary(Boxed<Expr>),
    CountAll,
    CountDistinct(Boxed<Expr>),
    /// Without `removed`, spaces are removed.
    Trim {
        side: TrimSide,
        removed: Option<Boxed<Expr>>,
        text: Boxed<Expr>,
    },
    SubstringFrom {
        expr: Boxed<Expr>,
        start: Boxed<Expr>,
        len: Option<Boxed<Expr>>,
    },
    WeightString {
        expr: Boxed<Expr>,
        cut: Option<Cut>,
    },
    /// A call of any other name, in lower case.
    Call {
        name: Text,
        args: List<Expr>,
    },
}
