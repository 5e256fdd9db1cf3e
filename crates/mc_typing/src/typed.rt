use mc_ast::{ArithOp, CmpOp, Cut};
use mc_base::{Boxed, List, Text};
use mc_charset::{Charset, CollId};
use mc_coerce::Operand;
use mc_values::Value;

/// The type of an expression.
#[derive(Clone, Copy, Debug, PartialEq, Eq)]
pub enum Ty {
    /// Of NULL.
    Null,
    /// A whole number.
    Int,
    /// A text: its set, collation, level of coercibility and repertoire.
    Str(Operand),
}

/// A function of numbers and texts. The side of TRIM is part of its name.
#[derive(Clone, Copy, Debug, PartialEq, Eq)]
pub enum Func {
    Concat,
    ConcatWs,
    CharLength,
    Length,
    Hex,
    Substring,
    Left,
    Right,
    TrimBoth,
    TrimLeading,
    TrimTrailing,
    Lpad,
    Rpad,
    Repeat,
    Reverse,
    Replace,
    Strcmp,
    Mod,
}

/// An aggregate of the rows of a group.
#[derive(Clone, Copy, Debug, PartialEq, Eq)]
pub enum AggName {
    Count,
    Min,
    Max,
    Sum,
}

/// An expression that is typed.
#[cycle(typed)]
#[derive(Drop)]
pub struct TypedExpr {
    pub node: Node,
    pub ty: Ty,
}

/// What a typed expression does. `args` are the operands in the script's order. A text that an
/// operation takes in another set is converted by it: to the set of `coll`, or of `uses`.
#[cycle(typed)]
#[derive(Drop)]
pub enum Node {
    Const(Value),
    /// The value at this place of the row.
    Column(u32),
    Collate(Boxed<TypedExpr>),
    /// Numbers are compared without a collation.
    Compare {
        op: CmpOp,
        coll: Option<CollId>,
        args: List<TypedExpr>,
    },
    /// The escape is a character of the script; with None no character is one.
    Like {
        coll: Option<CollId>,
        args: List<TypedExpr>,
        escape: Option<u32>,
        negated: bool,
    },
    In {
        coll: Option<CollId>,
        args: List<TypedExpr>,
        negated: bool,
    },
    Between {
        coll: Option<CollId>,
        args: List<TypedExpr>,
        negated: bool,
    },
    IsNull {
        expr: Boxed<TypedExpr>,
        negated: bool,
    },
    Not(Boxed<TypedExpr>),
    Neg(Boxed<TypedExpr>),
    And(List<TypedExpr>),
    Or(List<TypedExpr>),
    Xor(List<TypedExpr>),
    Arith {
        op: ArithOp,
        args: List<TypedExpr>,
    },
    /// `uses` is what the texts have together, where the function brings them together.
    Call {
        name: Func,
        uses: Option<Operand>,
        args: List<TypedExpr>,
    },
    /// The digits of a number as a text of the set.
    NumberText {
        charset: Charset,
        expr: Boxed<TypedExpr>,
    },
    Convert {
        to: Charset,
        expr: Boxed<TypedExpr>,
    },
    /// COUNT(*) alone has no argument. `place` counts the aggregates of a statement from 0.
    Aggregate {
        name: AggName,
        distinct: bool,
        arg: Option<Boxed<TypedExpr>>,
        place: u32,
    },
    WeightString {
        cut: Option<Cut>,
        expr: Boxed<TypedExpr>,
    },
}

/// A key of ORDER BY.
#[derive(Drop)]
pub struct TypedOrder {
    pub expr: TypedExpr,
    pub desc: bool,
}

/// A statement that is typed.
#[derive(Drop)]
pub struct Typed {
    pub explain: bool,
    /// The table's place in the catalog.
    pub table: Option<u32>,
    pub distinct: bool,
    /// The header of each item, in UTF-8.
    pub header: List<Text>,
    /// Those that `*` stands for among them.
    pub items: List<TypedExpr>,
    /// WHERE: the members of its AND, taken apart through each AND among them.
    pub conjuncts: List<TypedExpr>,
    pub grouped: bool,
    pub groups: List<TypedExpr>,
    pub orders: List<TypedOrder>,
    /// The offset and the count.
    pub limit: Option<(u64, u64)>,
}
