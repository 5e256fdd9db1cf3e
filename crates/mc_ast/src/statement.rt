use crate::Expr;
use mc_base::{List, Span, Text};

/// A statement: MySQL 8.0 manual, 13.2.10.
#[derive(Drop)]
pub struct Statement {
    /// Whether EXPLAIN stands before it.
    pub explain: bool,
    pub distinct: bool,
    /// Whether `*` is its first item.
    pub star: bool,
    /// Its items without the `*`.
    pub items: List<Item>,
    pub table: Option<Text>,
    /// WHERE.
    pub filter: Option<Expr>,
    /// GROUP BY.
    pub groups: List<Expr>,
    /// ORDER BY.
    pub orders: List<OrderItem>,
    /// LIMIT, the offset first.
    pub limit: Option<(u64, u64)>,
}

/// An item of a statement. Its bytes go from the first to the last token of its expression, outer
/// parentheses included; the alias is left out.
#[derive(Drop)]
pub struct Item {
    pub expr: Expr,
    pub alias: Option<Text>,
    pub span: Span,
}

/// A place of ORDER BY.
#[derive(Drop)]
pub struct OrderItem {
    pub expr: Expr,
    pub desc: bool,
}
