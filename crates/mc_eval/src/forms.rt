ghost use Rattle.mc_charset.specs.Chars.{IsWellFormed};
ghost use Rattle.mc_eval.specs.Fit.{fits};
ghost use Rattle.mc_eval.specs.Node.{Place};
ghost use Rattle.mc_eval.specs.Prepared.{IsColumn, IsConstant, IsFormOf, on_sides, pair};
ghost use Rattle.mc_eval.specs.Texts.{chars_in};
ghost use Rattle.mc_eval.specs.Value.{value as value_of};
ghost use Rattle.mc_like.specs.Items.{items_of};
ghost use Rattle.mc_typing.specs.declared.typed.Node.{Node-F};
ghost use Rattle.mc_typing.specs.declared.typed.Node.TheViews.{out-Node};
ghost use Rattle.mc_typing.specs.declared.typed.TypedExpr.{TypedExpr as Expr};
ghost use Rattle.mc_values.specs.declared.value.Value.TheVariants as value;
ghost use Rattle.std.specs.Prelude.{◌≡◌, ◌<◌, ℕ, IfOk, IfSome, IsTrue, Some};

use crate::column_comparisons::ColumnComparison;
use crate::column_matches::ColumnMatch;
use crate::shape::{Shape, parts};
use crate::texts::in_set;
use mc_ast::CmpOp;
use mc_base::{NoMemory, Text};
use mc_charset::{Charset, CollId, chars_law};
use mc_like::{Pattern, compile};
use mc_order::{Book, Collation};
use mc_typing::{Node, TypedExpr};
use mc_values::Value;
use std::alloc::Global;

/// What is kept beside a conjunct.
#[derive(Drop)]
pub(crate) enum Form<'a> {
    Compared(ColumnComparison<'a>),
    Matched(ColumnMatch),
    /// Nothing: the expression is evaluated.
    Walked,
}

/// The expression, or the one that stands under its COLLATE, which has the same value.
fn bare(e: &TypedExpr) -> &TypedExpr
    ensures value { (p : Place) → value_of p e.now ≡ value_of p result.now }
    ensures fits { (count : ℕ) → IsTrue (fits count e.now) → IsTrue (fits count result.now) }
{
    let Shape::One(inner) = parts(e) else {
        return e;
    };
    match &e.node {
        Node::Collate(_) => inner,
        _ => e,
    }
}

/// A column has the value at its place of a row.
fn column_law(e: &TypedExpr, place: u32)
    requires { out-Node e.now.node ≡ Node-F.Column place }
    ensures { IsColumn e.now place }
{
    let (_e, _place) = (e, place);
}

/// The place of a column, alone or under COLLATE.
fn column_of(e: &TypedExpr) -> Option<u32>
    ensures { IfSome result (IsColumn e.now) }
{
    let bare = bare(e);
    match &bare.node {
        Node::Column(place) => {
            column_law(bare, *place);
            Some(*place)
        }
        _ => None,
    }
}

/// A literal has its value in each row; where it is a text, and the expression can be evaluated, it
/// is one of its set.
fn literal_law(e: &TypedExpr, charset: Charset, text: &Text)
    requires { out-Node e.now.node ≡ Node-F.Const (value.Str charset text.now) }
    ensures is { IsConstant e.now (value.Str charset text.now) }
    ensures well_formed { (count : ℕ) → IsTrue (fits count e.now) → IsWellFormed charset text.now }
{
    let (_e, _charset, _text) = (e, charset, text);
    chars_law();
}

/// The set and the text of a constant that is a text, alone or under COLLATE.
fn text_of<'a>(e: &'a TypedExpr) -> Option<(Charset, &'a Text)>
    ensures is { IfSome result (λ it. IsConstant e.now (value.Str it.0 it.1.now)) }
    ensures well_formed { (count : ℕ) → IsTrue (fits count e.now)
        → IfSome result (λ it. IsWellFormed it.0 it.1.now) }
{
    let bare = bare(e);
    match &bare.node {
        Node::Const(Value::Str { charset, text }) => {
            literal_law(bare, *charset, text);
            Some((*charset, text))
        }
        _ => None,
    }
}

/// A comparison of the column at a place with a text.
fn with_text<'a, B: Book>(
    alloc: Global,
    book: &B,
    op: CmpOp,
    id: CollId,
    place: u32,
    charset: Charset,
    text: &'a Text,
    text_first: bool,
) -> Result<Form<'a>, NoMemory>
    requires in_book { id.0 < B.count book.now }
    requires text { IsWellFormed charset text.now }
    ensures { (e column constant : Expr)
        → out-Node e.node
        ≡ Node-F.Compare op (Some id) (on_sides text_first pair column constant)
        → IsColumn column place
        → IsConstant constant (value.Str charset text.now)
        → IfOk result (IsFormOf (B.meaning book.now) e) }
{
    let set = book.by_id(id).charset();
    match in_set(alloc, set, charset, text) {
        Ok(text) => Ok(Form::Compared(ColumnComparison {
            op,
            id,
            place,
            text,
            text_first,
        })),
        Err(NoMemory) => Err(NoMemory),
    }
}

/// What is kept beside a comparison of these two sides.
fn comparison_form<'a, B: Book>(
    alloc: Global,
    book: &B,
    op: CmpOp,
    id: CollId,
    x: &'a TypedExpr,
    y: &'a TypedExpr,
) -> Result<Form<'a>, NoMemory>
    requires in_book { id.0 < B.count book.now }
    requires one { IsTrue (fits (B.count book.now) x.now) }
    requires other { IsTrue (fits (B.count book.now) y.now) }
    ensures { (e : Expr) → out-Node e.node ≡ Node-F.Compare op (Some id) (pair x.now y.now)
        → IfOk result (IsFormOf (B.meaning book.now) e) }
{
    match (column_of(x), text_of(y)) {
        (Some(place), Some((charset, text))) => {
            with_text(alloc, book, op, id, place, charset, text, false)
        }
        _ => match (column_of(y), text_of(x)) {
            (Some(place), Some((charset, text))) => {
                with_text(alloc, book, op, id, place, charset, text, true)
            }
            _ => Ok(Form::Walked),
        },
    }
}

/// The pattern that a text stands for in the set of a collation.
fn pattern_of<B: Book>(
    alloc: Global,
    book: &B,
    id: CollId,
    escape: Option<u32>,
    charset: Charset,
    text: &Text,
) -> Result<Pattern, NoMemory>
    requires in_book { id.0 < B.count book.now }
    requires text { IsWellFormed charset text.now }
    ensures set { IfOk result (λ it. it.charset ≡ (B.meaning book.now id.0).charset) }
    ensures items { IfOk result (λ it. it.items ≡ items_of escape
        (chars_in (B.meaning book.now id.0).charset (value.Str charset text.now))) }
{
    let set = book.by_id(id).charset();
    match in_set(alloc, set, charset, text) {
        Ok(text) => compile(alloc, set, text.get().as_slice(), escape),
        Err(NoMemory) => Err(NoMemory),
    }
}

/// What is kept beside LIKE of these two sides.
fn match_form<'a, B: Book>(
    alloc: Global,
    book: &B,
    id: CollId,
    escape: Option<u32>,
    negated: bool,
    x: &'a TypedExpr,
    y: &'a TypedExpr,
) -> Result<Form<'a>, NoMemory>
    requires in_book { id.0 < B.count book.now }
    requires other { IsTrue (fits (B.count book.now) y.now) }
    ensures { (e : Expr) → out-Node e.node ≡ Node-F.Like (Some id) (pair x.now y.now) escape negated
        → IfOk result (IsFormOf (B.meaning book.now) e) }
{
    match (column_of(x), text_of(y)) {
        (Some(place), Some((charset, text))) => {
            match pattern_of(alloc, book, id, escape, charset, text) {
                Ok(pattern) => Ok(Form::Matched(ColumnMatch {
                    id,
                    place,
                    pattern,
                    negated,
                })),
                Err(NoMemory) => Err(NoMemory),
            }
        }
        _ => Ok(Form::Walked),
    }
}

/// What is kept beside a conjunct.
pub(crate) fn form_of<'a, B: Book>(
    alloc: Global,
    e: &'a TypedExpr,
    book: &B,
) -> Result<Form<'a>, NoMemory>
    requires { IsTrue (fits (B.count book.now) e.now) }
    ensures { IfOk result (IsFormOf (B.meaning book.now) e.now) }
{
    let Shape::Two(x, y) = parts(e) else {
        return Ok(Form::Walked);
    };
    match &e.node {
        Node::Compare {
            op,
            coll: Some(id),
            ..
        } => comparison_form(alloc, book, *op, *id, x, y),
        Node::Like {
            coll: Some(id),
            escape,
            negated,
            ..
        } => match_form(alloc, book, *id, *escape, *negated, x, y),
        _ => Ok(Form::Walked),
    }
}
