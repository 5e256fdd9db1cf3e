ghost use Rattle.mc_charset.specs.Chars.{IsWellFormed};
ghost use Rattle.mc_charset.specs.declared.charset.Charset.{Charset as Set};
ghost use Rattle.mc_eval.specs.Comparisons.{compared, text_order};
ghost use Rattle.mc_eval.specs.Outcomes.{IsKept};
ghost use Rattle.mc_eval.specs.Prepared.{flat_texts, on_sides, value_at, without_order};
ghost use Rattle.mc_eval.specs.SetTexts.{set_text};
ghost use Rattle.mc_eval.specs.Texts.{text_in};
ghost use Rattle.mc_values.specs.declared.value.Value.TheVariants as value;
ghost use Rattle.std.specs.Prelude.{◌≡◌, ◌<◌, ℕ, All, IfOk, List, Some};

use crate::comparisons::holds;
use crate::texts::{SetText, in_set, stays};
use crate::truth::Truth;
use mc_ast::CmpOp;
use mc_base::{NoMemory, Text};
use mc_charset::{Charset, CollId};
use mc_order::{Book, Collation};
use mc_values::{Row, Value};
use std::alloc::Global;
use std::cmp::Ordering;

/// A comparison of the column at a place with a text, which is in the set of the collation.
#[derive(Drop)]
pub(crate) struct ColumnComparison<'a> {
    pub(crate) op: CmpOp,
    pub(crate) id: CollId,
    pub(crate) place: u32,
    pub(crate) text: SetText<'a>,
    /// Whether the text is the left side.
    pub(crate) text_first: bool,
}

impl<'a> ColumnComparison<'a> {
    /// Its truth in a row.
    pub(crate) fn truth<B: Book>(
        &self,
        alloc: Global,
        row: &Row,
        book: &B,
    ) -> Result<Truth, NoMemory>
        requires in_book { self.now.id.0 < B.count book.now }
        requires text { IsWellFormed (B.meaning book.now self.now.id.0).charset
            (set_text self.now.text) }
        requires row { All IsKept row.now }
        ensures { (set : Set) (text : List ℕ)
            → set_text self.now.text
            ≡ text_in (B.meaning book.now self.now.id.0).charset (value.Str set text)
            → IfOk result (λ it. it ≡ on_sides self.now.text_first
            (compared (B.meaning book.now) (Some self.now.id) self.now.op)
            (value_at row.now self.now.place) (value.Str set text)) }
    {
        match row.as_slice().get(self.place as usize) {
            Some(Value::Str { charset, text }) => match self.order(alloc, book, *charset, text) {
                Ok(order) => Ok(Truth::known(holds(self.op, order))),
                Err(NoMemory) => Err(NoMemory),
            },
            _ => Ok(without_order(self.op)),
        }
    }

    /// The order of its sides, where this is the text of the column.
    fn order<B: Book>(
        &self,
        alloc: Global,
        book: &B,
        from: Charset,
        text: &Text,
    ) -> Result<Ordering, NoMemory>
        requires in_book { self.now.id.0 < B.count book.now }
        requires text { IsWellFormed (B.meaning book.now self.now.id.0).charset
            (set_text self.now.text) }
        requires column { IsWellFormed from text.now }
        ensures { (set : Set) (more : List ℕ)
            → set_text self.now.text
            ≡ text_in (B.meaning book.now self.now.id.0).charset (value.Str set more)
            → IfOk result (λ order. order ≡ on_sides self.now.text_first
            (text_order (B.meaning book.now self.now.id.0))
            (value.Str from text.now) (value.Str set more)) }
    {
        let collation = book.by_id(self.id);
        let to = collation.charset();
        if stays(from, to, text) {
            return Ok(self.compare(collation, text));
        }
        match in_set(alloc, to, from, text) {
            Ok(text) => Ok(self.compare(collation, text.get())),
            Err(NoMemory) => Err(NoMemory),
        }
    }

    /// The order of its sides, where this is the text of the column in the set of the collation.
    fn compare<C: Collation>(&self, collation: &C, text: &Text) -> Ordering
        requires text { IsWellFormed (C.meaning collation.now).charset (set_text self.now.text) }
        requires column { IsWellFormed (C.meaning collation.now).charset text.now }
        ensures { result ≡ on_sides self.now.text_first (flat_texts (C.meaning collation.now))
            text.now (set_text self.now.text) }
    {
        let column = text.as_slice();
        let text = self.text.get().as_slice();
        if self.text_first {
            collation.compare(text, column)
        } else {
            collation.compare(column, text)
        }
    }
}

/// A comparison of a text with what is no text.
fn without_order(op: CmpOp) -> Truth
    ensures { result ≡ without_order op }
{
    match op {
        CmpOp::NullEq => Truth::No,
        _ => Truth::Unknown,
    }
}
