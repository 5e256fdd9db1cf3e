ghost use Rattle.mc_charset.specs.Chars.{chars, IsWellFormed};
ghost use Rattle.mc_eval.specs.Matches.{liked};
ghost use Rattle.mc_eval.specs.Outcomes.{IsKept};
ghost use Rattle.mc_eval.specs.Prepared.{value_at};
ghost use Rattle.mc_eval.specs.Texts.{chars_in};
ghost use Rattle.mc_eval.specs.Truths.{turned};
ghost use Rattle.mc_like.specs.Items.{items_of};
ghost use Rattle.mc_like.specs.Like.{is_like};
ghost use Rattle.mc_charset.specs.declared.charset.Charset.{Charset as Set};
ghost use Rattle.mc_values.specs.declared.value.Value.TheVariants as value;
ghost use Rattle.std.specs.Prelude.{◌≡◌, ◌<◌, ◌≤◌, ℕ, All, IfOk, List, Option, Some};

use crate::texts::{in_set, stays};
use crate::truth::Truth;
use mc_base::{NoMemory, Steps, Text};
use mc_charset::{Charset, CollId};
use mc_like::Pattern;
use mc_order::{Book, Collation};
use mc_values::{Row, Value};
use std::alloc::Global;

/// LIKE, or NOT LIKE, of the column at a place, with a pattern of the collation's set.
#[derive(Drop)]
pub(crate) struct ColumnMatch {
    pub(crate) id: CollId,
    pub(crate) place: u32,
    pub(crate) pattern: Pattern,
    pub(crate) negated: bool,
}

impl ColumnMatch {
    /// Its truth in a row.
    pub(crate) fn truth<B: Book, W>(
        &self,
        alloc: Global,
        row: &Row,
        book: &B,
        work: &mut Steps<W>,
    ) -> Result<Truth, NoMemory>
        requires in_book { self.now.id.0 < B.count book.now }
        requires set { self.now.pattern.charset ≡ (B.meaning book.now self.now.id.0).charset }
        requires row { All IsKept row.now }
        ensures told { (set : Set) (text : List ℕ) (escape : Option ℕ)
            → self.now.pattern.items ≡ items_of escape
            (chars_in (B.meaning book.now self.now.id.0).charset (value.Str set text))
            → IfOk result (λ it. it ≡ turned self.now.negated
            (liked (B.meaning book.now) (Some self.now.id) escape
            (value_at row.now self.now.place) (value.Str set text))) }
        ensures later { work.old ≤ work.new }
    {
        match row.as_slice().get(self.place as usize) {
            Some(Value::Str { charset, text }) => {
                match self.matches(alloc, book, *charset, text, work) {
                    Ok(matches) => Ok(Truth::known(matches).turned(self.negated)),
                    Err(NoMemory) => Err(NoMemory),
                }
            }
            _ => Ok(Truth::Unknown),
        }
    }

    /// Whether this text of the column matches.
    fn matches<B: Book, W>(
        &self,
        alloc: Global,
        book: &B,
        from: Charset,
        text: &Text,
        work: &mut Steps<W>,
    ) -> Result<bool, NoMemory>
        requires in_book { self.now.id.0 < B.count book.now }
        requires set { self.now.pattern.charset ≡ (B.meaning book.now self.now.id.0).charset }
        requires column { IsWellFormed from text.now }
        ensures told { IfOk result (λ is. is ≡ is_like (B.meaning book.now self.now.id.0)
            self.now.pattern.items (chars_in (B.meaning book.now self.now.id.0).charset
            (value.Str from text.now))) }
        ensures later { work.old ≤ work.new }
    {
        let collation = book.by_id(self.id);
        let to = collation.charset();
        if stays(from, to, text) {
            return Ok(self.pattern.matches(collation, text.as_slice(), work));
        }
        match in_set(alloc, to, from, text) {
            Ok(text) => Ok(self.pattern.matches(collation, text.get().as_slice(), work)),
            Err(NoMemory) => Err(NoMemory),
        }
    }
}
