ghost use Rattle.mc_charset.specs.Chars.{chars, IsWellFormed};
ghost use Rattle.mc_like.specs.Items.{items_of, literal_front, literal_count};
ghost use Rattle.mc_like.specs.Like.{is_like};
ghost use Rattle.mc_like.specs.Pattern.{AreOfSet};
ghost use Rattle.mc_order.specs.Meaning.{AreCharsOf};
ghost use Rattle.std.specs.Prelude.{◌≡◌, ◌+◌, ◌-◌, ◌*◌, ◌^◌, ◌≤◌};
ghost use Rattle.std.specs.Prelude.{◌++◌, [], IsTrue, IfOk};
ghost use Rattle.std.specs.Prelude.{length, min};

use crate::PatternItem;
use crate::matching::is_match_in;
use crate::read::put_items;
use mc_base::{List, NoMemory, Steps, Weights};
use mc_charset::Charset;
use mc_order::Collation;
use std::alloc::Global;
use std::marker::Model;

/// A pattern of LIKE. Contracts see its set and its items.
#[derive(Debug, Drop)]
pub struct Pattern {
    charset: Charset,
    items: List<PatternItem>,
    literal_prefix: Weights,
    ghost of_set: { AreOfSet charset items },
    ghost is_front: { literal_prefix ≡ literal_front items },
}

impl Model for Pattern {
    ghost use Rattle.mc_like.specs.Pattern.{CompiledPattern};

    ghost Value = { CompiledPattern };

    ghost view = { λ p. record { charset = p.charset; items = p.items; of_set = p.of_set } };
}

/// The pattern that a text in this set stands for: `%` is any number of characters, `_` is one, and
/// the escape makes the next character stand for itself, as it does itself at the text's end.
/// MySQL 8.0 manual, 12.8.1, LIKE.
pub fn compile(
    alloc: Global,
    set: Charset,
    text: &[u8],
    escape: Option<u32>,
) -> Result<Pattern, NoMemory>
    requires { IsWellFormed set text.now }
    ensures { IfOk result (λ pattern. (pattern.charset ≡ set)
        × (pattern.items ≡ items_of escape (chars set text.now))) }
{
    let mut items = List::new(alloc);
    put_items(set, escape, text, &mut items)?;
    let mut literal_prefix = Weights::new(alloc);
    put_literals(items.as_slice(), &mut literal_prefix)?;
    Ok(Pattern {
        charset: set,
        items,
        literal_prefix,
    })
}

/// Appends the literals before the first other item.
#[tactic(auto, using(crate::proofs::Items::fronts))]
fn put_literals(items: &[PatternItem], literals: &mut Weights) -> Result<(), NoMemory>
    ensures { IfOk result (λ _. literals.new ≡ literals.old ++ literal_front items.now) }
{
    literals.reserve(items.len())?;
    let mut left = items;
    while let Some((item, more)) = left.split_first() {
        let PatternItem::Literal(code) = *item else {
            return Ok(());
        };
        literals.push(code)?;
        left = more;
    }
    Ok(())
}

impl Pattern {
    /// The code points of the literals before the first `%` or `_`.
    pub fn literal_prefix(&self) -> &[u32]
        ensures front { result.now ≡ literal_front self.now.items }
        ensures of_set { AreCharsOf self.now.charset result.now }
    {
        self.literal_prefix.as_slice()
    }
    /// Whether a text matches, character by character: a literal matches one character that has
    /// its flat list under the collation, and no padding counts. Each comparison of two characters
    /// ticks once, so that there are at most `(n + 1) * (m + 1)` ticks for `n` characters and `m`
    /// items. It takes no memory. MySQL 8.0 manual, 12.8.1, LIKE.
    pub fn matches<C: Collation, W>(&self, collation: &C, text: &[u8], work: &mut Steps<W>) -> bool
        requires same_set { (C.meaning collation.now).charset ≡ self.now.charset }
        requires well_formed { IsWellFormed self.now.charset text.now }
        ensures exact { let codes = chars self.now.charset text.now in
            result ≡ is_like (C.meaning collation.now) self.now.items codes }
        ensures at_most { let n = length (chars self.now.charset text.now) in
            let m = length self.now.items in
            work.new ≤ work.old + (n + 1) * (m + 1) }
        ensures later { work.old ≤ work.new }
        ensures each_literal { IsTrue result →
            min (work.old + literal_count self.now.items) (2 ^ 64 - 1) ≤ work.new }
    {
        let _so_far = work.count();
        is_match_in(self.charset, collation, self.items.as_slice(), text, work)
    }
}
