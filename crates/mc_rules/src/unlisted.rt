ghost use Rattle.std.specs.Prelude.{◌≡◌, ◌≤◌, ◌<◌, ◌-◌, ◌+◌, ◌%◌, ◌/◌, ◌==◌, [], ◌∷◌};
ghost use Rattle.std.specs.List.{flat_map};
ghost use Rattle.std.specs.Option.{option_to_list};
ghost use Rattle.mc_allkeys.specs.Table.{Entries};
ghost use Rattle.mc_rules.specs.Jamo.{jamo_of, trailing_of};
ghost use Rattle.mc_rules.specs.Outside.{pair, implicit, uncovered, outside_new};
ghost use Rattle.mc_rules.specs.Outside.{outside_old, outside_of};
ghost use Rattle.mc_rules.specs.Unlisted.{elements_by};

use crate::bases::{new_base, old_base};
use crate::family::UcaFamily;
use crate::jamo::is_syllable;
use mc_allkeys::{Element, Keys};

/// The elements that a code point without an entry has, in a place of one size.
#[derive(Clone, Copy, Debug)]
pub enum Unlisted {
    /// One element.
    One(Element),
    /// Two elements, of a base and a number.
    Pair(Element, Element),
    /// Those of the jamo of a Hangul syllable, one after the other.
    Syllable(Syllable),
}

/// The jamo of a Hangul syllable (Unicode Standard, 3.12), as code points.
#[derive(Clone, Copy, Debug)]
pub struct Syllable {
    /// The leading consonant.
    pub leading: u16,
    /// The vowel.
    pub vowel: u16,
    /// The trailing consonant, if it has one.
    pub trailing: Option<u16>,
}

/// The elements that a code point without an entry has (UTS #10, 10.1.3); no memory is taken.
#[tactic(auto, unfolding(crate::specs::Outside::outside_of))]
pub fn unlisted_of(keys: &Keys, kind: UcaFamily, c: u32) -> Unlisted
    requires { c ≤ 0x10FFFF }
    ensures { elements_by keys.now.entries result ≡ outside_of keys.now kind c }
{
    match kind {
        UcaFamily::Uca4 => unlisted_old(c),
        UcaFamily::Uca520 => implicit(old_base(c), c),
        UcaFamily::Uca9 => unlisted_new(keys, c),
    }
}

/// The two elements of a jamo without an entry (UTS #10, 10.1.3), those of any character without a
/// script of its own.
pub fn unlisted_jamo(jamo: u16) -> (Element, Element)
    ensures { result.0 ∷ result.1 ∷ [] ≡ implicit 0xFBC0 jamo }
{
    let second = jamo % 0x8000 + 0x8000;
    pair(0xFBC0 + jamo / 0x8000, second)
}

/// The elements of a code point in version 4.0.0.
fn unlisted_old(c: u32) -> Unlisted
    requires { c ≤ 0x10FFFF }
    ensures { (entries : Entries) → elements_by entries result ≡ outside_old c }
{
    if c > 0xFFFF {
        return Unlisted::One(Element {
            p: 0xFFFD,
            s: 0x20,
            t: 2,
        });
    }
    implicit(old_base(c), c)
}

/// Two elements with these primary weights.
fn pair(first: u16, second: u16) -> (Element, Element)
    ensures { result.0 ∷ result.1 ∷ [] ≡ pair first second }
{
    let front = Element {
        p: first,
        s: 0x20,
        t: 2,
    };
    let behind = Element {
        p: second,
        s: 0,
        t: 0,
    };
    (front, behind)
}

/// The elements of a number with a base.
fn implicit(base: u16, number: u32) -> Unlisted
    requires small { base ≤ 0xFBC0 }
    requires is_code { number ≤ 0x10FFFF }
    ensures { (entries : Entries) → elements_by entries result ≡ implicit base number }
{
    let first = u32::from(base) + number / 0x8000;
    let second = number % 0x8000 + 0x8000;
    let (front, behind) = pair(first as u16, second as u16);
    Unlisted::Pair(front, behind)
}

/// The elements of a code point in version 9.0.0.
fn unlisted_new(keys: &Keys, c: u32) -> Unlisted
    requires { c ≤ 0x10FFFF }
    ensures { elements_by keys.now.entries result ≡ outside_new keys.now c }
{
    match keys.implicit_base(c) {
        Some((base, number)) => {
            let (front, behind) = pair(base, (number % 0x8000 + 0x8000) as u16);
            Unlisted::Pair(front, behind)
        }
        None => unlisted_uncovered(c),
    }
}

/// The elements of a code point that no range covers.
fn unlisted_uncovered(c: u32) -> Unlisted
    requires { c ≤ 0x10FFFF }
    ensures { (entries : Entries) → elements_by entries result ≡ uncovered entries c }
{
    if is_syllable(c) {
        Unlisted::Syllable(jamo_of(c - 0xAC00))
    } else {
        implicit(new_base(c), c)
    }
}

/// The jamo of a syllable's number.
fn jamo_of(number: u32) -> Syllable
    requires { number ≤ 0x2BA3 }
    ensures { result.leading ∷ result.vowel ∷ option_to_list result.trailing ≡ jamo_of number }
{
    Syllable {
        leading: (0x1100 + number / 588) as u16,
        vowel: (0x1161 + number % 588 / 28) as u16,
        trailing: trailing_of(number),
    }
}

/// The trailing jamo of a syllable's number, if it has one.
fn trailing_of(number: u32) -> Option<u16>
    ensures { option_to_list result ≡ trailing_of number }
{
    if number % 28 == 0 {
        None
    } else {
        Some((0x11A7 + number % 28) as u16)
    }
}
