ghost use Rattle.std.specs.Prelude.{ℕ, ◌≤◌, length, slice_index};

use mc_allkeys::{Element, Keys, read_allkeys};
use mc_base::{List, NoMemory, Weights};
use std::alloc::Global;

const TABLE: &[u8] = b"@version 9.0.0
@implicitweights 17000..18AFF; FB00
0061 ; [.1C47.0020.0002]
0062 ; [.1C60.0020.0002]
0061 0062 ; [.1CA2.0020.0002]
";

/// The element that the tests put.
const PUT: Element = Element {
    p: 0xFC01,
    s: 0x20,
    t: 2,
};

/// Makes one element the entry of one text.
fn put_one(alloc: Global, keys: &mut Keys, text: Weights) -> Result<(), NoMemory>
    requires some { 1 ≤ length text }
    requires short { length text ≤ 6 }
    requires codes { (i : ℕ) → slice_index text i ≤ 0x10FFFF }
{
    let mut elements = List::new(alloc);
    elements.push(PUT)?;
    let mut texts = List::new(alloc);
    texts.push(text)?;
    let mut all = List::new(alloc);
    all.push(elements)?;
    keys.put_all(&texts, &all)
}

/// A table with the element as the entry of a character.
fn with_single(alloc: Global, code: u32) -> Option<Keys>
    requires { code ≤ 0x10FFFF }
{
    let mut keys = read_allkeys(alloc, TABLE).ok()?;
    let mut text = Weights::new(alloc);
    text.push(code).ok()?;
    put_one(alloc, &mut keys, text).ok()?;
    Some(keys)
}

/// A table with the element as the entry of two characters.
fn with_pair(alloc: Global, first: u32, second: u32) -> Option<Keys>
    requires first { first ≤ 0x10FFFF }
    requires second { second ≤ 0x10FFFF }
{
    let mut keys = read_allkeys(alloc, TABLE).ok()?;
    let mut text = Weights::new(alloc);
    text.push(first).ok()?;
    text.push(second).ok()?;
    put_one(alloc, &mut keys, text).ok()?;
    Some(keys)
}

/// Whether the entry of a character is the element.
fn is_put(keys: &Keys, code: u32) -> bool {
    keys.single(code) == Some(&[PUT])
}

/// Whether the longest contraction that begins a text has two characters and the element.
fn is_put_pair(keys: &Keys, text: &[u32]) -> bool {
    keys.longest(text) == Some((2, &[PUT]))
}

/// What isn't so of an entry that was there.
fn wrong_old(keys: &Keys) -> Option<&'static str> {
    if !is_put(keys, 0x61) {
        return Some("the entry is the one that was put");
    }
    if is_put(keys, 0x62) || keys.single(0x62).is_none() {
        return Some("every other entry stays");
    }
    if is_put_pair(keys, &[0x61, 0x62]) || keys.contraction_count() != 1 {
        return Some("contractions stay");
    }
    if keys.implicit_base(0x17001) != Some((0xFB00, 1)) {
        return Some("ranges stay");
    }
    None
}

/// What isn't so of an entry that was not there.
fn wrong_new(keys: &Keys) -> Option<&'static str> {
    if !is_put(keys, 0xE5) {
        return Some("a character that was not listed is");
    }
    if is_put(keys, 0x61) || keys.single(0x61).is_none() {
        return Some("every other entry stays beside it");
    }
    None
}

/// What isn't so of a contraction that was there.
fn wrong_old_pair(keys: &Keys) -> Option<&'static str> {
    if !is_put_pair(keys, &[0x61, 0x62, 0x63]) {
        return Some("the contraction has what was put");
    }
    if keys.contraction_count() != 1 {
        return Some("it is no second one");
    }
    None
}

/// What isn't so of a contraction that was not there.
fn wrong_new_pair(keys: &Keys) -> Option<&'static str> {
    if !is_put_pair(keys, &[0x62, 0x61]) {
        return Some("a contraction by a character that began none");
    }
    if is_put_pair(keys, &[0x61, 0x62]) || keys.contraction_count() != 2 {
        return Some("the other one stays");
    }
    None
}

/// What isn't so of putting an entry for a character.
fn wrong_single(alloc: Global) -> Option<&'static str> {
    match with_single(alloc, 0x61) {
        Some(old) => match with_single(alloc, 0xE5) {
            Some(new) => wrong_old(&old).or(wrong_new(&new)),
            None => Some("an entry is put for a new character"),
        },
        None => Some("an entry is put for an old character"),
    }
}

/// What isn't so of putting an entry for two characters.
fn wrong_pair(alloc: Global) -> Option<&'static str> {
    match with_pair(alloc, 0x61, 0x62) {
        Some(old) => match with_pair(alloc, 0x62, 0x61) {
            Some(new) => wrong_old_pair(&old).or(wrong_new_pair(&new)),
            None => Some("an entry is put for a new contraction"),
        },
        None => Some("an entry is put for an old contraction"),
    }
}

#[test]
fn entries_of_characters_are_put(rt: HostRuntime) {
    let wrong = wrong_single(rt.alloc());
    assert!(rt; wrong.is_none(), "{}", wrong.unwrap_or(""));
}

#[test]
fn contractions_are_put(rt: HostRuntime) {
    let wrong = wrong_pair(rt.alloc());
    assert!(rt; wrong.is_none(), "{}", wrong.unwrap_or(""));
}
