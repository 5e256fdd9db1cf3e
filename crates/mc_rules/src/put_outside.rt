ghost use Rattle.std.specs.Prelude.{◌≡◌, ◌≤◌, ◌++◌, ◌∷◌, length, take, OnOk, OnErr};
ghost use Rattle.std.specs.List.{flat_map};
ghost use Rattle.std.specs.Option.{option_to_list};
ghost use Rattle.mc_rules.specs.Outside.{jamo_elements, outside_of};

use crate::family::UcaFamily;
use crate::unlisted::{Syllable, Unlisted, unlisted_jamo, unlisted_of};
use mc_allkeys::{Element, Keys};
use mc_base::{List, NoMemory};

/// Appends the elements that a code point without an entry has (UTS #10, 10.1.3). Without memory
/// `out` stays as it was.
pub fn outside(
    keys: &Keys,
    kind: UcaFamily,
    c: u32,
    out: &mut List<Element>,
) -> Result<(), NoMemory>
    requires { c ≤ 0x10FFFF }
    ensures ok { OnOk result (out.new ≡ out.old ++ outside_of keys.now kind c) }
    ensures err { OnErr result (out.new ≡ out.old) }
{
    match unlisted_of(keys, kind, c) {
        Unlisted::One(element) => out.push(element),
        Unlisted::Pair(first, second) => out.extend_from_slice(&[first, second]),
        Unlisted::Syllable(syllable) => put_syllable(keys, syllable, out),
    }
}

/// Appends the elements of a syllable's jamo, all of them or, without memory, none.
fn put_syllable(keys: &Keys, syllable: Syllable, out: &mut List<Element>) -> Result<(), NoMemory>
    ensures ok { OnOk result (out.new ≡ out.old ++ flat_map (jamo_elements keys.now.entries)
        (syllable.leading ∷ syllable.vowel ∷ option_to_list syllable.trailing)) }
    ensures err { OnErr result (out.new ≡ out.old) }
{
    let len = out.len();
    let put = put_jamo_of(keys, syllable, out);
    if put.is_err() {
        out.truncate(len);
    }
    put
}

/// Appends the elements of a syllable's jamo.
fn put_jamo_of(keys: &Keys, syllable: Syllable, out: &mut List<Element>) -> Result<(), NoMemory>
    ensures ok { OnOk result (out.new ≡ out.old ++ flat_map (jamo_elements keys.now.entries)
        (syllable.leading ∷ syllable.vowel ∷ option_to_list syllable.trailing)) }
    ensures kept { take (length out.old) out.new ≡ out.old }
{
    put_jamo(keys, syllable.leading, out)?;
    put_jamo(keys, syllable.vowel, out)?;
    match syllable.trailing {
        None => Ok(()),
        Some(trailing) => put_jamo(keys, trailing, out),
    }
}

/// Appends the elements of a jamo.
fn put_jamo(keys: &Keys, jamo: u16, out: &mut List<Element>) -> Result<(), NoMemory>
    ensures ok { OnOk result (out.new ≡ out.old ++ jamo_elements keys.now.entries jamo) }
    ensures err { OnErr result (out.new ≡ out.old) }
{
    match keys.single(u32::from(jamo)) {
        Some(elements) => out.extend_from_slice(elements),
        None => {
            let (first, second) = unlisted_jamo(jamo);
            out.extend_from_slice(&[first, second])
        }
    }
}
