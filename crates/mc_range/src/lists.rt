ghost use Rattle.mc_charset.specs.Chars.{chars, IsWellFormed};
ghost use Rattle.mc_order.specs.Consequences.{before_separator};
ghost use Rattle.mc_order.specs.Meaning.{flat_list};
ghost use Rattle.std.specs.Prelude.{◌≡◌, ◌≤◌, ◌++◌, ℕ, List, IfOk, length, take};

use mc_base::{NoMemory, Weights};
use mc_order::{Collation, characters_laws, collation_laws};
use std::alloc::Global;

/// What stands between the lists of two weight levels, and below every weight.
pub(crate) const SEPARATOR: u32 = 0;

/// The flat list of a text.
pub(crate) fn whole_list<C: Collation>(
    alloc: Global,
    collation: &C,
    text: &[u8],
) -> Result<Weights, NoMemory>
    requires { IsWellFormed (C.meaning collation.now).charset text.now }
    ensures { let m = C.meaning collation.now in
        IfOk result (λ list. list ≡ flat_list m (chars m.charset text.now)) }
{
    let mut list = Weights::new(alloc);
    collation.put_list(text, None, &mut list)?;
    Ok(list)
}

/// The first weight list of a text.
pub(crate) fn first_list<C: Collation>(
    alloc: Global,
    collation: &C,
    text: &[u8],
) -> Result<Weights, NoMemory>
    requires { IsWellFormed (C.meaning collation.now).charset text.now }
    ensures { let m = C.meaning collation.now in
        IfOk result (λ list. list ≡ m.level_list 1 (chars m.charset text.now)) }
{
    text_laws(collation);
    let mut list = whole_list(alloc, collation, text)?;
    let len = first_len(list.as_slice());
    list.truncate(len);
    Ok(list)
}

/// The first list of a text's characters is what stands before the first separator.
fn text_laws<C: Collation>(collation: &C)
    ensures { let m = C.meaning collation.now in
        (text : List ℕ) → IsWellFormed m.charset text →
        before_separator (flat_list m (chars m.charset text))
        ≡ m.level_list 1 (chars m.charset text) }
{
    collation_laws(collation);
    characters_laws();
}

/// How many numbers stand before the first separator.
#[tactic(auto, using(crate::proofs::Loops::first_steps))]
fn first_len(list: &[u32]) -> usize
    ensures within { result ≤ length list.now }
    ensures first { take result list.now ≡ before_separator list.now }
{
    let mut len = 0;
    while len < list.len() {
        if list[len] == SEPARATOR {
            return len;
        }
        len += 1;
    }
    len
}

/// These three, one behind the other.
pub(crate) fn joined(
    alloc: Global,
    front: &[u32],
    tail: &[u32],
    behind: &[u32],
) -> Result<Weights, NoMemory>
    ensures { IfOk result (λ list. list ≡ (front.now ++ tail.now) ++ behind.now) }
{
    let mut list = Weights::from_slice(alloc, front)?;
    list.extend_from_slice(tail)?;
    list.extend_from_slice(behind)?;
    Ok(list)
}
