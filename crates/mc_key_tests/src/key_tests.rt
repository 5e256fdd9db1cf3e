ghost use Rattle.mc_order.specs.Laws.{greatest_weight};
ghost use Rattle.std.specs.Prelude.{◌≡◌, ◌≤◌, IfOk};

use mc_base::{NoMemory, Steps, Weights};
use mc_charset::{CollId, is_well_formed};
use mc_key::{
    Bound, TOP, compare_bound, compare_key, compare_with_fronts, front_of, key_laws, make_bound,
    make_key, put_key,
};
use mc_order::{BinCollation, Collation, Pad, collation_laws};
use std::alloc::Global;
use std::cmp::Ordering;

/// What a counter counts here.
#[derive(Drop)]
struct Compared;

/// The bound behind all that begins like `a` under latin1_bin.
fn behind_a(alloc: Global, pad: Pad, space: u32) -> Result<Bound, NoMemory>
    requires { space ≤ greatest_weight }
    ensures pad { IfOk result (λ bound. bound.pad ≡ pad) }
    ensures space { IfOk result (λ bound. bound.space ≡ space) }
{
    let mut numbers = Weights::new(alloc);
    numbers.push(0x62)?;
    numbers.push(TOP)?;
    make_bound(alloc, &numbers, pad, space)
}

/// The order of the keys of a text and of `a` under latin1_bin.
fn key_order(alloc: Global, text: &[u8]) -> Result<Ordering, NoMemory> {
    key_laws();
    let collation = BinCollation::new(CollId(1));
    if !is_well_formed(collation.charset(), text) || !is_well_formed(collation.charset(), b"a") {
        return Ok(Ordering::Less);
    }
    let key = make_key(alloc, &collation, text, None)?;
    let other = make_key(alloc, &collation, b"a", None)?;
    Ok(compare_key(&key, &other))
}

/// The order of the key of a text's first character and of the bound behind all that begins like
/// `a`, with its count of ticks.
fn bound_order(alloc: Global, text: &[u8]) -> Result<(Ordering, u64), NoMemory> {
    let collation = BinCollation::new(CollId(1));
    collation_laws(&collation);
    let mut work = Steps::start(Compared);
    if !is_well_formed(collation.charset(), text) {
        return Ok((Ordering::Equal, 0));
    }
    let bound = behind_a(alloc, collation.pad(), collation.space())?;
    let key = make_key(alloc, &collation, text, Some(1))?;
    let order = compare_bound(&key, &bound, &mut work);
    Ok((order, work.count()))
}

#[test]
fn spaces_at_the_end_decide_nothing(rt: HostRuntime) {
    assert!(rt; key_order(rt.alloc(), b"a  ") == Ok(Ordering::Equal));
}

#[test]
fn a_bound_stands_behind_what_begins_like_it(rt: HostRuntime) {
    assert!(rt; bound_order(rt.alloc(), b"ab") == Ok((Ordering::Less, 1)));
}

/// The order of two unpadded lists, by their fronts first.
fn front_order(list: &[u32], other: &[u32]) -> Ordering {
    let front = front_of(list, Pad::NoPad, 0);
    let other_front = front_of(other, Pad::NoPad, 0);
    compare_with_fronts(front, list, other_front, other, Pad::NoPad, 0)
}

#[test]
fn fronts_have_the_first_eight_weights(rt: HostRuntime) {
    assert!(rt; front_of(&[0x61, 0x62], Pad::NoPad, 0) == 0x0061_0062 << 96);
    let padded = 0x0061_0062_0020_0020_0020_0020_0020_0020;
    assert!(rt; front_of(&[0x61, 0x62], Pad::PadSpace, 0x20) == padded);
    let eight = 0x0001_0002_0003_0004_0005_0006_0007_0008;
    assert!(rt; front_of(&[1, 2, 3, 4, 5, 6, 7, 8, 9], Pad::NoPad, 0) == eight);
}

#[test]
fn what_a_great_weight_hides_the_lists_decide(rt: HostRuntime) {
    assert!(rt; front_of(&[0x61, 70_000, 0x62], Pad::NoPad, 0) == 0x0061_FFFF << 96);
    assert!(rt; front_order(&[0x61, 70_000], &[0x61, 70_001]) == Ordering::Less);
    assert!(rt;
        front_order(&[0x61], &[0x61, 0]) == Ordering::Less,
        "a tie of an end and 0"
    );
}

/// The key of a text under latin1_bin, behind the weight of a space.
fn behind_a_space(alloc: Global, text: &[u8]) -> Result<Weights, NoMemory> {
    let collation = BinCollation::new(CollId(1));
    let mut keys = Weights::new(alloc);
    keys.push(collation.space())?;
    if is_well_formed(collation.charset(), text) {
        put_key(&collation, text, &mut keys)?;
    }
    Ok(keys)
}

#[test]
fn a_key_leaves_what_stands_in_front_of_it(rt: HostRuntime) {
    let none = behind_a_space(rt.alloc(), b"  ");
    assert!(rt; matches!(&none, Ok(keys) if keys.len() == 1));
    let one = behind_a_space(rt.alloc(), b"a ");
    assert!(rt; matches!(&one, Ok(keys) if keys.len() == 2));
}
