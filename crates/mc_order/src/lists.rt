ghost use Rattle.mc_order.specs.Laws.{IsAscending};
ghost use Rattle.mc_order.specs.Meaning.{separator};
ghost use Rattle.mc_order.specs.Order.{IsOrder, order_to_end, list_order};
ghost use Rattle.mc_order.specs.declared.pad.Pad.{Pad as Padding};
ghost use Rattle.mc_order.specs.declared.pad.Pad.TheVariants.{NoPad};
ghost use Rattle.std.specs.Cmp.{IsTotalOrder};
ghost use Rattle.std.specs.List.{All, Contains};
ghost use Rattle.std.specs.Ordering.{ordering_then};
ghost use Rattle.std.specs.Prelude.{◌≡◌, ◌≢◌, ◌⊎◌, ◌↔◌, ℕ, ◌<◌, List, ◌∷◌, ◌++◌, length};
ghost use Rattle.std.specs.declared.cmp.Ordering.TheVariants.{Equal, Greater};

use crate::Pad;
use std::cmp::Ordering;

/// The order of two lists of weights: `pad` says whether both count as prolonged by `space`, the
/// weight of U+0020, without end (MySQL 8.0 manual, 10.8.5). Without padding a list stands behind
/// each of its proper prefixes, and `space` isn't used.
#[tactic(auto, using(crate::proofs::Order::facts))]
pub fn compare_lists(a: &[u32], b: &[u32], pad: Pad, space: u32) -> Ordering
    ensures { result ≡ list_order pad space a.now b.now }
{
    let shared = a.len().min(b.len());
    match a[..shared].cmp(&b[..shared]) {
        Ordering::Equal => order_behind(&a[shared..], &b[shared..], pad, space),
        differs => differs,
    }
}

/// The order of two lists, one of them empty.
#[tactic(auto, using(crate::proofs::Order::facts))]
fn order_behind(a: &[u32], b: &[u32], pad: Pad, space: u32) -> Ordering
    requires { (length a.now ≡ 0) ⊎ (length b.now ≡ 0) }
    ensures { result ≡ list_order pad space a.now b.now }
{
    if a.is_empty() {
        order_to_end(b, pad, space).reverse()
    } else {
        order_to_end(a, pad, space)
    }
}

/// The order of a list and of what stands behind a list's end.
#[tactic(auto, using(crate::proofs::Order::order_to_end_unpadded))]
fn order_to_end(list: &[u32], pad: Pad, space: u32) -> Ordering
    ensures { result ≡ order_to_end pad space list.now }
{
    match pad {
        Pad::NoPad => list.len().cmp(&0),
        Pad::PadSpace => order_to_spaces(list, space),
    }
}

/// The order of a list and of spaces without end.
#[tactic(auto, using(crate::proofs::Order::facts))]
fn order_to_spaces(list: &[u32], space: u32) -> Ordering
    ensures { result ≡ order_to_end Pad.PadSpace space list.now }
{
    for weight in list {
        if *weight != space {
            return weight.cmp(&space);
        }
    }
    Ordering::Equal
}

/// What `list_order` is: the one order of two lists that are prolonged without end, and so a total
/// order. What two lists begin with decides nothing. Without padding only one list is equal to a
/// list, none is above what begins with it, and weights before a separator decide before what
/// stands behind it. Ascending lists of the same members are one.
pub fn order_laws()
    ensures described { (pad : Padding) (space : ℕ) (a b : List ℕ) →
        IsOrder pad space a b (list_order pad space a b) }
    ensures unique { (pad : Padding) (space : ℕ) (a b : List ℕ) (order : _) →
        IsOrder pad space a b order → list_order pad space a b ≡ order }
    ensures total { (pad : Padding) (space : ℕ) → IsTotalOrder (list_order pad space) }
    ensures front { (pad : Padding) (space : ℕ) (front a b : List ℕ) →
        list_order pad space (front ++ a) (front ++ b) ≡ list_order pad space a b }
    ensures same { (space : ℕ) (a b : List ℕ) → list_order NoPad space a b ≡ Equal → a ≡ b }
    ensures prolonged { (space : ℕ) (list more : List ℕ) →
        list_order NoPad space list (list ++ more) ≢ Greater }
    ensures levels { (space : ℕ) (a b more other : List ℕ) → All (λ weight. separator < weight) a →
        All (λ weight. separator < weight) b →
        list_order NoPad space (a ++ separator ∷ more) (b ++ separator ∷ other)
        ≡ ordering_then (list_order NoPad space a b) (list_order NoPad space more other) }
    ensures members { (lists others : List (List ℕ)) → IsAscending lists → IsAscending others →
        ((list : List ℕ) → Contains lists list ↔ Contains others list) → lists ≡ others }
{}
