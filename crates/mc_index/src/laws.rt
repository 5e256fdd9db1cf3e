ghost use Rattle.mc_index.specs.Digits.{binary_digits};
ghost use Rattle.mc_index.specs.Entries.{AreApart, AreOrdered, OneIsSealed};
ghost use Rattle.mc_index.specs.Laws.{CountsPlaces, NoneBetweenTurned, PlacesAreBetween};
ghost use Rattle.std.specs.Prelude.{ℕ, ◌<◌, ◌≤◌, ◌+◌, ◌*◌, ◌^◌};

use crate::Index;
use mc_order::order_laws;

/// What the places of bounds are good for: the entries of an index ascend and have a row each, so
/// those whose keys lie in an interval are exactly those at the places from its lower end to its
/// upper end.
pub fn index_law(index: &Index)
    ensures ordered { AreOrdered index.now }
    ensures apart { AreApart index.now.entries }
    ensures places { PlacesAreBetween index.now }
    ensures counts { CountsPlaces index.now }
    ensures none { NoneBetweenTurned index.now }
{
    order_laws();
    index.order_law();
}

/// The binary digits of a number: so many that it is below two to their count, and no more.
pub fn digits_law()
    ensures enough { (n : ℕ) → n < 2 ^ binary_digits n }
    ensures least { (n : ℕ) → 2 ^ binary_digits n ≤ 2 * n + 1 }
{}

/// What was added makes one index.
pub fn seal_law()
    ensures { OneIsSealed }
{
    order_laws();
}
