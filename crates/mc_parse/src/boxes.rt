//! Values that are boxed or let go together. Each function takes them by value, so that one that
//! reads has a single way out where memory or a token is missing.

ghost use Rattle.std.specs.Prelude.{◌≡◌, IfOk};

use mc_base::{Boxed, NoMemory};
use std::alloc::Global;

/// Two values in boxes; without memory both are dropped.
pub(crate) fn boxed_two<T: Drop>(
    alloc: Global,
    first: T,
    second: T,
) -> Result<(Boxed<T>, Boxed<T>), NoMemory>
    ensures first { IfOk result (λ found. found.0 ≡ first) }
    ensures second { IfOk result (λ found. found.1 ≡ second) }
{
    let first = Boxed::new(alloc, first)?;
    let second = Boxed::new(alloc, second)?;
    Ok((first, second))
}

/// Three values in boxes; without memory all are dropped.
pub(crate) fn boxed_three<T: Drop>(
    alloc: Global,
    first: T,
    second: T,
    third: T,
) -> Result<(Boxed<T>, Boxed<T>, Boxed<T>), NoMemory>
    ensures first { IfOk result (λ found. found.0 ≡ first) }
    ensures second { IfOk result (λ found. found.1 ≡ second) }
    ensures third { IfOk result (λ found. found.2 ≡ third) }
{
    let first = Boxed::new(alloc, first)?;
    let (second, third) = boxed_two(alloc, second, third)?;
    Ok((first, second, third))
}

/// Puts a value in the place of another, which is dropped.
pub(crate) fn put<T: Drop>(place: &mut T, value: T)
    ensures { place.new ≡ value }
{
    *place = value;
}

/// Lets a value go for the fault in its place.
pub(crate) fn instead<T: Drop, F>(_value: T, fault: F) -> F
    ensures { result ≡ fault }
{
    fault
}

/// Lets two values go for the fault in their place.
pub(crate) fn instead_of_two<S: Drop, T: Drop, F>(_first: S, _second: T, fault: F) -> F
    ensures { result ≡ fault }
{
    fault
}
