ghost use Rattle.mc_coerce.specs.Aggregate.{result_for, aggregate, class_in_set, counted, greatest};
ghost use Rattle.mc_coerce.specs.Aggregate.{is_refused, later, of_bin, takes_part};
ghost use Rattle.mc_coerce.specs.Demand.{decides, result_by, result_of};
ghost use Rattle.mc_coerce.specs.Operand.{AreOperands};
ghost use Rattle.std.specs.Prelude.{◌≡◌, length};

use crate::demand::{Demand, contender, meets};
use crate::levels::{IGNORABLE, NO_COLLATION};
use crate::operand::{Agg, Operand, Purpose};
use mc_charset::{Charset, bin_of};
use mc_convert::Repertoire;

/// What the operands have together. Those of level 6 have no say; of the others the one that beats
/// each gives set, collation and level. Where none does, a text takes the `_bin` of a set, at
/// level 1, through an operand that isn't explicit and beats each other one or has its set and
/// level. `Mix` exactly elsewhere, and where two or more would be compared at level 1. It takes no
/// memory and goes over the list at most six times. MySQL 8.0 manual, 10.8.4.
pub fn aggregate(list: &[Operand], purpose: Purpose) -> Agg
    requires { AreOperands list.now }
    ensures { result ≡ aggregate list.now purpose }
{
    if count(list) == 0 {
        return Agg::Uses(of_bin(Charset::Binary, IGNORABLE, Repertoire::Ascii));
    }
    match result_for(list, purpose) {
        Some(operand) => Agg::Uses(operand),
        None => Agg::Mix,
    }
}

/// What those that take part have together, if anything.
fn result_for(list: &[Operand], purpose: Purpose) -> Option<Operand>
    requires { AreOperands list.now }
    ensures { result ≡ result_for purpose (counted list.now) }
{
    match (purpose, result_by(list, Demand::Beat)) {
        (Purpose::Compare, Some(winner)) => {
            if is_refused(list, &winner) {
                None
            } else {
                Some(winner)
            }
        }
        (Purpose::Compare, None) => None,
        (Purpose::Text, Some(winner)) => Some(winner),
        (Purpose::Text, None) => result_by(list, Demand::Share),
    }
}

/// Whether they are two or more, and this result is no collation to compare them by.
fn is_refused(list: &[Operand], winner: &Operand) -> bool
    ensures { result ≡ is_refused (counted list.now) winner.now }
{
    winner.level == NO_COLLATION && count(list) > 1
}

/// How many take part.
fn count(list: &[Operand]) -> usize
    ensures { result ≡ length (counted list.now) }
{
    list.iter().filter(|operand| takes_part(operand)).count()
}

/// What they have together through one of them that meets the demand to each: the candidate that
/// one pass leaves, if it does.
fn result_by(list: &[Operand], demand: Demand) -> Option<Operand>
    requires { AreOperands list.now }
    ensures { result ≡ result_by demand (counted list.now) }
{
    let mut candidate = None;
    for operand in list {
        if takes_part(operand) {
            candidate = Some(contender(demand, candidate, operand));
        }
    }
    let decider = candidate?;
    if decides(list, demand, &decider) {
        Some(result_of(list, demand, &decider))
    } else {
        None
    }
}

/// Whether the operand meets the demand to each one that takes part.
fn decides(list: &[Operand], demand: Demand, a: &Operand) -> bool
    ensures { result ≡ decides demand (counted list.now) a.now }
{
    for b in list {
        if takes_part(b) && !meets(demand, a, b) {
            return false;
        }
    }
    true
}

/// What they have together where this one of them decides.
fn result_of(list: &[Operand], demand: Demand, a: &Operand) -> Operand
    ensures { result ≡ result_of demand (counted list.now) a.now }
{
    let repertoire = class_in_set(a.charset, greatest(list));
    match demand {
        Demand::Beat => Operand { repertoire, ..*a },
        Demand::Share => of_bin(a.charset, NO_COLLATION, repertoire),
    }
}

/// The greatest repertoire of those that take part.
fn greatest(list: &[Operand]) -> Repertoire
    ensures { result ≡ greatest (counted list.now) }
{
    let mut class = Repertoire::Ascii;
    for operand in list {
        if takes_part(operand) {
            class = later(class, operand.repertoire);
        }
    }
    class
}

/// The later class of the two in the chain.
fn later(class: Repertoire, other: Repertoire) -> Repertoire
    ensures { result ≡ later class other }
{
    if class.is_at_most(other) {
        other
    } else {
        class
    }
}

/// The class of a text of the set whose characters are of this class.
fn class_in_set(set: Charset, class: Repertoire) -> Repertoire
    ensures { result ≡ class_in_set set class }
{
    match (set, class) {
        (Charset::Binary, Repertoire::Ascii) => Repertoire::Ascii,
        (Charset::Binary, _) => Repertoire::Bytes,
        (_, class) => class,
    }
}

/// An operand of a set's binary collation.
fn of_bin(set: Charset, level: u8, repertoire: Repertoire) -> Operand
    ensures { result ≡ of_bin set level repertoire }
{
    Operand {
        charset: set,
        collation: bin_of(set),
        bin: true,
        level,
        repertoire,
    }
}

/// Whether the operand has a say in what a list has together: whether its level isn't that of NULL.
/// A message of an illegal mix counts those alone.
pub fn takes_part(operand: &Operand) -> bool
    ensures { result ≡ takes_part operand.now }
{
    operand.level < IGNORABLE
}
