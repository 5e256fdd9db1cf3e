ghost use Rattle.mc_ast.specs.declared.expr.Form.TheViews.{out-Form};
ghost use Rattle.mc_typing.specs.Aggregates.{is_aggregate_form, is_constant};
ghost use Rattle.mc_typing.specs.Places.{place_at, place_below};
ghost use Rattle.mc_typing.specs.Walk.{settled};
ghost use Rattle.mc_typing.specs.Wanted.{IsLeft};
ghost use Rattle.std.specs.Prelude.{◌≡◌, ◌+◌, Ok};

use crate::callee::{callee_of, is_aggregate, shows_type};
use crate::fault::TypeFault;
use crate::likeness::is_key;
use crate::place::Place;
use mc_ast::{Expr, Form};

/// Whether the form itself is an aggregate.
pub(crate) fn is_aggregate_form(form: &Form) -> bool
    ensures { result ≡ is_aggregate_form (out-Form form.now) }
{
    match form {
        Form::CountAll | Form::CountDistinct(_) => true,
        Form::Call { name, .. } => is_aggregate(callee_of(name.as_slice())),
        _ => false,
    }
}

/// Whether the form is a constant, whatever its operands are.
fn is_constant(form: &Form) -> bool
    ensures { result ≡ is_constant (out-Form form.now) }
{
    match form {
        Form::Call { name, .. } => shows_type(callee_of(name.as_slice())),
        _ => false,
    }
}

/// The place of an expression: what a group's rows are grouped by has a value in the group.
pub(crate) fn place_at(groups: &[Expr], place: Place, e: &Expr) -> Place
    ensures { result ≡ place_at groups.now place e.now }
{
    match place {
        Place::Group => {
            if is_key(groups, e) {
                Place::Key
            } else {
                Place::Group
            }
        }
        Place::Row | Place::Key => place,
    }
}

/// The place of a form's operands: an aggregate takes its own in each row.
pub(crate) fn place_below(place: Place, form: &Form) -> Place
    ensures { result ≡ place_below place (out-Form form.now) }
{
    if is_aggregate_form(form) {
        Place::Row
    } else {
        place
    }
}

/// Counts one more aggregate.
fn count_one(next: &mut u32) -> Result<(), TypeFault>
    ensures { IsLeft result next.new (Ok (next.old + 1)) }
{
    match next.checked_add(1) {
        Some(more) => {
            *next = more;
            Ok(())
        }
        None => Err(TypeFault::NoMemory),
    }
}

/// Moves the number behind a form's operands behind the form: a constant has no aggregates, and an
/// aggregate is one more.
pub(crate) fn settle(form: &Form, first: u32, next: &mut u32) -> Result<(), TypeFault>
    ensures { IsLeft result next.new (Ok (settled (out-Form form.now) first next.old)) }
{
    if is_constant(form) {
        *next = first;
        Ok(())
    } else if is_aggregate_form(form) {
        count_one(next)
    } else {
        Ok(())
    }
}
