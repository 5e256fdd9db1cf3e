ghost use Rattle.mc_typing.specs.Aggregates.{
  aggregate_expr,
  aggregate_in,
  aggregate_of,
  aggregate_ty,
  count_all,
  unfit,
};
ghost use Rattle.mc_typing.specs.Wanted.{IsWanted};
ghost use Rattle.std.specs.Prelude.{◌≡◌, Ok};

use crate::fault::{TypeFault, refused};
use crate::messages::wrong_argument;
use crate::operands::is_text;
use crate::operators::number_expr;
use crate::place::Place;
use crate::typed::{AggName, Node, Ty, TypedExpr};
use mc_base::Boxed;
use std::alloc::Global;

/// The type of an aggregate of an argument of this type.
fn aggregate_ty(name: AggName, ty: Ty) -> Ty
    ensures { result ≡ aggregate_ty name ty }
{
    match name {
        AggName::Min | AggName::Max => ty,
        AggName::Count | AggName::Sum => Ty::Int,
    }
}

/// Whether the aggregate takes no argument of this type: texts have no sum.
fn unfit(name: AggName, ty: Ty) -> bool
    ensures { result ≡ unfit name ty }
{
    match name {
        AggName::Sum => is_text(ty),
        AggName::Count | AggName::Min | AggName::Max => false,
    }
}

/// COUNT(*) of this number among the aggregates of its statement, where it stands.
pub(crate) fn count_all(alloc: Global, place: Place, number: u32) -> Result<TypedExpr, TypeFault>
    ensures { IsWanted result (count_all place number) }
{
    match place {
        Place::Row => Err(refused(wrong_argument(alloc, b"count"))),
        Place::Group | Place::Key => Ok(number_expr(Node::Aggregate {
            name: AggName::Count,
            distinct: false,
            arg: None,
            place: number,
        })),
    }
}

/// An aggregate of its argument.
fn aggregate_node(
    alloc: Global,
    number: u32,
    name: AggName,
    distinct: bool,
    x: TypedExpr,
) -> Result<TypedExpr, TypeFault>
    ensures { IsWanted result (Ok (aggregate_expr number name distinct x)) }
{
    let ty = aggregate_ty(name, x.ty);
    Ok(TypedExpr {
        node: Node::Aggregate {
            name,
            distinct,
            arg: Some(Boxed::new(alloc, x)?),
            place: number,
        },
        ty,
    })
}

/// An aggregate of its argument, where it stands, by the name that it is called by.
pub(crate) fn aggregate(
    alloc: Global,
    place: Place,
    number: u32,
    op: &[u8],
    name: AggName,
    distinct: bool,
    x: TypedExpr,
) -> Result<TypedExpr, TypeFault>
    ensures { IsWanted result (aggregate_of place number op.now name distinct x) }
{
    match place {
        Place::Row => Err(refused(wrong_argument(alloc, op))),
        Place::Group | Place::Key => {
            if unfit(name, x.ty) {
                Err(refused(wrong_argument(alloc, op)))
            } else {
                aggregate_node(alloc, number, name, distinct, x)
            }
        }
    }
}
