ghost use Rattle.mc_ast.specs.declared.expr.Expr.{Expr};
ghost use Rattle.mc_ast.specs.declared.statement.Statement.{Statement};
ghost use Rattle.mc_catalog.specs.Lawful.{IsLawful};
ghost use Rattle.mc_catalog.specs.declared.catalog.Catalog.{Catalog};
ghost use Rattle.mc_typing.specs.AggregatePlaces.{aggregate_places, own_places};
ghost use Rattle.mc_typing.specs.AggregateTypes.{
  aggregate_types,
  is_aggregate_node,
  types_with,
};
ghost use Rattle.mc_typing.specs.Exprs.{typing};
ghost use Rattle.mc_typing.specs.Operands.{IsTyOf};
ghost use Rattle.mc_typing.specs.Parts.{node_parts};
ghost use Rattle.mc_typing.specs.Scope.{IsScope};
ghost use Rattle.mc_typing.specs.Sound.{IsSound, IsSoundNode};
ghost use Rattle.mc_typing.specs.SoundStatements.{
  IsSoundStatement,
  statement_aggregates,
  statement_places,
};
ghost use Rattle.mc_typing.specs.Statements.{typed_statement};
ghost use Rattle.mc_typing.specs.declared.place.Place.{Place};
ghost use Rattle.mc_typing.specs.declared.scope.Scope.{Scope};
ghost use Rattle.mc_typing.specs.declared.session.Session.{Session};
ghost use Rattle.mc_typing.specs.declared.typed.Node.{Node, Node-F, out-Node, roll-Node};
ghost use Rattle.mc_typing.specs.declared.typed.Ty.{Ty};
ghost use Rattle.mc_typing.specs.declared.typed.Typed.{Typed};
ghost use Rattle.mc_typing.specs.declared.typed.TypedExpr.{TypedExpr};
ghost use Rattle.std.specs.List.{flat_map, range_with_len};
ghost use Rattle.std.specs.Prelude.{
  ◌≡◌,
  ◌<◌,
  ◌++◌,
  ℕ,
  [],
  All,
  Bool,
  List,
  Ok,
  length,
  true,
};

use mc_charset::{chars_law, set_names_law};
use mc_coerce::{operands_law, result_law};

/// What typing gives of an expression in its scope has a type with a collation of the catalog.
pub(crate) fn expression_law()
    ensures { (c : Catalog) (s : Scope) (groups : List Expr) (place : Place) (number : ℕ)
        (expr : Expr) (x : TypedExpr) → IsScope c s
        → typing c s groups place number expr ≡ Ok x → IsTyOf c x.ty }
{
    set_names_law();
    chars_law();
    operands_law();
    result_law();
}

/// What typing gives of a statement is sound: in a lawful catalog, with one of its collations as
/// the connection's.
pub fn typing_law()
    ensures { (script : List ℕ) (statement : Statement) (c : Catalog) (session : Session)
        (t : Typed) → IsLawful c
        → session.connection.0 < length c.collations
        → typed_statement script statement c session ≡ Ok t → IsSoundStatement c t }
{
    set_names_law();
    chars_law();
    operands_law();
    result_law();
}

/// A typed expression is sound exactly where its type has a collation of the catalog, its node
/// takes its operands, and each of these is sound. A test that a sound expression passes wherever
/// its operands pass it is passed by each. The aggregates of an expression are those of its
/// operands, and itself where it is one; over no aggregates none stands in a sound expression, and
/// one without aggregates is sound over any. The places of a sound statement's aggregates, in
/// their order, are 0, 1 and so on.
pub fn sound_law()
    ensures typed { (c : Catalog) (columns aggregates : List Ty) (x : TypedExpr)
        → IsSound c columns aggregates x → IsTyOf c x.ty }
    ensures node { (c : Catalog) (columns aggregates : List Ty) (x : TypedExpr)
        → IsSound c columns aggregates x
        → IsSoundNode c columns aggregates x.ty (out-Node x.node) }
    ensures parts { (c : Catalog) (columns aggregates : List Ty) (x : TypedExpr)
        → IsSound c columns aggregates x
        → All (IsSound c columns aggregates) (node_parts (out-Node x.node)) }
    ensures made { (c : Catalog) (columns aggregates : List Ty) (x : TypedExpr)
        → IsTyOf c x.ty → IsSoundNode c columns aggregates x.ty (out-Node x.node)
        → All (IsSound c columns aggregates) (node_parts (out-Node x.node))
        → IsSound c columns aggregates x }
    ensures tests { (c : Catalog) (columns aggregates : List Ty) (p : TypedExpr → Bool)
        → ((x : TypedExpr) → IsSound c columns aggregates x
        → All (λ y. p y ≡ true) (node_parts (out-Node x.node)) → p x ≡ true)
        → (x : TypedExpr) → IsSound c columns aggregates x → p x ≡ true }
    ensures types { (x : TypedExpr)
        → aggregate_types x ≡ types_with (is_aggregate_node (out-Node x.node))
        (flat_map aggregate_types (node_parts (out-Node x.node))) x.ty }
    ensures places { (x : TypedExpr)
        → aggregate_places x ≡ flat_map aggregate_places (node_parts (out-Node x.node))
        ++ own_places (out-Node x.node) }
    ensures numbered { (c : Catalog) (t : Typed) → IsSoundStatement c t
        → statement_places t ≡ range_with_len 0 (length (statement_aggregates t)) }
    ensures none { (c : Catalog) (columns : List Ty) (x : TypedExpr)
        → IsSound c columns [] x → aggregate_types x ≡ [] }
    ensures any { (c : Catalog) (columns aggregates others : List Ty) (x : TypedExpr)
        → IsSound c columns aggregates x → aggregate_types x ≡ [] → IsSound c columns others x }
{}
