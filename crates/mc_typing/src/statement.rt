ghost use Rattle.mc_ast.specs.Texts.{HasUtf8Strings};
ghost use Rattle.mc_catalog.specs.Lawful.{IsLawful};
ghost use Rattle.mc_typing.specs.Scope.{IsScope};
ghost use Rattle.mc_typing.specs.SoundStatements.{IsSoundStatement};
ghost use Rattle.mc_typing.specs.Statements.{scope_in, typed_in, typed_statement};
ghost use Rattle.mc_typing.specs.Wanted.{IsWanted};
ghost use Rattle.mc_typing.specs.Whole.{scope_named};
ghost use Rattle.std.specs.Prelude.{◌≡◌, ◌<◌, ◌^◌, IfOk, IfSome, length, position};
ghost use Rattle.std.specs.Str.{bytes_eq};

use crate::conjuncts::where_of;
use crate::fault::{TypeFault, refused};
use crate::grouping::is_grouped;
use crate::groups::group_keys;
use crate::headers::headers;
use crate::items::{all_items, star_columns};
use crate::laws::typing_law;
use crate::messages::no_table;
use crate::orders::all_keys;
use crate::scope::Scope;
use crate::session::Session;
use crate::typed::Typed;
use mc_ast::Statement;
use mc_base::Text;
use mc_catalog::{Catalog, TableDecl};
use mc_charset::CollId;
use std::alloc::Global;

/// The place of the table of this name.
fn table_place(tables: &[TableDecl], name: &[u8]) -> Option<usize>
    ensures place { result ≡ position (λ table. bytes_eq table.name name.now) tables.now }
    ensures within { IfSome result (λ i. i < length tables.now) }
{
    tables
        .iter()
        .position(|table| table.name.as_slice() == name)
}

/// The scope of a statement with this table.
fn scope_named(
    alloc: Global,
    tables: &[TableDecl],
    connection: CollId,
    name: &[u8],
) -> Result<Scope, TypeFault>
    requires few { length tables.now < 2 ^ 32 }
    ensures is { IsWanted result (scope_named tables.now connection name.now) }
    ensures scope { IfOk result (λ s. IfSome s.table (λ place. place < length tables.now)
        × (s.connection ≡ connection)) }
{
    match table_place(tables, name) {
        Some(place) => Ok(Scope {
            table: Some(place as u32),
            connection,
        }),
        None => Err(refused(no_table(alloc, name))),
    }
}

/// The scope of a statement: its table's place in the catalog, and the connection.
fn scope_in(
    alloc: Global,
    c: &Catalog,
    session: &Session,
    table: &Option<Text>,
) -> Result<Scope, TypeFault>
    requires lawful { IsLawful c.now }
    requires connection { session.now.connection.0 < length c.now.collations }
    ensures is { IsWanted result (scope_in c.now session.now table.now) }
    ensures scope { IfOk result (IsScope c.now) }
{
    match table {
        Some(name) => scope_named(
            alloc,
            c.tables.as_slice(),
            session.connection,
            name.as_slice(),
        ),
        None => Ok(Scope {
            table: None,
            connection: session.connection,
        }),
    }
}

/// A statement in its scope.
fn typed_in(
    alloc: Global,
    script: &[u8],
    statement: &Statement,
    c: &Catalog,
    s: Scope,
) -> Result<Typed, TypeFault>
    requires scope { IsScope c.now s }
    requires strings { HasUtf8Strings statement.now }
    ensures is { IsWanted result (typed_in script.now statement.now c.now s) }
    ensures distinct { IfOk result (λ t. t.distinct ≡ statement.now.distinct) }
{
    let mut next = 0;
    let items = all_items(alloc, c, s, statement, &mut next)?;
    let conjuncts = where_of(alloc, c, s, &statement.filter)?;
    let groups = group_keys(alloc, c, s, statement.groups.as_slice())?;
    let orders = all_keys(alloc, c, s, statement, &mut next)?;
    let own = statement.items.as_slice();
    let header = headers(alloc, script, star_columns(c, s, statement.star), own)?;
    Ok(Typed {
        explain: statement.explain,
        table: s.table,
        distinct: statement.distinct,
        header,
        items,
        conjuncts,
        grouped: is_grouped(statement),
        groups,
        orders,
        limit: statement.limit,
    })
}

/// The statement in the scope of its table.
#[tactic(auto, unfolding(crate::specs::Statements::typed_statement))]
fn typed(
    alloc: Global,
    statement: &Statement,
    script: &[u8],
    c: &Catalog,
    session: &Session,
) -> Result<Typed, TypeFault>
    requires lawful { IsLawful c.now }
    requires connection { session.now.connection.0 < length c.now.collations }
    requires strings { HasUtf8Strings statement.now }
    ensures is { IsWanted result (typed_statement script.now statement.now c.now session.now) }
    ensures distinct { IfOk result (λ t. t.distinct ≡ statement.now.distinct) }
{
    let s = scope_in(alloc, c, session, &statement.table)?;
    typed_in(alloc, script, statement, c, s)
}

/// Types a statement of a script, or refuses it: for want of its table first, then by the first
/// node that is refused, operands before their operation, through the items, WHERE, GROUP BY and
/// ORDER BY. The script gives the headers of items without an alias. MySQL 8.0 manual, 13.2.10,
/// 10.8.4 and 12.19.3.
pub fn type_statement(
    alloc: Global,
    statement: &Statement,
    script: &[u8],
    c: &Catalog,
    session: &Session,
) -> Result<Typed, TypeFault>
    requires lawful { IsLawful c.now }
    requires connection { session.now.connection.0 < length c.now.collations }
    requires strings { HasUtf8Strings statement.now }
    ensures is { IsWanted result (typed_statement script.now statement.now c.now session.now) }
    ensures sound { IfOk result (IsSoundStatement c.now) }
    ensures distinct { IfOk result (λ t. t.distinct ≡ statement.now.distinct) }
{
    typing_law();
    typed(alloc, statement, script, c, session)
}
