ghost use Rattle.mc_typing.specs.Statements.{bytes_at, header_of};
ghost use Rattle.std.specs.Prelude.{◌≡◌, ◌++◌, IfOk, OnOk, drop, map, take};

use mc_ast::Item;
use mc_base::{List, NoMemory, Span, Text};
use mc_catalog::ColumnDecl;
use std::alloc::Global;

/// The first bytes of these, so many or all.
fn front(bytes: &[u8], count: usize) -> &[u8]
    ensures { result.now ≡ take count bytes.now }
{
    bytes.get(..count).unwrap_or(bytes)
}

/// The bytes behind so many of these.
fn behind(bytes: &[u8], count: usize) -> &[u8]
    ensures { result.now ≡ drop count bytes.now }
{
    bytes.get(count..).unwrap_or(&[])
}

/// The bytes of a script that a span has.
fn bytes_at(script: &[u8], span: Span) -> &[u8]
    ensures { result.now ≡ bytes_at script.now span }
{
    front(
        behind(script, span.start as usize),
        span.end.saturating_sub(span.start) as usize,
    )
}

/// The header of an item: its alias, else its own bytes.
fn header_of(alloc: Global, script: &[u8], item: &Item) -> Result<Text, NoMemory>
    ensures { IfOk result (λ text. text ≡ header_of script.now item.now) }
{
    match &item.alias {
        Some(alias) => Text::from_slice(alloc, alias.as_slice()),
        None => Text::from_slice(alloc, bytes_at(script, item.span)),
    }
}

/// Appends the names of columns.
fn put_names(alloc: Global, columns: &[ColumnDecl], list: &mut List<Text>) -> Result<(), NoMemory>
    ensures { OnOk result (list.new ≡ list.old ++ map (λ column. column.name) columns.now) }
{
    for column in columns {
        let name = Text::from_slice(alloc, column.name.as_slice())?;
        list.push(name)?;
    }
    Ok(())
}

/// Appends the headers of items.
fn put_headers(
    alloc: Global,
    script: &[u8],
    items: &[Item],
    list: &mut List<Text>,
) -> Result<(), NoMemory>
    ensures { OnOk result (list.new ≡ list.old ++ map (header_of script.now) items.now) }
{
    for item in items {
        let header = header_of(alloc, script, item)?;
        list.push(header)?;
    }
    Ok(())
}

/// The headers of a statement: the names of the columns of `*`, then those of the items.
pub(crate) fn headers(
    alloc: Global,
    script: &[u8],
    columns: &[ColumnDecl],
    items: &[Item],
) -> Result<List<Text>, NoMemory>
    ensures { IfOk result (λ list. list ≡ map (λ column. column.name) columns.now
        ++ map (header_of script.now) items.now) }
{
    let mut list = List::new(alloc);
    put_names(alloc, columns, &mut list)?;
    put_headers(alloc, script, items, &mut list)?;
    Ok(list)
}
