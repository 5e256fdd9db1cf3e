ghost use Rattle.std.specs.Prelude.{◌≡◌, IfOk, IfSome, IsTrue, option_map};
ghost use Rattle.std.specs.List.{list_all};
ghost use Rattle.std.specs.Option.{option_and_then};
ghost use Rattle.std.specs.Char.{is_ascii};
ghost use Rattle.mc_base.specs.Fields.{fields_of};
ghost use Rattle.mc_charset.specs.Names.{set_named};
ghost use Rattle.mc_catalog.specs.Words.{field_name, length_of};
ghost use Rattle.mc_catalog.specs.Formed.{IsFormed, IsFormedColumn};
ghost use Rattle.mc_catalog.specs.Entries.{
  may_have_rules,
  rules_part,
  collation_entry,
  connection_entry,
  table_entry,
  whole_form,
  binary_form,
  text_form,
  column_form,
  column_entry,
  prefix_part,
  index_entry,
  entry_in,
  entry_of,
};

use crate::entry::{ColumnForm, Entry};
use crate::words::{read_kind, read_length, read_name, read_number};
use crate::{ColumnType, Kind};
use mc_base::{NoMemory, Text, next_field};
use mc_charset::charset_by_name;
use std::alloc::Global;

/// The entry that a line's body says; None where it has a byte above 7F, or another form.
#[tactic(auto, unfolding(crate::specs::Entries::entry_of))]
pub(crate) fn read_entry(alloc: Global, body: &[u8]) -> Result<Option<Entry>, NoMemory>
    ensures value { IfOk result (λ entry. entry ≡ entry_of body.now) }
    ensures formed { IfOk result (λ entry. IfSome entry IsFormed) }
{
    if is_ascii(body) {
        entry_in(alloc, body)
    } else {
        Ok(None)
    }
}

/// Whether each byte is at most 7F.
fn is_ascii(body: &[u8]) -> bool
    ensures { result ≡ list_all is_ascii body.now }
{
    body.iter().all(|byte| byte.is_ascii())
}

/// The entry of a body's fields.
#[tactic(auto, unfolding(crate::specs::Entries::entry_in))]
fn entry_in(alloc: Global, body: &[u8]) -> Result<Option<Entry>, NoMemory>
    ensures value { IfOk result (λ entry. entry ≡ entry_in (fields_of body.now)) }
    ensures formed { IfOk result (λ entry. IfSome entry IsFormed) }
{
    let Some((word, rest)) = next_field(body) else {
        return Ok(None);
    };
    if word == b"collation".as_slice() {
        collation_entry(alloc, rest)
    } else if word == b"connection".as_slice() {
        connection_entry(alloc, rest)
    } else if word == b"table".as_slice() {
        table_entry(alloc, rest)
    } else if word == b"column".as_slice() {
        column_entry(alloc, rest)
    } else if word == b"index".as_slice() {
        index_entry(alloc, rest)
    } else {
        Ok(None)
    }
}

/// `NAME SET KIND FILE` or `NAME SET KIND FILE rules FILE`.
#[tactic(auto, unfolding(crate::specs::Entries::collation_entry))]
fn collation_entry(alloc: Global, body: &[u8]) -> Result<Option<Entry>, NoMemory>
    ensures value { IfOk result (λ entry. entry ≡ collation_entry (fields_of body.now)) }
    ensures formed { IfOk result (λ entry. IfSome entry IsFormed) }
{
    let Some((name, rest)) = next_field(body) else {
        return Ok(None);
    };
    let Some((set, rest)) = next_field(rest) else {
        return Ok(None);
    };
    let Some((kind, rest)) = next_field(rest) else {
        return Ok(None);
    };
    let Some((file, rest)) = next_field(rest) else {
        return Ok(None);
    };
    declared_entry(alloc, name, set, read_kind(kind), file, rest)
}

/// The entry of a collation's fields, and of those behind its file.
fn declared_entry(
    alloc: Global,
    name: &[u8],
    set: &[u8],
    kind: Option<Kind>,
    file: &[u8],
    rest: &[u8],
) -> Result<Option<Entry>, NoMemory>
    ensures value { IfOk result (λ entry. entry ≡ option_and_then
        (λ rules. option_map (λ name. Entry.Collation name (set_named set.now) kind file.now rules)
        (field_name name.now))
        (rules_part kind (fields_of rest.now))) }
    ensures formed { IfOk result (λ entry. IfSome entry IsFormed) }
{
    let Some(rules) = rules_part(alloc, kind, rest)? else {
        return Ok(None);
    };
    let Some(name) = read_name(alloc, name)? else {
        return Ok(None);
    };
    Ok(Some(Entry::Collation {
        name,
        set: charset_by_name(set),
        kind,
        file: Text::from_slice(alloc, file)?,
        rules,
    }))
}

/// Nothing, or `rules FILE` behind a kind that takes rules.
#[tactic(auto, unfolding(crate::specs::Entries::rules_part))]
fn rules_part(
    alloc: Global,
    kind: Option<Kind>,
    body: &[u8],
) -> Result<Option<Option<Text>>, NoMemory>
    ensures value { IfOk result (λ rules. rules ≡ rules_part kind (fields_of body.now)) }
    ensures formed { IfOk result (λ rules. IfSome rules
        (λ file. IfSome file (λ _. IsTrue (may_have_rules kind)))) }
{
    let Some((word, rest)) = next_field(body) else {
        return Ok(Some(None));
    };
    let Some((file, rest)) = next_field(rest) else {
        return Ok(None);
    };
    if next_field(rest).is_some() {
        return Ok(None);
    }
    if word == b"rules".as_slice() && may_have_rules(kind) {
        Ok(Some(Some(Text::from_slice(alloc, file)?)))
    } else {
        Ok(None)
    }
}

/// Whether a kind is there and takes rules.
fn may_have_rules(kind: Option<Kind>) -> bool
    ensures { result ≡ may_have_rules kind }
{
    match kind {
        Some(kind) => kind.takes_rules(),
        None => false,
    }
}

/// `NAME`.
#[tactic(auto, unfolding(crate::specs::Entries::connection_entry))]
fn connection_entry(alloc: Global, body: &[u8]) -> Result<Option<Entry>, NoMemory>
    ensures value { IfOk result (λ entry. entry ≡ connection_entry (fields_of body.now)) }
    ensures formed { IfOk result (λ entry. IfSome entry IsFormed) }
{
    let Some((name, rest)) = next_field(body) else {
        return Ok(None);
    };
    if next_field(rest).is_some() {
        return Ok(None);
    }
    match read_name(alloc, name)? {
        Some(name) => Ok(Some(Entry::Connection { name })),
        None => Ok(None),
    }
}

/// `NAME FILE`.
#[tactic(auto, unfolding(crate::specs::Entries::table_entry))]
fn table_entry(alloc: Global, body: &[u8]) -> Result<Option<Entry>, NoMemory>
    ensures value { IfOk result (λ entry. entry ≡ table_entry (fields_of body.now)) }
    ensures formed { IfOk result (λ entry. IfSome entry IsFormed) }
{
    let Some((name, rest)) = next_field(body) else {
        return Ok(None);
    };
    let Some((file, rest)) = next_field(rest) else {
        return Ok(None);
    };
    if next_field(rest).is_some() {
        return Ok(None);
    }
    let Some(name) = read_name(alloc, name)? else {
        return Ok(None);
    };
    Ok(Some(Entry::Table {
        name,
        file: Text::from_slice(alloc, file)?,
    }))
}

/// `NAME` and a type.
#[tactic(auto, unfolding(crate::specs::Entries::column_entry))]
fn column_entry(alloc: Global, body: &[u8]) -> Result<Option<Entry>, NoMemory>
    ensures value { IfOk result (λ entry. entry ≡ column_entry (fields_of body.now)) }
    ensures formed { IfOk result (λ entry. IfSome entry IsFormed) }
{
    let Some((name, rest)) = next_field(body) else {
        return Ok(None);
    };
    let Some(form) = column_form(alloc, rest)? else {
        return Ok(None);
    };
    match read_name(alloc, name)? {
        Some(name) => Ok(Some(Entry::Column { name, form })),
        None => Ok(None),
    }
}

/// The type of a column: one, two or three fields.
#[tactic(auto, unfolding(crate::specs::Entries::column_form))]
fn column_form(alloc: Global, body: &[u8]) -> Result<Option<ColumnForm>, NoMemory>
    ensures value { IfOk result (λ form. form ≡ column_form (fields_of body.now)) }
    ensures formed { IfOk result (λ form. IfSome form IsFormedColumn) }
{
    let Some((word, rest)) = next_field(body) else {
        return Ok(None);
    };
    let Some((n, rest)) = next_field(rest) else {
        return Ok(whole_form(word));
    };
    let Some((collation, rest)) = next_field(rest) else {
        return Ok(binary_form(word, n));
    };
    if next_field(rest).is_some() {
        return Ok(None);
    }
    text_form(alloc, word, n, collation)
}

/// `bigint`.
#[tactic(auto, unfolding(crate::specs::Entries::whole_form))]
fn whole_form(word: &[u8]) -> Option<ColumnForm>
    ensures value { result ≡ whole_form word.now }
    ensures formed { IfSome result IsFormedColumn }
{
    if word == b"bigint".as_slice() {
        Some(ColumnForm::Plain(ColumnType::BigInt))
    } else {
        None
    }
}

/// `binary N` or `varbinary N`.
#[tactic(auto, unfolding(crate::specs::Entries::binary_form))]
fn binary_form(word: &[u8], n: &[u8]) -> Option<ColumnForm>
    ensures value { result ≡ binary_form word.now n.now }
    ensures formed { IfSome result IsFormedColumn }
{
    if word == b"binary".as_slice() {
        let n = read_length(255, n)?;
        Some(ColumnForm::Plain(ColumnType::Binary { n }))
    } else if word == b"varbinary".as_slice() {
        let n = read_length(4096, n)?;
        Some(ColumnForm::Plain(ColumnType::VarBinary { n }))
    } else {
        None
    }
}

/// `char N COLLATION` or `varchar N COLLATION`.
#[tactic(auto, unfolding(crate::specs::Entries::text_form))]
fn text_form(
    alloc: Global,
    word: &[u8],
    n: &[u8],
    collation: &[u8],
) -> Result<Option<ColumnForm>, NoMemory>
    ensures value { IfOk result (λ form. form ≡ text_form word.now n.now collation.now) }
    ensures formed { IfOk result (λ form. IfSome form IsFormedColumn) }
{
    let Some(collation) = read_name(alloc, collation)? else {
        return Ok(None);
    };
    if word == b"char".as_slice() {
        Ok(char_form(n, collation))
    } else if word == b"varchar".as_slice() {
        Ok(varchar_form(n, collation))
    } else {
        Ok(None)
    }
}

/// `char` of a length, 1 to 255.
fn char_form(n: &[u8], collation: Text) -> Option<ColumnForm>
    ensures value { result ≡ option_map (λ n. ColumnForm.Char n collation) (length_of 255 n.now) }
    ensures formed { IfSome result IsFormedColumn }
{
    let n = read_length(255, n)?;
    Some(ColumnForm::Char { n, collation })
}

/// `varchar` of a length, 1 to 4,096.
fn varchar_form(n: &[u8], collation: Text) -> Option<ColumnForm>
    ensures value { result
        ≡ option_map (λ n. ColumnForm.VarChar n collation) (length_of 4096 n.now) }
    ensures formed { IfSome result IsFormedColumn }
{
    let n = read_length(4096, n)?;
    Some(ColumnForm::VarChar { n, collation })
}

/// `NAME COLUMN` or `NAME COLUMN K`.
#[tactic(auto, unfolding(crate::specs::Entries::index_entry))]
fn index_entry(alloc: Global, body: &[u8]) -> Result<Option<Entry>, NoMemory>
    ensures value { IfOk result (λ entry. entry ≡ index_entry (fields_of body.now)) }
    ensures formed { IfOk result (λ entry. IfSome entry IsFormed) }
{
    let Some((name, rest)) = next_field(body) else {
        return Ok(None);
    };
    let Some((column, rest)) = next_field(rest) else {
        return Ok(None);
    };
    let Some(prefix) = prefix_part(rest) else {
        return Ok(None);
    };
    let Some(name) = read_name(alloc, name)? else {
        return Ok(None);
    };
    match read_name(alloc, column)? {
        Some(column) => Ok(Some(Entry::Index {
            name,
            column,
            prefix,
        })),
        None => Ok(None),
    }
}

/// Nothing, or a number.
#[tactic(auto, unfolding(crate::specs::Entries::prefix_part))]
fn prefix_part(body: &[u8]) -> Option<Option<u32>>
    ensures { result ≡ prefix_part (fields_of body.now) }
{
    let Some((k, rest)) = next_field(body) else {
        return Some(None);
    };
    if next_field(rest).is_some() {
        return None;
    }
    match read_number(k) {
        Some(k) => Some(Some(k)),
        None => None,
    }
}
