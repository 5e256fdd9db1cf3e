ghost use Rattle.std.specs.Option.{option_copied};
ghost use Rattle.std.specs.Prelude.{◌≡◌, ◌≤◌, ◌<◌, ◌^◌, ℕ, IfErr, IfOk, IfSome, length};
ghost use Rattle.mc_base.specs.FileOutcome.{FileCause, HasOutcome, IsRefusedAs};
ghost use Rattle.mc_catalog.specs.BuiltIn.{plain};
ghost use Rattle.mc_catalog.specs.Lawful.{IsLawful};
ghost use Rattle.mycoll.specs.Outcome.{
  fault_name,
  is_built_catalog,
  built_outcome,
  catalog_refusal,
  built_catalog,
  named_catalog,
};

use mc_base::{FileFault, Files, NoMemory, Text, read_file, refuse_file};
use mc_book::declares_built_kinds;
use mc_catalog::{Catalog, CatalogFault, CatalogFaultKind, plain_catalog, read_catalog};
use std::alloc::Global;

/// The name of a catalog's fault.
fn fault_name(kind: CatalogFaultKind) -> &'static [u8]
    ensures { result.now ≡ fault_name kind }
{
    match kind {
        CatalogFaultKind::BadLine => b"BadLine",
        CatalogFaultKind::UnknownCharset => b"UnknownCharset",
        CatalogFaultKind::UnknownKind => b"UnknownKind",
        CatalogFaultKind::WrongCharset => b"WrongCharset",
        CatalogFaultKind::UnknownCollation => b"UnknownCollation",
        CatalogFaultKind::UnknownColumn => b"UnknownColumn",
        CatalogFaultKind::BadLength => b"BadLength",
        CatalogFaultKind::Repeated => b"Repeated",
        CatalogFaultKind::TooMany => b"TooMany",
        CatalogFaultKind::NoColumn => b"NoColumn",
        CatalogFaultKind::NoMemory => b"NoMemory",
    }
}

/// A catalog's fault as the refusal of its file, or want of memory.
fn catalog_refusal(alloc: Global, name: &Text, fault: &CatalogFault) -> FileFault
    ensures refused { IsRefusedAs result (catalog_refusal name.now fault.now) }
    ensures memory { fault.now.kind ≡ CatalogFaultKind.NoMemory → result ≡ FileFault.NoMemory }
{
    match fault.kind {
        CatalogFaultKind::NoMemory => FileFault::NoMemory,
        kind => refuse_file(alloc, name, fault_name(kind), u64::from(fault.line)),
    }
}

/// Whether every collation that a catalog declares is built.
fn is_built_catalog(catalog: &Catalog) -> bool
    requires { IsLawful catalog.now }
    ensures { result ≡ is_built_catalog catalog.now }
{
    declares_built_kinds(catalog)
}

/// The catalog, if every collation that it declares is built.
fn check_built(alloc: Global, name: &Text, catalog: Catalog) -> Result<Catalog, FileFault>
    requires { IsLawful catalog }
    ensures told { HasOutcome (λ built. built) result (built_outcome name.now catalog) }
    ensures cause { (before after : ℕ) → FileCause result before after }
    ensures lawful { IfOk result IsLawful }
{
    if is_built_catalog(&catalog) {
        Ok(catalog)
    } else {
        Err(refuse_file(alloc, name, b"NotBuilt", 0))
    }
}

/// The catalog that a file's text says, if every collation that it declares is built.
fn check_catalog(alloc: Global, name: &Text, text: &[u8]) -> Result<Catalog, FileFault>
    requires { length text.now < 2 ^ 32 }
    ensures told { HasOutcome (λ catalog. catalog) result (built_catalog name.now text.now) }
    ensures cause { (before after : ℕ) → FileCause result before after }
    ensures lawful { IfOk result IsLawful }
{
    match read_catalog(alloc, text) {
        Ok(catalog) => check_built(alloc, name, catalog),
        Err(fault) => Err(catalog_refusal(alloc, name, &fault)),
    }
}

/// The catalog without declarations.
fn plain(alloc: Global) -> Result<Catalog, FileFault>
    ensures is { IfOk result (λ catalog. catalog ≡ plain) }
    ensures memory { IfErr result (λ fault. fault ≡ FileFault.NoMemory) }
    ensures lawful { IfOk result IsLawful }
{
    match plain_catalog(alloc) {
        Ok(catalog) => Ok(catalog),
        Err(NoMemory) => Err(FileFault::NoMemory),
    }
}

/// The catalog of this name, or the one without declarations where none is named.
#[tactic(auto, unfolding(crate::specs::Outcome::named_catalog), using(crate::proofs::Told::unread))]
pub fn open_catalog<F: Files>(
    alloc: Global,
    files: &mut F,
    name: Option<&Text>,
) -> Result<Catalog, FileFault>
    ensures kept { F.contents files.new ≡ F.contents files.old }
    ensures later { F.faults files.old ≤ F.faults files.new }
    ensures told { IfSome (F.contents files.old) (λ told.
        HasOutcome (λ catalog. catalog) result
        (named_catalog told (option_copied name.entry))) }
    ensures cause { FileCause result (F.faults files.old) (F.faults files.new) }
    ensures lawful { IfOk result IsLawful }
{
    let Some(name) = name else {
        return plain(alloc);
    };
    match read_file(alloc, files, name) {
        Ok(text) => check_catalog(alloc, name, text.as_slice()),
        Err(fault) => Err(fault),
    }
}
