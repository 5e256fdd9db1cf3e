ghost use Rattle.std.specs.Prelude.{
  ◌≡◌,
  ◌≢◌,
  ◌<◌,
  ◌^◌,
  Ok,
  Err,
  length,
  IfOk,
  IfErr,
  OnOk,
  MatchResult,
};
ghost use Rattle.mc_base.specs.Lines.{lines_of};
ghost use Rattle.mc_base.specs.FirstFault.{HasNoFault};
ghost use Rattle.mc_catalog.specs.Lawful.{IsLawful, IsLawfulSoFar};
ghost use Rattle.mc_catalog.specs.Progress.{nothing_said, said_by, catalog_of};
ghost use Rattle.mc_catalog.specs.CatalogFaults.{fault_of, IsAccepted, IsRefused};
ghost use Rattle.mc_catalog.specs.Outcome.{catalog_outcome};
ghost use Rattle.mc_catalog.specs.declared.fault.CatalogFaultKind.{CatalogFaultKind};

use crate::builder::CatalogBuilder;
use crate::{Catalog, CatalogFault};
use mc_base::LineReader;
use std::alloc::Global;

/// The catalog that a file says. A fault is the first one of its lines, with the number of the
/// line, from 1; `NoColumn` comes behind all lines, with that of the first table that has none.
pub fn read_catalog(alloc: Global, text: &[u8]) -> Result<Catalog, CatalogFault>
    requires { length text.now < 2 ^ 32 }
    ensures accepted { IfOk result (λ catalog. IsAccepted (lines_of text.now)) }
    ensures value { IfOk result (λ catalog. catalog ≡ catalog_of (said_by (lines_of text.now))) }
    ensures lawful { IfOk result IsLawful }
    ensures refused { IfErr result (λ fault. IsRefused (lines_of text.now) fault.kind fault.line) }
    ensures outcome { MatchResult result (λ catalog. catalog_outcome text.now ≡ Ok catalog)
        (λ fault. fault.kind ≢ CatalogFaultKind.NoMemory → catalog_outcome text.now ≡ Err fault) }
{
    read_text(alloc, text)
}

/// The catalog that a text says, line by line.
fn read_text(alloc: Global, text: &[u8]) -> Result<Catalog, CatalogFault>
    requires { length text.now < 2 ^ 32 }
    ensures accepted { IfOk result (λ catalog. IsAccepted (lines_of text.now)) }
    ensures value { IfOk result (λ catalog. catalog ≡ catalog_of (said_by (lines_of text.now))) }
    ensures lawful { IfOk result IsLawfulSoFar }
    ensures refused { IfErr result (λ fault. IsRefused (lines_of text.now) fault.kind fault.line) }
{
    let mut builder = CatalogBuilder::new(alloc)?;
    match read_all(&mut builder, alloc, text) {
        Ok(()) => Ok(builder.into_catalog()),
        Err(fault) => {
            drop(builder);
            Err(fault)
        }
    }
}

/// Adds what all lines say to a builder that knows nothing yet, and ends the last table.
#[tactic(auto, using(crate::proofs::LinesRead::end_refused))]
fn read_all(builder: &mut CatalogBuilder, alloc: Global, text: &[u8]) -> Result<(), CatalogFault>
    requires small { length text.now < 2 ^ 32 }
    requires fresh { builder.old ≡ nothing_said }
    ensures accepted { OnOk result (IsAccepted (lines_of text.now)) }
    ensures ended { OnOk result (builder.new.last ≡ None) }
    ensures value { OnOk result
        (catalog_of builder.new ≡ catalog_of (said_by (lines_of text.now))) }
    ensures lawful { OnOk result (IsLawfulSoFar (catalog_of builder.new)) }
    ensures refused { IfErr result (λ fault. IsRefused (lines_of text.now) fault.kind fault.line) }
{
    read_lines(builder, alloc, text)?;
    builder.end(alloc)
}

/// Adds what all lines say to a builder that knows nothing yet.
fn read_lines(builder: &mut CatalogBuilder, alloc: Global, text: &[u8]) -> Result<(), CatalogFault>
    requires small { length text.now < 2 ^ 32 }
    requires fresh { builder.old ≡ nothing_said }
    ensures accepted { OnOk result (HasNoFault fault_of (lines_of text.now)) }
    ensures value { OnOk result (builder.new ≡ said_by (lines_of text.now)) }
    ensures lawful { OnOk result (IsLawfulSoFar (catalog_of builder.new)) }
    ensures refused { IfErr result (λ fault. IsRefused (lines_of text.now) fault.kind fault.line) }
{
    let mut lines = LineReader::new(text);
    while let Some(line) = lines.next_line() {
        match builder.add_line(alloc, line.number, line.body) {
            Ok(()) => {}
            Err(kind) => return Err(CatalogFault::at_line(kind, line.number)),
        }
    }
    Ok(())
}
