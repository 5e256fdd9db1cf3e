ghost use Rattle.std.specs.Prelude.{
  ◌≡◌,
  ◌≤◌,
  ◌<◌,
  ℕ,
  IfOk,
  IfSome,
  IfNone,
  MatchOption,
  IsUtf8,
  length,
};
ghost use Rattle.std.specs.Str.Lossy.{utf8_valid_len};
ghost use Rattle.mc_base.specs.FileOutcome.{greatest_file, FileCause, HasOutcome};
ghost use Rattle.mycoll.specs.Outcome.{named_script, utf8_outcome};

use mc_base::{FileFault, Files, Text, read_file, refuse_file};
use std::alloc::Global;

/// How long the longest prefix that is UTF-8 is, where the text isn't UTF-8 itself.
fn valid_prefix(text: &[u8]) -> Option<usize>
    ensures utf8 { IfNone result (IsUtf8 text.now) }
    ensures length { MatchOption result (utf8_valid_len text.now ≡ length text.now)
        (λ valid. (valid ≡ utf8_valid_len text.now) × (valid < length text.now)) }
{
    match simdutf8::compat::from_utf8(text) {
        Ok(_) => None,
        Err(error) => Some(error.valid_up_to()),
    }
}

/// The text, if it is UTF-8.
fn check_utf8(alloc: Global, name: &Text, text: Text) -> Result<Text, FileFault>
    ensures told { HasOutcome (λ script. script) result (utf8_outcome name.now text) }
    ensures cause { (before after : ℕ) → FileCause result before after }
    ensures utf8 { IfOk result (λ script. (script ≡ text) × IsUtf8 script) }
{
    match valid_prefix(text.as_slice()) {
        None => Ok(text),
        Some(valid) => Err(refuse_file(alloc, name, b"NotUtf8", valid as u64)),
    }
}

/// The script of this name, which is UTF-8 and at most 16,777,216 bytes long.
#[tactic(auto, unfolding(crate::specs::Outcome::named_script), using(crate::proofs::Told::unread))]
pub fn open_script<F: Files>(alloc: Global, files: &mut F, name: &Text) -> Result<Text, FileFault>
    ensures kept { F.contents files.new ≡ F.contents files.old }
    ensures later { F.faults files.old ≤ F.faults files.new }
    ensures told { IfSome (F.contents files.old) (λ told.
        HasOutcome (λ script. script) result (named_script told name.now)) }
    ensures cause { FileCause result (F.faults files.old) (F.faults files.new) }
    ensures utf8 { IfOk result (λ script. IsUtf8 script) }
    ensures short { IfOk result (λ script. length script ≤ greatest_file) }
{
    match read_file(alloc, files, name) {
        Ok(text) => check_utf8(alloc, name, text),
        Err(fault) => Err(fault),
    }
}
