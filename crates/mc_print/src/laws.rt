ghost use Rattle.mc_print.specs.Escapes.{as_written, is_separator, read_back};
ghost use Rattle.std.specs.List.{list_any};
ghost use Rattle.std.specs.Prelude.{◌≡◌, ℕ, List, false};

/// The laws of escapes: a written text has no NUL, TAB or LF in it, so that cells and lines can be
/// told apart, and it can be read back.
pub fn escape_law()
    ensures no_separator { (text : List ℕ) → list_any is_separator (as_written text) ≡ false }
    ensures reads_back { (text : List ℕ) → read_back (as_written text) ≡ text }
{}
