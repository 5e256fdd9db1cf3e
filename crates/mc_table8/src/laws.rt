ghost use Rattle.std.specs.Prelude.{◌≡◌, ◌↔◌, ℕ, List, Some, IsTrue};
ghost use Rattle.mc_base.specs.FirstFault.{HasNoFault, IsFirstFault};
ghost use Rattle.mc_table8.specs.Fields.{range_of};
ghost use Rattle.mc_table8.specs.LineFaults.{fault_of};
ghost use Rattle.mc_table8.specs.Runs.{is_overlap};
ghost use Rattle.mc_table8.specs.WeightFileLaws.{IsRange, IsInBoth, ListedWeightsStand, IsOneFault};
ghost use Rattle.mc_table8.specs.declared.fault.TableFault.{TableFault};
ghost use Rattle.mc_table8.specs.declared.format.Format.{Format};
ghost use Rattle.mc_table8.specs.declared.run.Run.{Run};

/// The laws of weight files: a field is read as a range exactly where it is a number, two dots and
/// a number; two runs overlap exactly where some code is in both; in lines without a fault every
/// line that lists a code gives it its weights; and lines have no fault, or one first fault, so
/// that a file has one answer.
pub fn weight_file_laws()
    ensures range { (digits : ℕ) (field : List ℕ) (first last : ℕ) →
        (range_of digits field ≡ Some (first, last)) ↔ IsRange digits field first last }
    ensures overlap { (one other : Run) →
        IsTrue (is_overlap one other) ↔ ((code : ℕ) × IsInBoth one other code) }
    ensures listed { (format : Format) (lines : List (ℕ × List ℕ)) →
        HasNoFault (fault_of format) lines → ListedWeightsStand format lines }
    ensures one_fault { (format : Format) (lines : List (ℕ × List ℕ)) → IsOneFault format lines }
    ensures no_fault { (format : Format) (lines : List (ℕ × List ℕ)) (fault : TableFault) →
        HasNoFault (fault_of format) lines → IsFirstFault (fault_of format) lines fault → ⊥ }
{}
