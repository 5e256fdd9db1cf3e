ghost use Rattle.mc_coerce.specs.Aggregate.{aggregate, beats_each, class_in_set, counted};
ghost use Rattle.mc_coerce.specs.Aggregate.{HasSharer, HasWinner, shared_by};
ghost use Rattle.mc_coerce.specs.Aggregate.{shares_with_each, won_by};
ghost use Rattle.mc_coerce.specs.Levels.{no_collation};
ghost use Rattle.mc_coerce.specs.Operand.{AreOperands, IsOperand};
ghost use Rattle.mc_coerce.specs.Pair.{beats};
ghost use Rattle.mc_coerce.specs.Sets.{bin_collation_of};
ghost use Rattle.mc_coerce.specs.declared.operand.Agg.TheVariants.{Mix, Uses};
ghost use Rattle.mc_coerce.specs.declared.operand.Operand.{Operand};
ghost use Rattle.mc_coerce.specs.declared.operand.Purpose.{Purpose};
ghost use Rattle.mc_coerce.specs.declared.operand.Purpose.TheVariants.{Compare, Text};
ghost use Rattle.mc_charset.specs.Chars.{IsWellFormed};
ghost use Rattle.mc_charset.specs.declared.charset.Charset.{Charset};
ghost use Rattle.mc_convert.specs.Classes.{IsRepertoire, cap_of, rank};
ghost use Rattle.mc_convert.specs.Conversion.{IsLossless};
ghost use Rattle.mc_convert.specs.declared.repertoire.Repertoire.{Repertoire};
ghost use Rattle.std.specs.List.{All, Any, Contains};
ghost use Rattle.std.specs.List.Sorted.{IsPermutation};
ghost use Rattle.std.specs.Prelude.{◌≡◌, ◌<◌, ◌≤◌, ◌⊎◌, ◌↔◌, List, length, true, ℕ};

use mc_charset::chars_law;
use mc_convert::{conversion_law, repertoire_law as class_law};

/// Operands keep to what `aggregate` asks for where each does by itself and one function gives the
/// set of each one's collation.
pub fn operands_law()
    ensures by_sets { (list : List Operand) (set_of : ℕ → Charset) → All IsOperand list
        → All (λ a. a.charset ≡ set_of a.collation.0) list → AreOperands list }
{}

/// The laws of the pair table: an operand beats itself, and two operands beat each other only if
/// they have one collation and one level.
pub fn pair_law()
    ensures itself { (a : Operand) → beats a a ≡ true }
    ensures one_way { (a b : Operand) → beats a b ≡ true → beats b a ≡ true
        → (a.collation ≡ b.collation) × (a.level ≡ b.level) }
{}

/// The order of the operands doesn't matter. Any operand that beats each gives the answer, in a
/// comparison unless two or more are left and its level is 1; where none does, any one that shares
/// with each gives that of a text; two that do so agree.
pub fn order_law()
    ensures any_order { (list other : List Operand) (purpose : Purpose) → AreOperands list
        → IsPermutation list other → aggregate list purpose ≡ aggregate other purpose }
    ensures one_winner { (list : List Operand) (a b : Operand) → AreOperands list
        → Contains (counted list) a → Contains (counted list) b
        → beats_each (counted list) a ≡ true → beats_each (counted list) b ≡ true
        → (a.charset ≡ b.charset) × (a.collation ≡ b.collation) × (a.level ≡ b.level) }
    ensures one_set { (list : List Operand) (a b : Operand) → AreOperands list
        → Contains (counted list) a → Contains (counted list) b
        → shares_with_each (counted list) a ≡ true → shares_with_each (counted list) b ≡ true
        → (a.charset ≡ b.charset) × (a.level ≡ b.level) }
    ensures won { (list : List Operand) (a : Operand) → AreOperands list
        → Contains (counted list) a → beats_each (counted list) a ≡ true
        → aggregate list Text ≡ Uses (won_by (counted list) a) }
    ensures compared { (list : List Operand) (a : Operand) → AreOperands list
        → Contains (counted list) a → beats_each (counted list) a ≡ true
        → (1 < length (counted list) → a.level ≡ no_collation → ⊥)
        → aggregate list Compare ≡ Uses (won_by (counted list) a) }
    ensures shared { (list : List Operand) (a : Operand) → AreOperands list
        → (HasWinner (counted list) → ⊥) → Contains (counted list) a
        → shares_with_each (counted list) a ≡ true
        → aggregate list Text ≡ Uses (shared_by (counted list) a) }
{}

/// A mix is of two operands or more, NULLs aside: for a comparison exactly where none beats each,
/// or one that does has level 1; for a text exactly where none beats each and none shares with
/// each.
pub fn mix_law()
    ensures compare { (list : List Operand) → AreOperands list
        → ((aggregate list Compare ≡ Mix) ↔ ((1 < length (counted list))
        × ((HasWinner (counted list) → ⊥) ⊎ Any (λ a. (beats_each (counted list) a ≡ true)
        × (a.level ≡ no_collation)) (counted list)))) }
    ensures text { (list : List Operand) → ((aggregate list Text ≡ Mix)
        ↔ ((1 < length (counted list)) × (HasWinner (counted list) → ⊥)
        × (HasSharer (counted list) → ⊥))) }
    ensures two_or_more { (list : List Operand) (purpose : Purpose) → AreOperands list
        → aggregate list purpose ≡ Mix → 1 < length (counted list) }
{}

/// The repertoire of a result is the least class of its set that is at least each operand's. A text
/// within an operand's repertoire loses no character in the result's set: where that is another
/// one, it has the whole class.
pub fn repertoire_law()
    ensures of_set { (list : List Operand) (purpose : Purpose) (together : Operand)
        → aggregate list purpose ≡ Uses together
        → class_in_set together.charset together.repertoire ≡ together.repertoire }
    ensures greatest { (list : List Operand) (purpose : Purpose) (together : Operand)
        → aggregate list purpose ≡ Uses together
        → All (λ a. rank a.repertoire ≤ rank together.repertoire) (counted list) }
    ensures least { (list : List Operand) (purpose : Purpose) (together : Operand)
        (class : Repertoire) → aggregate list purpose ≡ Uses together
        → class_in_set together.charset class ≡ class
        → All (λ a. rank a.repertoire ≤ rank class) (counted list)
        → rank together.repertoire ≤ rank class }
    ensures fits { (list : List Operand) (purpose : Purpose) (together a : Operand)
        → AreOperands list → aggregate list purpose ≡ Uses together → Contains (counted list) a
        → (a.charset ≡ together.charset) ⊎ (rank a.repertoire ≤ rank (cap_of together.charset)) }
    ensures lossless { (list : List Operand) (purpose : Purpose) (together a : Operand)
        (text : List ℕ) (class : Repertoire) → AreOperands list
        → aggregate list purpose ≡ Uses together → Contains (counted list) a
        → IsWellFormed a.charset text → IsRepertoire a.charset text class
        → rank class ≤ rank a.repertoire → IsLossless a.charset together.charset text }
{
    chars_law();
    class_law();
    conversion_law();
}

/// A result is an operand again, of an operand's set and collation or of its set's binary one.
pub fn result_law()
    ensures operand { (list : List Operand) (purpose : Purpose) (together : Operand)
        → AreOperands list → aggregate list purpose ≡ Uses together → IsOperand together }
    ensures collation { (list : List Operand) (purpose : Purpose) (together : Operand)
        → aggregate list purpose ≡ Uses together
        → Any (λ a. (a.charset ≡ together.charset) × (a.collation ≡ together.collation))
        (counted list)
        ⊎ (together.collation.0 ≡ bin_collation_of together.charset) }
{}
