ghost use Rattle.std.specs.Prelude.{◌≡◌, ◌⊎◌, ◌≤◌, ◌<◌, ℕ, List, ◌∷◌, ◌++◌, [], take, drop};
ghost use Rattle.std.specs.List.{All};
ghost use Rattle.mc_base.specs.FirstFault.{HasNoFault, IsFirstFault};
ghost use Rattle.mc_allkeys.specs.Faults.{fault_of};
ghost use Rattle.mc_allkeys.specs.Fronts.{IsPieceLen, IsHead, IsFresh, IsAcross, IsFrontCut};
ghost use Rattle.mc_allkeys.specs.Levels.{IsFrontList, level_list, level_weights};
ghost use Rattle.mc_allkeys.specs.Longest.{AreContractionsAt, HasNoLonger, IsLongest};
ghost use Rattle.mc_allkeys.specs.Pieces.{IsRightCut, piece_len, pieces};
ghost use Rattle.mc_allkeys.specs.Sound.{HasWeights, IsSound};
ghost use Rattle.mc_allkeys.specs.Table.{Entries, contractions_of};
ghost use Rattle.mc_allkeys.specs.declared.element.Element.{Element};
ghost use Rattle.mc_allkeys.specs.declared.fault.KeysFault.{KeysFault};

use crate::keys::Keys;

/// The laws of the cut into pieces: a text has one right cut, and its pieces are it. They are the
/// piece that begins the text, and those of what follows it.
pub fn cut_law()
    ensures one_cut { (contractions : List (List ℕ)) (codes : List ℕ) (one : List (List ℕ))
        (other : List (List ℕ)) → IsRightCut contractions codes one →
        IsRightCut contractions codes other → one ≡ other }
    ensures right { (contractions : List (List ℕ)) (codes : List ℕ) →
        IsRightCut contractions codes (pieces contractions codes) }
    ensures none { (contractions : List (List ℕ)) → pieces contractions [] ≡ [] }
    ensures step { (contractions : List (List ℕ)) (code : ℕ) (rest : List ℕ) →
        let len = piece_len contractions (code ∷ rest) in pieces contractions (code ∷ rest)
        ≡ take len (code ∷ rest) ∷ pieces contractions (drop len (code ∷ rest)) }
{}

/// The laws of the piece that begins a text: its length is the greatest one; a piece of at most k
/// codes is that of the first k codes, and a longer one goes on behind them.
pub fn piece_law()
    ensures is { (contractions : List (List ℕ)) (codes : List ℕ) →
        IsPieceLen contractions codes (piece_len contractions codes) }
    ensures one { (contractions : List (List ℕ)) (codes : List ℕ) (len : ℕ) →
        IsPieceLen contractions codes len → piece_len contractions codes ≡ len }
    ensures within { (contractions : List (List ℕ)) (codes : List ℕ) (k : ℕ) →
        piece_len contractions codes ≤ k →
        piece_len contractions (take k codes) ≡ piece_len contractions codes }
    ensures across { (contractions : List (List ℕ)) (codes : List ℕ) (k : ℕ) → 1 ≤ k →
        k < piece_len contractions codes → IsAcross contractions (take k codes) (drop k codes) }
{}

/// The laws of the cut of a text's first codes: it begins with the pieces of the text. Where no
/// contraction reaches from them into what follows, the text is cut there.
pub fn front_law()
    ensures front { (contractions : List (List ℕ)) (k : ℕ) (codes : List ℕ) →
        IsFrontCut contractions k codes }
    ensures fresh { (contractions : List (List ℕ)) (k : ℕ) (codes : List ℕ) →
        IsFresh contractions (drop k codes) → pieces contractions codes
        ≡ pieces contractions (take k codes) ++ pieces contractions (drop k codes) }
    ensures alone { (contractions : List (List ℕ)) (code : ℕ) (rest : List ℕ) →
        (IsHead contractions code → ⊥) ⊎ IsFresh contractions rest →
        pieces contractions (code ∷ rest) ≡ (code ∷ []) ∷ pieces contractions rest }
{}

/// The laws of the longest contraction: it is the piece that begins the text, for any contractions
/// that are those of the entries as far as they begin it.
pub fn longest_law()
    ensures all { (entries : Entries) (text : List ℕ) →
        AreContractionsAt entries (contractions_of entries) text }
    ensures longest { (entries : Entries) (contractions : List (List ℕ)) (text : List ℕ) (len : ℕ)
        (elements : List Element) → AreContractionsAt entries contractions text →
        IsLongest entries text len elements → piece_len contractions text ≡ len }
    ensures none { (entries : Entries) (contractions : List (List ℕ)) (text : List ℕ) →
        AreContractionsAt entries contractions text → HasNoLonger entries text 1 →
        piece_len contractions text ≡ 1 }
{}

/// The laws of weight lists: no codes have no weights; a text has those of the piece that begins it,
/// and then those of what follows it; where no contraction reaches from the first
/// codes into what follows, lists are joined; weights are not zero, and have two bytes where those
/// of the elements do.
pub fn level_law()
    ensures empty { (contractions : List (List ℕ)) (elements : List ℕ → List Element) (level : ℕ) →
        level_list contractions elements level [] ≡ [] }
    ensures step { (contractions : List (List ℕ)) (elements : List ℕ → List Element)
        (level : ℕ) (code : ℕ) (rest : List ℕ) →
        let len = piece_len contractions (code ∷ rest) in
        level_list contractions elements level (code ∷ rest)
        ≡ level_weights level (elements (take len (code ∷ rest)))
        ++ level_list contractions elements level (drop len (code ∷ rest)) }
    ensures front { (contractions : List (List ℕ)) (elements : List ℕ → List Element)
        (level : ℕ) (k : ℕ) (codes : List ℕ) →
        IsFrontList contractions elements level k codes }
    ensures fresh { (contractions : List (List ℕ)) (elements : List ℕ → List Element)
        (level : ℕ) (k : ℕ) (codes : List ℕ) → IsFresh contractions (drop k codes) →
        level_list contractions elements level codes
        ≡ level_list contractions elements level (take k codes)
        ++ level_list contractions elements level (drop k codes) }
    ensures alone { (contractions : List (List ℕ)) (elements : List ℕ → List Element)
        (level : ℕ) (code : ℕ) (rest : List ℕ) →
        (IsHead contractions code → ⊥) ⊎ IsFresh contractions rest →
        level_list contractions elements level (code ∷ rest)
        ≡ level_list contractions elements level (code ∷ [])
        ++ level_list contractions elements level rest }
    ensures weights { (contractions : List (List ℕ)) (elements : List ℕ → List Element)
        (level : ℕ) (codes : List ℕ) →
        ((piece : List ℕ) → All (λ code. code ≤ 0x10FFFF) piece → All HasWeights (elements piece)) →
        All (λ code. code ≤ 0x10FFFF) codes →
        All (λ weight. (1 ≤ weight) × (weight ≤ 0xFFFF))
        (level_list contractions elements level codes) }
{}

/// The law of the tables: each text that has an entry is of one to six code points, and each weight
/// has two bytes.
pub fn keys_law(keys: &Keys)
    ensures { IsSound keys.now }
{
    keys.sound();
}

/// The law of the files of element tables: lines have no fault, or one first fault, so that a file
/// has one answer.
pub fn keys_file_law()
    ensures one_fault { (lines : List (ℕ × List ℕ)) (fault : KeysFault) (other : KeysFault) →
        IsFirstFault fault_of lines fault → IsFirstFault fault_of lines other → fault ≡ other }
    ensures no_fault { (lines : List (ℕ × List ℕ)) (fault : KeysFault) → HasNoFault fault_of lines →
        IsFirstFault fault_of lines fault → ⊥ }
{}
