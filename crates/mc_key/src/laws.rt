ghost use Rattle.mc_key.specs.Laws.{SpacesFallAway, KeptStays, KeptComparesAlike};
ghost use Rattle.mc_key.specs.Laws.{KeysCompareAlike, EqualAreKeptAlike, KeysAreOrdered};
ghost use Rattle.mc_key.specs.Laws.{EqualKeysAreOneList, TopIsAbove, TopIsAboveEnd};

use mc_order::order_laws;

/// What keys are: they leave out spaces at their lists' ends alone, compare with keys and with
/// bounds as the whole lists do, and are equal exactly where they keep one list.
pub fn key_laws()
    ensures spaces { SpacesFallAway }
    ensures stays { KeptStays }
    ensures bounds { KeptComparesAlike }
    ensures keys { KeysCompareAlike }
    ensures equal { EqualAreKeptAlike }
    ensures total { KeysAreOrdered }
    ensures one_list { EqualKeysAreOneList }
    ensures top { TopIsAbove }
    ensures top_end { TopIsAboveEnd }
{
    order_laws();
}
