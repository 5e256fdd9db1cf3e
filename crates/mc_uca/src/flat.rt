ghost use Rattle.mc_allkeys.specs.Levels.{level_weights};
ghost use Rattle.mc_order.specs.Meaning.{joined_levels, separator};
ghost use Rattle.mc_uca.specs.Streams.{behind_by};
ghost use Rattle.std.specs.Prelude.{◌≡◌, ◌≤◌, ◌<◌, ◌++◌, ◌∷◌, [], Some, None, MatchOption};

use crate::stream::{ElementStream, LevelWeights};
use mc_order::WeightStream;

/// The weights of up to three levels, one level after the other, a separator between two.
#[derive(Drop)]
pub(crate) struct FlatWeights<S: ElementStream> {
    first: LevelWeights<S>,
    second: Option<LevelWeights<S>>,
    third: Option<LevelWeights<S>>,
}

impl<S: ElementStream + Drop> WeightStream for FlatWeights<S> {
    ghost left = { λ flat. ⟦<LevelWeights<S> as WeightStream>⟧.left flat.first
        ++ behind_by ⟦<LevelWeights<S> as WeightStream>⟧.left flat.second flat.third };

    fn next_weight(&mut self) -> Option<u32> {
        if let Some(weight) = self.first.next_weight() {
            return Some(weight);
        }
        self.next_level()
    }
}

impl<S: ElementStream + Drop> FlatWeights<S> {
    /// Goes on to the next level, where the first one has no more weights: the separator before it.
    fn next_level(&mut self) -> Option<u32>
        requires { ⟦<LevelWeights<S> as WeightStream>⟧.left self.old.first ≡ [] }
        ensures { MatchOption result
            ((⟦<FlatWeights<S> as WeightStream>⟧.left self.old ≡ [])
            × (⟦<FlatWeights<S> as WeightStream>⟧.left self.new ≡ []))
            (λ weight. ⟦<FlatWeights<S> as WeightStream>⟧.left self.old
            ≡ weight ∷ ⟦<FlatWeights<S> as WeightStream>⟧.left self.new) }
    {
        match self.second.take() {
            Some(second) => {
                self.first = second;
                self.second = self.third.take();
                Some(0)
            }
            None => None,
        }
    }

    /// The weights of so many levels of these elements, each level's by a stream of its own.
    pub(crate) fn new(first: S, second: S, third: S, levels: u8) -> FlatWeights<S>
        requires some { 1 ≤ levels }
        requires few { levels ≤ 3 }
        requires same_second { S.left second ≡ S.left first }
        requires same_third { S.left third ≡ S.left first }
        ensures { ⟦<FlatWeights<S> as WeightStream>⟧.left result
            ≡ joined_levels levels (λ level. level_weights level (S.left first)) }
    {
        FlatWeights {
            first: LevelWeights {
                elements: first,
                level: 1,
            },
            second: level_up_to(second, 2, levels),
            third: level_up_to(third, 3, levels),
        }
    }
}

/// The weights of a level, where it is one of so many.
fn level_up_to<S: ElementStream + Drop>(
    elements: S,
    level: u8,
    levels: u8,
) -> Option<LevelWeights<S>>
    ensures some { level ≤ levels
        → result ≡ Some (record { elements = elements; level = level }) }
    ensures none { levels < level → result ≡ None }
{
    if level <= levels {
        Some(LevelWeights { elements, level })
    } else {
        None
    }
}
