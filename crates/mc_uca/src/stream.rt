ghost use Rattle.mc_allkeys.specs.Levels.{level_weights, weight_on};
ghost use Rattle.mc_allkeys.specs.declared.element.Element.{Element as OneElement};
ghost use Rattle.std.specs.Prelude.{◌≡◌, ◌∷◌, [], List, MatchOption};

use mc_allkeys::Element;
use mc_order::WeightStream;

/// The elements of a text or of a character, one after the other, without a list of them.
pub(crate) trait ElementStream {
    ghost left: { Self → List OneElement };

    /// The next element; None at the end, and from then on.
    fn next_element(&mut self) -> Option<Element>
        ensures { MatchOption result ((left self.old ≡ []) × (left self.new ≡ []))
            (λ element. left self.old ≡ element ∷ left self.new) };
}

/// The weight of an element on a level.
#[inline(always)]
fn weight_on(level: u8, element: Element) -> u16
    ensures { result ≡ weight_on level element }
{
    match level {
        1 => element.p,
        2 => element.s,
        _ => element.t,
    }
}

/// The weights of a stream's elements on a level.
#[derive(Drop)]
pub(crate) struct LevelWeights<S: ElementStream> {
    pub(crate) elements: S,
    pub(crate) level: u8,
}

impl<S: ElementStream> WeightStream for LevelWeights<S> {
    ghost left = { λ weights. level_weights weights.level (S.left weights.elements) };

    #[tactic(auto, using(crate::proofs::Levels::steps))]
    fn next_weight(&mut self) -> Option<u32> {
        while let Some(element) = self.elements.next_element() {
            let weight = weight_on(self.level, element);
            if weight != 0 {
                return Some(u32::from(weight));
            }
        }
        None
    }
}
