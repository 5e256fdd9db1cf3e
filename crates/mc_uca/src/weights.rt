ghost use Rattle.mc_charset.specs.Chars.{chars};
ghost use Rattle.mc_order.specs.Meaning.{joined_levels};
ghost use Rattle.mc_uca.specs.Kind.{levels_of};
ghost use Rattle.mc_uca.specs.Weighing.{uca_list};
ghost use Rattle.std.specs.Prelude.{◌≡◌, ◌≤◌, ◌∷◌, []};

use crate::flat::FlatWeights;
use crate::pending::Pending;
use crate::text::TextElements;
use crate::weigher::Weigher;
use mc_allkeys::{cut_law, piece_law};
use mc_charset::Encoding;
use mc_order::WeightStream;

impl Weigher {
    /// The weights of a text, level by level.
    pub(crate) fn text_weights<'a, E: Encoding>(
        &'a self,
        text: &'a [u8],
    ) -> FlatWeights<TextElements<'a, E>>
        requires { E.set ≡ self.now.charset }
        ensures { ⟦<FlatWeights<TextElements<'a, E>> as WeightStream>⟧.left result
            ≡ joined_levels (levels_of self.now.kind) (λ level. uca_list self.now.charset
            self.now.kind self.now.keys level (chars E.set text.now)) }
    {
        FlatWeights::new(
            TextElements::new(self, text),
            TextElements::new(self, text),
            TextElements::new(self, text),
            self.kind.levels(),
        )
    }

    /// The weights of a character, level by level.
    pub(crate) fn char_weights<'a>(&'a self, code: u32) -> FlatWeights<Pending<'a>>
        requires { code ≤ 0x10FFFF }
        ensures { ⟦<FlatWeights<Pending<'a>> as WeightStream>⟧.left result
            ≡ joined_levels (levels_of self.now.kind) (λ level. uca_list self.now.charset
            self.now.kind self.now.keys level (code ∷ [])) }
    {
        cut_law();
        piece_law();
        let elements = self.char_elements(code);
        FlatWeights::new(elements, elements, elements, self.kind.levels())
    }
}
