ghost use Rattle.std.specs.Prelude.{◌≡◌};

use mc_base::Text;

/// What is read as a text, owned or lent.
pub trait TextLike {
    ghost use Rattle.std.specs.Prelude.{List, ℕ};

    ghost bytes: { Self → List ℕ };

    /// Its bytes.
    fn bytes(&self) -> &[u8]
        ensures { result.now ≡ bytes self.now };
}

impl TextLike for Text {
    ghost bytes = { λ text. text };

    fn bytes(&self) -> &[u8] {
        self.as_slice()
    }
}
