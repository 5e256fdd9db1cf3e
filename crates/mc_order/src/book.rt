ghost use Rattle.mc_order.specs.Meaning.{Meaning};
ghost use Rattle.std.specs.Prelude.{◌≡◌, ◌<◌, ℕ};

use crate::Collation;
use mc_charset::CollId;

/// The collations of a catalog, by their numbers.
pub trait Book {
    type C: Collation;

    // What the collation of a number means.
    ghost meaning: { Self → ℕ → Meaning };

    ghost count: { Self → ℕ };

    /// How many collations there are: their numbers are those below.
    fn count(&self) -> u32
        ensures { result ≡ count self.now };

    /// The collation of a number.
    fn by_id(&self, id: CollId) -> &Self::C
        requires { id.0 < count self.now }
        ensures { Self.C.meaning result.now ≡ meaning self.now id.0 };
}
