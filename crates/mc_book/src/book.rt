ghost use Rattle.std.specs.Prelude.{◌≡◌, ◌<◌, ◌^◌, length};
ghost use Rattle.mc_book.specs.Meanings.{meaning_at, meanings};

use crate::AnyCollation;
use mc_base::List;
use mc_charset::CollId;
use mc_order::Book;
use std::marker::Model;

/// The collations of a catalog, by their numbers: the built-in ones, then the declared ones. Only
/// `build_book` makes one. Contracts see the list of them.
#[derive(Drop)]
pub struct AnyBook {
    collations: List<AnyCollation>,
    ghost few: { length collations < 2 ^ 32 },
}

impl Model for AnyBook {
    ghost use Rattle.std.specs.Coded.{coded_list};
    ghost use Rattle.std.specs.Prelude.{List};
    ghost use Rattle.mc_book.specs.contracts.any_collation.AnyCollation as any;
    ghost use Rattle.mc_book.specs.declared.any_collation.AnyCollation.{AnyCollation as Collated};

    ghost Value = { List Collated };

    ghost coded = { coded_list any.the_row.coded };

    ghost view = { λ book. book.collations };
}

impl AnyBook {
    /// The book of these collations.
    pub(crate) fn new(collations: List<AnyCollation>) -> AnyBook
        requires { length collations < 2 ^ 32 }
        ensures { result ≡ collations }
    {
        AnyBook { collations }
    }
}

impl Book for AnyBook {
    type C = AnyCollation;

    ghost meaning = { λ book. meaning_at (meanings book) };

    ghost count = { λ book. length book };

    fn count(&self) -> u32 {
        self.collations.len() as u32
    }

    fn by_id(&self, id: CollId) -> &AnyCollation {
        &self.collations.as_slice()[id.0 as usize]
    }
}
