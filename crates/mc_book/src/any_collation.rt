ghost use Rattle.mc_order.specs.Laws.{IsLawful};

use mc_base::{NoMemory, Weights};
use mc_charset::Charset;
use mc_order::{BinCollation, Collation, Pad};
use mc_table8::{GeneralCollation, Table8Collation};
use mc_uca::UcaCollation;
use std::cmp::Ordering;

/// A collation of any kind (MySQL 8.0 manual, 10.10 and 10.14): by the bytes of spellings or code
/// points, by a table of weights of bytes or of code points, or by a table of collation elements.
#[derive(Drop)]
pub enum AnyCollation {
    Bin(BinCollation),
    Table8(Table8Collation),
    General(GeneralCollation),
    Uca(UcaCollation),
}

impl Collation for AnyCollation {
    ghost use Rattle.mc_book.specs.Any.{any_meaning, any_lawful};

    ghost meaning = { any_meaning };

    fn charset(&self) -> Charset {
        match self {
            AnyCollation::Bin(bin) => bin.charset(),
            AnyCollation::Table8(table8) => table8.charset(),
            AnyCollation::General(general) => general.charset(),
            AnyCollation::Uca(uca) => uca.charset(),
        }
    }

    fn pad(&self) -> Pad {
        match self {
            AnyCollation::Bin(bin) => bin.pad(),
            AnyCollation::Table8(table8) => table8.pad(),
            AnyCollation::General(general) => general.pad(),
            AnyCollation::Uca(uca) => uca.pad(),
        }
    }

    fn space(&self) -> u32 {
        match self {
            AnyCollation::Bin(bin) => bin.space(),
            AnyCollation::Table8(table8) => table8.space(),
            AnyCollation::General(general) => general.space(),
            AnyCollation::Uca(uca) => uca.space(),
        }
    }

    fn levels(&self) -> u8 {
        match self {
            AnyCollation::Bin(bin) => bin.levels(),
            AnyCollation::Table8(table8) => table8.levels(),
            AnyCollation::General(general) => general.levels(),
            AnyCollation::Uca(uca) => uca.levels(),
        }
    }

    fn weight_width(&self) -> u8 {
        match self {
            AnyCollation::Bin(bin) => bin.weight_width(),
            AnyCollation::Table8(table8) => table8.weight_width(),
            AnyCollation::General(general) => general.weight_width(),
            AnyCollation::Uca(uca) => uca.weight_width(),
        }
    }

    fn added(&self) -> u32 {
        match self {
            AnyCollation::Bin(bin) => bin.added(),
            AnyCollation::Table8(table8) => table8.added(),
            AnyCollation::General(general) => general.added(),
            AnyCollation::Uca(uca) => uca.added(),
        }
    }

    fn compare(&self, a: &[u8], b: &[u8]) -> Ordering {
        match self {
            AnyCollation::Bin(bin) => bin.compare(a, b),
            AnyCollation::Table8(table8) => table8.compare(a, b),
            AnyCollation::General(general) => general.compare(a, b),
            AnyCollation::Uca(uca) => uca.compare(a, b),
        }
    }

    fn same_char(&self, c: u32, d: u32) -> bool {
        match self {
            AnyCollation::Bin(bin) => bin.same_char(c, d),
            AnyCollation::Table8(table8) => table8.same_char(c, d),
            AnyCollation::General(general) => general.same_char(c, d),
            AnyCollation::Uca(uca) => uca.same_char(c, d),
        }
    }

    fn safe(&self, c: u32) -> bool {
        match self {
            AnyCollation::Bin(bin) => bin.safe(c),
            AnyCollation::Table8(table8) => table8.safe(c),
            AnyCollation::General(general) => general.safe(c),
            AnyCollation::Uca(uca) => uca.safe(c),
        }
    }

    fn floor(&self, k: u32) -> u32 {
        match self {
            AnyCollation::Bin(bin) => bin.floor(k),
            AnyCollation::Table8(table8) => table8.floor(k),
            AnyCollation::General(general) => general.floor(k),
            AnyCollation::Uca(uca) => uca.floor(k),
        }
    }

    fn tail_count(&self) -> u32 {
        match self {
            AnyCollation::Bin(bin) => bin.tail_count(),
            AnyCollation::Table8(table8) => table8.tail_count(),
            AnyCollation::General(general) => general.tail_count(),
            AnyCollation::Uca(uca) => uca.tail_count(),
        }
    }

    fn tail(&self, i: u32) -> &[u32] {
        match self {
            AnyCollation::Bin(bin) => bin.tail(i),
            AnyCollation::Table8(table8) => table8.tail(i),
            AnyCollation::General(general) => general.tail(i),
            AnyCollation::Uca(uca) => uca.tail(i),
        }
    }

    fn put_list(&self, text: &[u8], first: Option<u32>, out: &mut Weights) -> Result<(), NoMemory> {
        match self {
            AnyCollation::Bin(bin) => bin.put_list(text, first, out),
            AnyCollation::Table8(table8) => table8.put_list(text, first, out),
            AnyCollation::General(general) => general.put_list(text, first, out),
            AnyCollation::Uca(uca) => uca.put_list(text, first, out),
        }
    }

    ghost lawful = { any_lawful };
}
