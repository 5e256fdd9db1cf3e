/// Names a collation. 0 to 8 are built in, in this order: `binary`, `latin1_bin`, `ascii_bin`,
/// `utf8mb3_bin`, `utf8mb4_bin`, `ucs2_bin`, `utf16_bin`, `utf32_bin`, `utf8mb4_0900_bin`.
/// Declared collations follow from 9 in the order of the catalog.
#[derive(Clone, Copy, Debug, PartialEq, Eq)]
pub struct CollId(pub u32);
