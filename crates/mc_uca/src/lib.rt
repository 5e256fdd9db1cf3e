//! The Unicode collations: texts of a Unicode set in the order of a table of collation elements.
//!
//! UTS #10, S2.1 and S3, contiguous matches alone; MySQL 8.0 manual, 10.10.1. `specs/Kind.antt` has
//! the kinds, `specs/Weighing.antt` the contractions of a set and the weight lists of its texts,
//! `specs/UcaMeaning.antt` what a collation means; `specs/UcaLaws.antt` proves that it keeps the
//! laws of `mc_order`. `UcaCollation::new(alloc, UcaKind::Uca4, Charset::Utf8mb4, keys)` is the one
//! of a table `keys`.
//!
//! Read `kind`, `fault` and `collation`; then `weigher`, which has the table, `reach`, `inner`,
//! `codes` and `piece`, by which a text is cut, `pending`, `text` and `stream`, which give its
//! elements and its weights one after the other, `flat` and `weights`, level by level; `direct`,
//! `first_weight` and `cursor`, which give the weights of one level, at once where a character has
//! one; then `compare`, `chars`, `put`, and `code_elements`, `tails`, `heads`, `floor`, `space` and
//! `findings`, by which a collation is made.
#![tactic(auto)]

mod chars;
mod code_elements;
mod codes;
mod collation;
mod compare;
mod cursor;
mod direct;
mod fault;
mod findings;
mod first_weight;
mod flat;
mod floor;
mod heads;
mod inner;
mod kind;
mod laws;
mod pending;
mod piece;
mod put;
mod reach;
mod space;
mod stream;
mod tails;
mod text;
mod weigher;
mod weights;

pub use collation::UcaCollation;
pub use fault::UcaFault;
pub use kind::UcaKind;
pub use laws::uca_law;
