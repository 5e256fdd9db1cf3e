//! The statements of a script and the tokens of a statement, as the MySQL 8.0 manual has them (9.1,
//! 9.2, 9.3 and 9.7), without what `docs/SQL.md` leaves out.
//!
//! `next_statement(script, from)` gives the first statement from a byte on, and
//! `tokens(alloc, script, statement)` its tokens, or the byte where none begins. Both are linear.
//! `kind_of` is for a parser: what it asks of a token, its keyword among it.
//!
//! In reading order: `element` cuts a script into spaces, comments, strings and semicolons, and
//! `statement` its elements into statements, with their laws in `cutting`. `lexeme` has the types
//! of tokens. `spelling`, with `mark`, `number` and `hexadecimal`, finds the longest spelling that
//! begins some bytes, `reading` what it says, and `piece` what begins at a byte: a blank, a token
//! or nothing. `token` goes over a statement, and `laws` says what its tokens are without a
//! scanner. `keyword` and `kind` tell what words are.
//!
//! The definitions are in `specs/`, in the order of its `Lib.antt`.
#![tactic(auto)]

mod cutting;
mod element;
mod hexadecimal;
mod keyword;
mod kind;
mod laws;
mod lexeme;
mod mark;
mod number;
mod piece;
mod reading;
mod spelling;
mod statement;
mod token;

pub use cutting::{cut_law, statements_law};
pub use keyword::{Keyword, keyword_named};
pub use kind::{TokenKind, kind_of};
pub use laws::token_laws;
pub use lexeme::{LexFault, Lexeme, Symbol, Token};
pub use statement::next_statement;
pub use token::tokens;
