ghost use Rattle.mc_coerce.specs.Operand.{AgreeOnSet, AreOperands, IsOperand};
ghost use Rattle.std.specs.List.{All};
ghost use Rattle.std.specs.Prelude.{◌↔◌, IsTrue};

use crate::levels::IGNORABLE;
use crate::operand::Operand;
use mc_charset::{same_set, set_names_law};

/// How many collations are built in; their numbers begin at 0.
const BUILT_IN_COUNT: u32 = 9;

/// Whether the operands are what `aggregate` asks for: levels of 0 to 6, `bin` exactly at built-in
/// collations, and one set for each collation. It looks at each two of them.
pub fn are_operands(list: &[Operand]) -> bool
    ensures { IsTrue result ↔ AreOperands list.now }
{
    list.iter().all(|a| is_operand(a)) && list.iter().all(|a| agrees(a, list))
}

fn is_operand(a: &Operand) -> bool
    ensures { IsTrue result ↔ IsOperand a.now }
{
    a.level <= IGNORABLE && a.bin == (a.collation.0 < BUILT_IN_COUNT)
}

/// Whether the operand has one set with each one of its collation.
fn agrees(a: &Operand, list: &[Operand]) -> bool
    ensures { IsTrue result ↔ All (AgreeOnSet a.now) list.now }
{
    list.iter().all(|b| agree(a, b))
}

fn agree(a: &Operand, b: &Operand) -> bool
    ensures { IsTrue result ↔ AgreeOnSet a.now b.now }
{
    set_names_law();
    a.collation != b.collation || same_set(a.charset, b.charset)
}
