ghost use Rattle.mc_typing.specs.Names.{arith_name, cmp_name};
ghost use Rattle.std.specs.Prelude.{◌≡◌};

use mc_ast::{ArithOp, CmpOp};

/// The name of a comparison in a refusal.
pub(crate) fn cmp_name(op: CmpOp) -> &'static [u8]
    ensures { result.now ≡ cmp_name op }
{
    match op {
        CmpOp::Eq => b"=",
        CmpOp::NullEq => b"<=>",
        CmpOp::Ne => b"<>",
        CmpOp::Lt => b"<",
        CmpOp::Le => b"<=",
        CmpOp::Gt => b">",
        CmpOp::Ge => b">=",
    }
}

/// The name of an operator on numbers in a refusal.
pub(crate) fn arith_name(op: ArithOp) -> &'static [u8]
    ensures { result.now ≡ arith_name op }
{
    match op {
        ArithOp::Add => b"+",
        ArithOp::Sub => b"-",
        ArithOp::Mul => b"*",
        ArithOp::Div => b"div",
        ArithOp::Mod => b"%",
    }
}
