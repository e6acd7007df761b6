//! What the tables ask of an operand's type.

ghost use Rattle.std.specs.Prelude.{◌≡◌};
ghost use Rattle.c_type_base.specs.declared.ty.Ty.{out-Ty};
ghost use Rattle.c_type_expr.specs.Operators.{sort_of_level};
ghost use Rattle.c_type_expr.specs.Sorted.{sort_seen};

use c_ast::IntType;
use c_type_base::Ty;

/// The type of an operand.
#[derive(Clone, Copy)]
pub enum Operand<'a> {
    Integer(IntType),
    /// A pointer, by what it points to.
    Points(&'a Ty),
    Neither,
}

/// What the tables ask of a type.
pub fn operand_of(ty: &Ty) -> Operand<'_>
    ensures { sort_seen result ≡ sort_of_level (out-Ty ty.now) }
{
    match ty {
        Ty::Int(int) => Operand::Integer(*int),
        Ty::Pointer(target) => Operand::Points(target.get()),
        _ => Operand::Neither,
    }
}
