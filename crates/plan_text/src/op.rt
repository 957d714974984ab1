//! Comparisons by their names.
ghost use Rattle.std.specs.Prelude.{◌≡◌};
ghost use Rattle.plan_text.specs.Tests.{op_of};

use query_model::Op;

/// The comparison of a name.
pub(crate) fn op_of(name: &str) -> Option<Op>
    ensures { result ≡ op_of name.now }
{
    if name == "eq" {
        return Some(Op::Eq);
    }
    if name == "ne" {
        return Some(Op::Ne);
    }
    if name == "lt" {
        return Some(Op::Lt);
    }
    if name == "le" {
        return Some(Op::Le);
    }
    if name == "gt" {
        return Some(Op::Gt);
    }
    if name == "ge" {
        return Some(Op::Ge);
    }
    None
}
