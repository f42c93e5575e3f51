// Whether two small things are one.
ghost use Rattle.std.specs.Prelude.{◌≡◌, ◌↔◌, IsTrue};

use ms_ir::{Ty, Val};

/// Whether two types are one.
pub fn same_type(a: Ty, b: Ty) -> bool
    ensures { IsTrue result ↔ (a ≡ b) }
{
    a == b
}

/// Whether two types that may be missing are one, or both are missing.
pub fn same_given(a: Option<Ty>, b: Option<Ty>) -> bool
    ensures { IsTrue result ↔ (a ≡ b) }
{
    match (a, b) {
        (Some(a), Some(b)) => same_type(a, b),
        (None, None) => true,
        _ => false,
    }
}

/// Whether two values are one.
pub fn same_val(a: Val, b: Val) -> bool
    ensures { IsTrue result ↔ (a ≡ b) }
{
    match (a, b) {
        (Val::Num(s, m), Val::Num(t, n)) => same_type(s, t) && m == n,
        (Val::Local(a), Val::Local(b)) => a.0 == b.0,
        (Val::Global(a), Val::Global(b)) => a.0 == b.0,
        _ => false,
    }
}
