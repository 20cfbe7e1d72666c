// Equality of entries: declared types are equal where name and place are, and for objects the
// arguments.
ghost use Rattle.std.specs.Prelude.{◌≡◌};
ghost use Rattle.nim_types.specs.Kept.{same_def};

use crate::types::TypeDef as Def;

/// Whether two entries are one type.
pub fn is_equal(a: &Def, b: &Def) -> bool
    ensures { result ≡ same_def a.now b.now }
{
    match (a, b) {
        (Def::Int, Def::Int) => true,
        (Def::Bool, Def::Bool) => true,
        (Def::Char, Def::Char) => true,
        (Def::Text, Def::Text) => true,
        (Def::Seq(i), Def::Seq(j)) => i == j,
        (Def::Param(m), Def::Param(n)) => m == n,
        (Def::Enum { name, at, .. }, Def::Enum { name: n, at: p, .. }) => name == n && at == p,
        (Def::Array { len, of }, Def::Array { len: n, of: j }) => len == n && of == j,
        (Def::Tuple { names, parts }, Def::Tuple { names: n, parts: p }) => {
            names.as_slice() == n.as_slice() && parts.as_slice() == p.as_slice()
        }
        (
            Def::Object { name, at, args, .. },
            Def::Object {
                name: n,
                at: p,
                args: more,
                ..
            },
        ) => name == n && at == p && args.as_slice() == more.as_slice(),
        (Def::Distinct { name, at, .. }, Def::Distinct { name: n, at: p, .. }) => {
            name == n && at == p
        }
        (Def::Ref { name, to }, Def::Ref { name: n, to: j }) => name == n && to == j,
        (Def::Exception { name, at, .. }, Def::Exception { name: n, at: p, .. }) => {
            name == n && at == p
        }
        _ => false,
    }
}
