// The first of several nodes.
ghost use Rattle.std.specs.Prelude.{◌≡◌, ◌||◌, not};
ghost use Rattle.nim_types.specs.Table.{type_at};
ghost use Rattle.nim_program.specs.View.{if_type};
ghost use Rattle.nim_meaning.specs.Unbuilt.{is_unbuilt, gives_unbuilt};
ghost use Rattle.nim_meaning.specs.LeftOut as specs;
ghost use Rattle.nim_meaning.specs.LeftOut.{out_if, ◌or_then◌};
ghost use Rattle.program_limits.specs.Known.{known_types, known_facts};

use crate::known::Known;
use crate::types::{gives_unbuilt, is_unbuilt};
use nim_program::Node;
use nim_types::TypeId;

/// Whether one of two holds.
pub fn either(one: bool, other: bool) -> bool
    ensures { result ≡ (one || other) }
{
    one || other
}

/// A node that is left out where a condition holds.
pub fn out_if(condition: bool, node: Node) -> Option<Node>
    ensures { result ≡ out_if condition node }
{
    if condition { Some(node) } else { None }
}

/// A node that is left out where a type has no code.
pub fn if_unbuilt(known: &Known, ty: TypeId, node: Node) -> Option<Node>
    ensures { result ≡ out_if (is_unbuilt (known_facts known.now)
        (type_at (known_types known.now) ty)) node }
{
    out_if(is_unbuilt(known, ty), node)
}

/// A node that is left out where one of two types has no code.
pub fn if_either(
    known: &Known,
    ty: Option<TypeId>,
    other: Option<TypeId>,
    node: Node,
) -> Option<Node>
    ensures { result ≡ out_if (gives_unbuilt (known_facts known.now)
        (if_type (known_types known.now) ty) || gives_unbuilt (known_facts known.now)
        (if_type (known_types known.now) other)) node }
{
    out_if(
        either(gives_unbuilt(known, ty), gives_unbuilt(known, other)),
        node,
    )
}

/// A node that is left out where its type has no code, or where it isn't built.
pub fn out_unless(known: &Known, ty: Option<TypeId>, built: bool, node: Node) -> Option<Node>
    ensures { result ≡ out_if (gives_unbuilt (known_facts known.now)
        (if_type (known_types known.now) ty) || not built) node }
{
    out_if(either(gives_unbuilt(known, ty), !built), node)
}

/// Of two parts, one before the other in the text.
pub fn or_then(first: Option<Node>, later: Option<Node>) -> Option<Node>
    ensures { result ≡ (first or_then later) }
{
    match first {
        None => later,
        Some(node) => Some(node),
    }
}

/// The earlier of two in the text.
pub fn earlier(one: Option<Node>, other: Option<Node>) -> Option<Node>
    ensures { result ≡ specs.earlier one other }
{
    match one {
        None => other,
        Some(node) => match other {
            None => Some(node),
            Some(later) => Some(if node.number < later.number {
                node
            } else {
                later
            }),
        },
    }
}
