// Written types on the heap.
ghost use Rattle.std.specs.Prelude.{◌≡◌, IfOk, IfErr};
ghost use Rattle.arc_base.specs.declared.place.Stop.TheVariants.{Memory};
ghost use Rattle.nim_tree.specs.Terms.{term_of};
ghost use Rattle.nim_tree.specs.Types.{written_of, arguments_of, fields_of, named, array, ref_to, tuple_of};

use arc_base::{Bytes, Place, Stop};
use nim_tree::{Expr, Field, TypeTree};
use std::alloc::Global;

/// A name with arguments.
pub(crate) fn make_named(at: Place, text: Bytes, arguments: Vec<TypeTree>) -> TypeTree
    ensures { written_of result ≡ named at text (arguments_of arguments.items) }
{
    TypeTree::Named {
        at,
        text,
        arguments,
    }
}

/// An array.
pub(crate) fn make_array(
    alloc: Global,
    at: Place,
    length: Expr,
    element: TypeTree,
) -> Result<TypeTree, Stop>
    ensures ok { IfOk result (λ tree. written_of tree ≡ array at (term_of length) (written_of element)) }
    ensures err { IfErr result (λ stop. stop ≡ Memory) }
{
    match Box::new(alloc, element) {
        Ok(element) => Ok(TypeTree::Array {
            at,
            length,
            element,
        }),
        Err(failed) => {
            drop(failed);
            drop(length);
            Err(Stop::Memory)
        }
    }
}

/// A reference to a type.
pub(crate) fn make_ref(alloc: Global, at: Place, target: TypeTree) -> Result<TypeTree, Stop>
    ensures ok { IfOk result (λ tree. written_of tree ≡ ref_to at (written_of target)) }
    ensures err { IfErr result (λ stop. stop ≡ Memory) }
{
    let target = Box::new(alloc, target)?;
    Ok(TypeTree::Ref { at, target })
}

/// A tuple.
pub(crate) fn make_tuple(at: Place, fields: Vec<Field>) -> TypeTree
    ensures { written_of result ≡ tuple_of at (fields_of fields.items) }
{
    TypeTree::Tuple { at, fields }
}
