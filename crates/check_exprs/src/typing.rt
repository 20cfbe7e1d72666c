// From trees to typed expressions.
//
// Each function of the cycle stands for one function of the rules, and a list of parts is gone through by a loop.
ghost use Rattle.std.specs.Prelude.{length};
ghost use Rattle.nim_tree.specs.Terms.{term_of};
ghost use Rattle.expr_parts.specs.ViewReady.{IsReady, WantWithin};
ghost use Rattle.check_exprs.specs.ViewTyped.{TypedSo};

mod branches;
mod calls;
mod forms;
mod labels;
mod operands;
mod values;
mod written;

use arc_base::{Code, Stop};
use branches::{case_of, if_with_else};
pub(crate) use calls::call;
use expr_parts::scope::Scope;
use expr_parts::value::{Typed, Want, refusal};
use expr_steps::simple::{char_of, int_of, name_of, text_of};
use forms::{array, binary, field, index, object, sequence, tuple, unary};
pub(crate) use labels::labels;
use nim_tree::Expr as Tree;
use nim_types::TypeTable;
use std::alloc::Global;
pub(crate) use written::read_type;

/// What stands for a tree, with nodes numbered from some number on.
#[cycle(typing)]
pub(crate) fn typed(
    alloc: Global,
    types: &mut TypeTable,
    scope: &Scope,
    want: Want,
    number: u32,
    tree: &Tree,
) -> Result<Typed, Stop>
    requires ready { IsReady types.old scope.now }
    requires want { WantWithin (length types.old) want }
    ensures { TypedSo types.old types.new scope.now want number (term_of tree.now) result }
{
    match tree {
        Tree::Int { at, value } => int_of(types, scope, number, *at, *value),
        Tree::Char { at, value } => char_of(types, scope, number, *at, *value),
        Tree::Text { at, text } => text_of(alloc, types, scope, number, *at, text.as_slice()),
        Tree::Name { at, text } => name_of(alloc, types, scope, number, *at, text.as_slice()),
        Tree::Quoted { at, .. } => Err(refusal(Code::NotTyped, *at)),
        Tree::Range { at, .. } => Err(refusal(Code::NotTyped, *at)),
        Tree::Nil { at } => Err(refusal(Code::LeftOut, *at)),
        Tree::Paren { inner, .. } => typed(alloc, types, scope, want, number, inner),
        Tree::Named { value, .. } => typed(alloc, types, scope, want, number, value),
        Tree::Tuple { at, parts } => tuple(alloc, types, scope, want, number, *at, parts),
        Tree::Array { at, parts } => array(alloc, types, scope, want, number, *at, parts),
        Tree::Sequence { at, parts } => sequence(alloc, types, scope, want, number, *at, parts),
        Tree::Construct { at, text, parts } => {
            object(alloc, types, scope, number, *at, text.as_slice(), parts)
        }
        Tree::Field { at, base, text } => {
            field(alloc, types, scope, number, *at, base, text.as_slice())
        }
        Tree::Index { at, base, parts } => index(alloc, types, scope, number, *at, base, parts),
        Tree::Call { at, base, parts } => call(alloc, types, scope, number, *at, base, parts),
        Tree::Unary { at, op, operand } => { unary(alloc, types, scope, number, *at, *op, operand) }
        Tree::Binary {
            at,
            op,
            left,
            right,
        } => binary(alloc, types, scope, number, *at, *op, left, right),
        Tree::If {
            at,
            branches,
            otherwise,
        } => if_with_else(alloc, types, scope, want, number, *at, branches, otherwise),
        Tree::Case {
            at,
            selector,
            branches,
            otherwise,
        } => case_of(
            alloc, types, scope, want, number, *at, selector, branches, otherwise,
        ),
    }
}
