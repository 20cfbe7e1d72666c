// Types that are written in a section, by the types before them.
ghost use Rattle.std.specs.Prelude.{◌≡◌, ◌++◌, ◌∷◌, [], length, IfOk, IfErr, OnOk, Some};
ghost use Rattle.arc_base.specs.declared.place.Stop.TheVariants as Stop;
ghost use Rattle.expr_parts.specs.ViewDecls.{last_of};
ghost use Rattle.decl_types.specs.ViewNodes.{number_in};

use arc_base::{Bytes, Items, Place, Stop};
use expr_parts::scope::Scope;
use nim_types::TypeId;

/// A type that is written in a section.
///
/// Numbers of nodes are those of nodes before it. A type of the section stands by the number of its
/// definition. Array and tuple types have the place of their first token.
#[derive(Drop)]
pub enum Node {
    /// A type of the table.
    Known(TypeId),
    /// A type of the section.
    Named(u32),
    Sequence(u32),
    Array {
        at: Place,
        len: u32,
        of: u32,
    },
    /// The names of its parts in normal form, or none.
    Tuple {
        at: Place,
        names: Items<Bytes>,
        parts: Items<u32>,
    },
}

/// Adds a node and gives its number. There is no memory for the 4,294,967,296th.
pub fn add(nodes: &mut Vec<Node>, node: Node) -> Result<u32, Stop>
    ensures nodes { OnOk result (nodes.new.items ≡ nodes.old.items ++ node ∷ []) }
    ensures number { IfOk result (λ i. i ≡ length nodes.old.items) }
    ensures memory { IfErr result (λ stop. stop ≡ Stop.Memory) }
{
    let count = nodes.len();
    if count >= u32::MAX as usize {
        return Err(Stop::Memory);
    }
    nodes.push(node)?;
    Ok(count as u32)
}

/// The types of a section in the scope: their declarations stand from a number on, one for each
/// name that its scope doesn't declare already.
#[derive(Drop)]
pub struct Names {
    pub start: u32,
    /// The numbers of their definitions.
    pub numbers: Vec<u32>,
}

impl Names {
    /// The number of the definition of a name, which is in normal form, where it is that of a type
    /// of the section.
    pub fn number_of(&self, scope: &Scope, name: &[u8]) -> Option<u32>
        ensures { result ≡ number_in self.now
            (last_of scope.now.decls name.now (length scope.now.decls)) }
    {
        match scope.number_of(name) {
            Some(number) => self.definition(number),
            None => None,
        }
    }

    // The number of the definition whose declaration has a number.
    fn definition(&self, number: u32) -> Option<u32>
        ensures { result ≡ number_in self.now (Some number) }
    {
        if number < self.start {
            return None;
        }
        self.numbers.get((number - self.start) as usize).copied()
    }
}
