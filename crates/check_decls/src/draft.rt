// A program as far as it has been typed.
ghost use Rattle.std.specs.Prelude.{◌≡◌, ◌<◌, ◌++◌, [], length, pos};
ghost use Rattle.std.specs.Prelude.{IfOk, OnOk, IfErr};
ghost use Rattle.arc_base.specs.declared.place.Stop.TheVariants as Stop;
ghost use Rattle.check_decls.specs.View.{first_kinds, first_types, first_decls, truth_of};
ghost use Rattle.check_decls.specs.View.{decl_of, with_decl};
ghost use Rattle.check_decls.specs.View.{IsFirst, CodeNoted};
ghost use Rattle.check_decls.specs.ViewBodies.{announced_by, finished_by, is_there};
ghost use Rattle.check_decls.specs.ViewBodies.{Added, Completed};

use arc_base::{Bytes, Items, Memory, Place, Stop};
use check_uses::Item;
use decl_parts::state::State;
use decl_parts::stmts::append;
use expr_parts::scope::{Decl, Kinds, Scope, What};
use nim_program::{Literal, Proc, Stmt};
use nim_types::{TypeDef, TypeTable};
use std::alloc::Global;

/// A program as far as it has been typed.
#[derive(Drop)]
pub struct Draft {
    pub state: State,
    /// The procedures, by number.
    pub procs: Vec<Proc>,
    /// Whether the body of each procedure has come.
    pub completed: Vec<bool>,
    /// The text in order, as far as what needs the whole of it asks.
    pub text: Items<Item>,
    /// The statements of module code.
    pub start: Vec<Stmt>,
}

/// How many there are, which is a want of memory where no number says it.
pub fn number_of(count: usize) -> Result<u32, Stop>
    ensures number { IfOk result (λ n. n ≡ count) }
    ensures memory { IfErr result (λ stop. stop ≡ Stop.Memory) }
{
    match u32::try_from(count) {
        Ok(number) => Ok(number),
        Err(_) => Err(Stop::Memory),
    }
}

// ---- what is built in

// The types that no source declares.
fn add_types(types: &mut TypeTable) -> Result<Kinds, Memory>
    requires { types.old ≡ [] }
    ensures kinds { IfOk result (λ kinds. kinds ≡ first_kinds) }
    ensures types { OnOk result (types.new ≡ first_types) }
{
    let ints = types.add(TypeDef::Int)?;
    let bools = types.add(TypeDef::Bool)?;
    let chars = types.add(TypeDef::Char)?;
    let texts = types.add(TypeDef::Text)?;
    Ok(Kinds {
        int: ints,
        bool: bools,
        char: chars,
        text: texts,
    })
}

fn declare(alloc: Global, scope: &mut Scope, name: &[u8], what: What) -> Result<(), Memory>
    ensures { OnOk result (scope.new ≡ with_decl scope.old (decl_of name.now what)) }
{
    let name = Bytes::from_slice(alloc, name)?;
    scope.declare(Decl { name, what })
}

fn falsehood(kinds: Kinds) -> What
    ensures { result ≡ truth_of kinds (pos 0) }
{
    What::Constant {
        ty: kinds.bool,
        value: Literal::Ordinal(0),
    }
}

fn truth(kinds: Kinds) -> What
    ensures { result ≡ truth_of kinds (pos 1) }
{
    What::Constant {
        ty: kinds.bool,
        value: Literal::Ordinal(1),
    }
}

/// The scope of a module before its own declarations.
pub fn first_scope(alloc: Global, kinds: Kinds, home: u32) -> Result<Scope, Memory>
    ensures { IfOk result (λ scope. scope
        ≡ record { decls = first_decls kinds; kinds = kinds; home = home }) }
{
    let mut scope = Scope::new(alloc, kinds, home)?;
    declare(alloc, &mut scope, b"int", What::Type(kinds.int))?;
    declare(alloc, &mut scope, b"bool", What::Type(kinds.bool))?;
    declare(alloc, &mut scope, b"char", What::Type(kinds.char))?;
    declare(alloc, &mut scope, b"string", What::Type(kinds.text))?;
    declare(alloc, &mut scope, b"false", falsehood(kinds))?;
    declare(alloc, &mut scope, b"true", truth(kinds))?;
    declare(alloc, &mut scope, b"stdin", What::Input)?;
    Ok(scope)
}

// ---- drafts

impl Draft {
    /// Before all modules.
    pub fn new(alloc: Global) -> Result<Draft, Stop>
        ensures first { IfOk result (λ draft. IsFirst draft) }
        ensures memory { IfErr result (λ stop. stop ≡ Stop.Memory) }
    {
        let mut types = TypeTable::new(alloc);
        let kinds = add_types(&mut types)?;
        let scope = Scope::new(alloc, kinds, 0)?;
        Ok(Draft {
            state: State {
                scope,
                types,
                outside: 0,
                node: 0,
                place: 0,
                globals: Items::new(alloc),
            },
            procs: Vec::new(alloc),
            completed: Vec::new(alloc),
            text: Items::new(alloc),
            start: Vec::new(alloc),
        })
    }
}

/// Notes statements of module code.
pub fn note_code(draft: &mut Draft, more: Vec<Stmt>) -> Result<(), Stop>
    ensures noted { OnOk result (CodeNoted draft.old draft.new more.items) }
    ensures state { draft.new.state ≡ draft.old.state }
    ensures memory { IfErr result (λ stop. stop ≡ Stop.Memory) }
{
    let first = number_of(draft.start.len())?;
    let count = number_of(more.len())?;
    append(&mut draft.start, more)?;
    draft.text.push(Item::Code { first, count })?;
    Ok(())
}

// The item of a procedure that is declared, where it needs a body.
fn announce(text: &mut Items<Item>, number: u32, at: Place, borrowed: bool) -> Result<(), Memory>
    ensures { OnOk result (text.new ≡ text.old ++ announced_by borrowed number at) }
{
    if borrowed {
        return Ok(());
    }
    text.push(Item::Announces { proc: number, at })
}

// The item of a procedure's body, where there is one.
fn finish(text: &mut Items<Item>, number: u32, whole: bool) -> Result<(), Memory>
    ensures { OnOk result (text.new ≡ text.old ++ finished_by whole number) }
{
    if !whole {
        return Ok(());
    }
    text.push(Item::Completes { proc: number })
}

fn is_whole(proc: &Proc) -> bool
    ensures { result ≡ is_there proc.now.body }
{
    proc.body.is_some()
}

/// Notes a procedure that is new.
pub fn add_procedure(draft: &mut Draft, proc: Proc, borrowed: bool) -> Result<(), Stop>
    ensures added { OnOk result (Added draft.old draft.new proc borrowed) }
    ensures state { draft.new.state ≡ draft.old.state }
    ensures start { draft.new.start ≡ draft.old.start }
    ensures memory { IfErr result (λ stop. stop ≡ Stop.Memory) }
{
    let number = number_of(draft.procs.len())?;
    let whole = is_whole(&proc);
    announce(&mut draft.text, number, proc.at, borrowed)?;
    finish(&mut draft.text, number, whole)?;
    draft.completed.push(whole)?;
    draft.procs.push(proc)?;
    Ok(())
}

/// Notes the declaration with the body of a procedure that is declared before.
pub fn complete_procedure(draft: &mut Draft, number: u32, proc: Proc) -> Result<(), Stop>
    requires there { number < length draft.old.procs.items }
    requires noted { number < length draft.old.completed.items }
    ensures completed { OnOk result (Completed draft.old draft.new number proc) }
    ensures state { draft.new.state ≡ draft.old.state }
    ensures start { draft.new.start ≡ draft.old.start }
    ensures memory { IfErr result (λ stop. stop ≡ Stop.Memory) }
{
    let i = number as usize;
    draft.text.push(Item::Completes { proc: number })?;
    draft.procs[i] = proc;
    draft.completed[i] = true;
    Ok(())
}
