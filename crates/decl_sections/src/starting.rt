// What is declared before the first definition of a section is read.
ghost use Rattle.std.specs.Prelude.{◌≡◌, ◌≤◌, ◌++◌, ◌∷◌, [], map, drop, length, if◌then◌else◌};
ghost use Rattle.std.specs.Prelude.{replicate, None, IfOk, IfErr, OnOk};
ghost use Rattle.arc_base.specs.declared.place.Stop.TheVariants as Stop;
ghost use Rattle.indent_scanner.specs.Words.{normal};
ghost use Rattle.nim_tree.specs.Types.{declaration_of};
ghost use Rattle.expr_parts.specs.ViewDecls.{declares};
ghost use Rattle.decl_rules.specs.Sections.{type_names};
ghost use Rattle.decl_written.specs.ViewWritten.{HasNames};
ghost use Rattle.decl_types.specs.ViewScoped.{numbers_by, decls_by, type_decl};
ghost use Rattle.decl_sections.specs.ViewSections.{none_known};
ghost use Rattle.decl_sections.specs.ViewWalk.{Begins};

use crate::bodies::Declared;
use arc_base::{Bytes, Stop};
use decl_types::known::Definition;
use decl_types::nodes::Names;
use expr_parts::scope::{Decl, Scope, What};
use expr_steps::given::behind;
use indent_scanner::normal_form;
use nim_tree::TypeDef as Tree;
use nim_types::TypeId;
use std::alloc::Global;
use std::collections::HashSet;

/// What stays the same while a section is read.
#[derive(Drop)]
pub struct Frame {
    pub names: Names,
    /// The names of its types, in normal form.
    pub all: HashSet<Bytes>,
}

/// What has been read of a section.
#[derive(Drop)]
pub struct Reading {
    pub declared: Declared,
    pub read: Vec<Definition>,
    /// By number of the definition: its type once it is known.
    pub known: Vec<Option<TypeId>>,
}

// Declares the type of a definition, unless its scope declares the name already.
fn declare_type(
    alloc: Global,
    scope: &mut Scope,
    outside: u32,
    numbers: &mut Vec<u32>,
    number: u32,
    def: &Tree,
) -> Result<(), Stop>
    ensures decls { OnOk result (scope.new.decls ≡
        (if declares (normal def.now.name.text) (drop outside scope.old.decls)
        then scope.old.decls
        else scope.old.decls ++ type_decl (normal def.now.name.text) None ∷ [])) }
    ensures numbers { OnOk result (numbers.new.items ≡
        (if declares (normal def.now.name.text) (drop outside scope.old.decls)
        then numbers.old.items else numbers.old.items ++ number ∷ [])) }
    ensures kinds { scope.new.kinds ≡ scope.old.kinds }
    ensures home { scope.new.home ≡ scope.old.home }
    ensures memory { IfErr result (λ stop. stop ≡ Stop.Memory) }
{
    let name = normal_form(alloc, def.name.text.as_slice())?;
    if scope.is_declared_since(name.as_slice(), outside) {
        return Ok(());
    }
    numbers.push(number)?;
    scope.declare(Decl {
        name,
        what: What::Pending,
    })?;
    Ok(())
}

// Declares the types of a section, none of which is known yet: of each name that its scope doesn't
// declare already the first. Gives the numbers of their definitions.
fn declare_types(
    alloc: Global,
    scope: &mut Scope,
    outside: u32,
    defs: &[Tree],
) -> Result<Vec<u32>, Stop>
    requires { outside ≤ length scope.old.decls }
    ensures numbers { IfOk result (λ numbers. numbers.items
        ≡ numbers_by (λ x. declares x (drop outside scope.old.decls)) [] 0
        (map declaration_of defs.now)) }
    ensures decls { OnOk result (scope.new.decls ≡ scope.old.decls
        ++ decls_by (λ x. declares x (drop outside scope.old.decls)) []
        (none_known (map declaration_of defs.now)) (map declaration_of defs.now)) }
    ensures kinds { scope.new.kinds ≡ scope.old.kinds }
    ensures home { scope.new.home ≡ scope.old.home }
    ensures memory { IfErr result (λ stop. stop ≡ Stop.Memory) }
{
    let mut numbers = Vec::new(alloc);
    let mut number = 0_u32;
    for def in defs {
        declare_type(alloc, scope, outside, &mut numbers, number, def)?;
        number = behind(number)?;
    }
    Ok(numbers)
}

// The names of the types of a section, in normal form.
fn names_of(alloc: Global, defs: &[Tree]) -> Result<HashSet<Bytes>, Stop>
    ensures names { IfOk result (λ set. HasNames set (type_names (map declaration_of defs.now))) }
    ensures memory { IfErr result (λ stop. stop ≡ Stop.Memory) }
{
    let mut set = HashSet::new(alloc);
    for def in defs {
        let name = normal_form(alloc, def.name.text.as_slice())?;
        set.insert(name)?;
    }
    Ok(set)
}

// For each definition that its type isn't known.
fn no_types(alloc: Global, count: usize) -> Result<Vec<Option<TypeId>>, Stop>
    ensures types { IfOk result (λ known. known.items ≡ replicate count None) }
    ensures memory { IfErr result (λ stop. stop ≡ Stop.Memory) }
{
    let mut known = Vec::new(alloc);
    known.resize(count, None)?;
    Ok(known)
}

/// A section of which nothing has been read, whose types are declared.
pub fn begin(
    alloc: Global,
    scope: &mut Scope,
    outside: u32,
    defs: &[Tree],
) -> Result<(Frame, Reading), Stop>
    requires { outside ≤ length scope.old.decls }
    ensures begins { IfOk result (λ both. Begins scope.old scope.new outside
        (map declaration_of defs.now) both.0 both.1) }
    ensures memory { IfErr result (λ stop. stop ≡ Stop.Memory) }
{
    let start = scope.count();
    let numbers = declare_types(alloc, scope, outside, defs)?;
    let all = names_of(alloc, defs)?;
    let known = no_types(alloc, defs.len())?;
    let frame = Frame {
        names: Names { start, numbers },
        all,
    };
    let reading = Reading {
        declared: Declared {
            outside,
            start,
            seen: HashSet::new(alloc),
        },
        read: Vec::new(alloc),
        known,
    };
    Ok((frame, reading))
}
