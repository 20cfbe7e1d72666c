// Types of a section that become known.
ghost use Rattle.std.specs.Prelude.{◌≡◌, ◌<◌, ℕ, List, Some, map, length, slice_get, IfOk, IfErr, Bool, false};
ghost use Rattle.std.specs.Prelude.{OnOk, OnErr};
ghost use Rattle.arc_base.specs.declared.place.Stop.TheVariants as Stop;
ghost use Rattle.nim_types.specs.Types as type;
ghost use Rattle.nim_types.specs.Types.{Ty, Key, Facts};
ghost use Rattle.nim_types.specs.Table.{type_at, types_at, meant, AllBelow, IsWithin, MayAdd, Grows};
ghost use Rattle.expr_parts.specs.View.{Under, Grown, IsBuilt};
ghost use Rattle.decl_rules.specs.Meanings.{renamed};
ghost use Rattle.decl_types.specs.ViewNodes.{node_type, node_types};
ghost use Rattle.decl_types.specs.ViewMarks.{mark_at, node_mark, node_marks, definition_mark};
ghost use Rattle.decl_types.specs.ViewMarks.{is_unknown, RenamedWhere};
ghost use Rattle.decl_types.specs.ViewKnown.{KnownAs, Untouched, NodeIn, NodesIn};
ghost use Rattle.decl_types.specs.ViewKnown.{MadeBelow, Ordered, MeaningWithin, InOrder, KnownBelow};
ghost use Rattle.decl_types.specs.ViewKnown.{OneEach, IsSound, AddsMeant, Becomes, Kept, HasType};
ghost use Rattle.decl_types.specs.ViewKnown.{Declares, object_def, enum_def, distinct_def};

use crate::nodes::Node;
use arc_base::{Bytes, Items, Memory, Place, Stop};
use expr_parts::grow::add;
use nim_types::{FieldName, TypeDef, TypeId, TypeTable, table_growth};
use std::alloc::Global;

/// What a definition says of its type, by its nodes.
#[derive(Drop)]
pub enum Meaning {
    Object {
        fields: Items<FieldName>,
        types: Items<u32>,
    },
    /// The members as declared.
    Enum(Items<Bytes>),
    Distinct(u32),
    Alias(u32),
}

/// A definition that has been read.
#[derive(Drop)]
pub struct Definition {
    /// The name as declared.
    pub name: Bytes,
    pub at: Place,
    pub meaning: Meaning,
    pub nodes: Vec<Node>,
}

/// The type that stands at a number.
pub fn id_at(ids: &[TypeId], number: usize) -> TypeId
    requires { number < length ids.now }
    ensures { slice_get ids.now number ≡ Some result }
{
    ids[number]
}

// The types that stand at numbers.
fn numbers_at(alloc: Global, ids: &[TypeId], nodes: &[u32]) -> Result<Items<TypeId>, Memory>
    requires { AllBelow (length ids.now) nodes.now }
    ensures within { IfOk result (λ all. (n : ℕ) → AllBelow n ids.now → AllBelow n all) }
    ensures each { IfOk result (λ all. (ts : List Ty) → map (type_at ts) all
        ≡ map (type_at (map (type_at ts) ids.now)) nodes.now) }
    ensures length { IfOk result (λ all. length all ≡ length nodes.now) }
{
    let mut all = Items::new(alloc);
    for node in nodes {
        all.push(id_at(ids, *node as usize))?;
    }
    Ok(all)
}

fn copies_of(alloc: Global, texts: &[Bytes]) -> Result<Items<Bytes>, Memory>
    ensures { IfOk result (λ copies. copies ≡ texts.now) }
{
    let mut copies = Items::new(alloc);
    for text in texts {
        copies.push(Bytes::from_slice(alloc, text.as_slice())?)?;
    }
    Ok(copies)
}

fn field_copies(alloc: Global, fields: &[FieldName]) -> Result<Items<FieldName>, Memory>
    ensures { IfOk result (λ copies. copies ≡ fields.now) }
{
    let mut copies = Items::new(alloc);
    for field in fields {
        let name = Bytes::from_slice(alloc, field.name.as_slice())?;
        copies.push(FieldName {
            name,
            shown: field.shown,
        })?;
    }
    Ok(copies)
}

// The entries of nodes that are made of others.

fn sequence_of(ids: &[TypeId], of: u32) -> TypeDef
    requires { of < length ids.now }
    ensures built { IsBuilt result }
    ensures within { (n : ℕ) → AllBelow n ids.now → IsWithin n result }
    ensures means { (ts : List Ty) → meant ts result
        ≡ type.sequence (type_at (map (type_at ts) ids.now) of) }
{
    TypeDef::Seq(id_at(ids, of as usize))
}

fn array_of(ids: &[TypeId], len: u32, of: u32) -> TypeDef
    requires { of < length ids.now }
    ensures built { IsBuilt result }
    ensures within { (n : ℕ) → AllBelow n ids.now → IsWithin n result }
    ensures means { (ts : List Ty) → meant ts result
        ≡ type.array len (type_at (map (type_at ts) ids.now) of) }
{
    TypeDef::Array {
        len,
        of: id_at(ids, of as usize),
    }
}

fn tuple_of(
    alloc: Global,
    ids: &[TypeId],
    names: &[Bytes],
    parts: &[u32],
) -> Result<TypeDef, Memory>
    requires { AllBelow (length ids.now) parts.now }
    ensures built { IfOk result (λ def. IsBuilt def) }
    ensures within { IfOk result (λ def. (n : ℕ) → AllBelow n ids.now → IsWithin n def) }
    ensures means { IfOk result (λ def. (ts : List Ty) → meant ts def
        ≡ type.tuple names.now (types_at (map (type_at ts) ids.now) parts.now)) }
{
    Ok(TypeDef::Tuple {
        names: copies_of(alloc, names)?,
        parts: numbers_at(alloc, ids, parts)?,
    })
}

// The type of a definition. Where it isn't known, nothing is made of the node that names it: then it
// may be any type.
fn type_of_named(
    alloc: Global,
    types: &mut TypeTable,
    known: &[Option<TypeId>],
    number: usize,
) -> Result<TypeId, Stop>
    requires number { number < length known.now }
    requires known { KnownBelow (length types.old) known.now }
    ensures grown { Grown types.old types.new }
    ensures within { IfOk result (λ id. id < length types.new) }
    ensures known { mark_at (map is_unknown known.now) number ≡ false
        → IfOk result (λ id. slice_get known.now number ≡ Some (Some id)) }
    ensures memory { IfErr result (λ stop. stop ≡ Stop.Memory) }
{
    match known[number] {
        Some(id) => Ok(id),
        None => add(
            types,
            TypeDef::Tuple {
                names: Items::new(alloc),
                parts: Items::new(alloc),
            },
        ),
    }
}

// The type of a node, by those of the nodes before it.
fn type_of(
    alloc: Global,
    types: &mut TypeTable,
    known: &[Option<TypeId>],
    node: &Node,
    ids: &[TypeId],
) -> Result<TypeId, Stop>
    requires below { AllBelow (length types.old) ids.now }
    requires ordered { MadeBelow (length ids.now) node.now }
    requires node { NodeIn (length types.old) (length known.now) node.now }
    requires known { KnownBelow (length types.old) known.now }
    ensures grown { Grown types.old types.new }
    ensures within { IfOk result (λ id. id < length types.new) }
    ensures means { IfOk result (λ id. (n m : ℕ) → NodeIn n m node.now
        → (ts : List Ty) (facts : Facts) → Under types.new ts facts
        → (keys : List Key) (by : Key → Ty) (done : List Ty) (before : List Bool)
        → KnownAs ts keys known.now by → Untouched ts n by
        → RenamedWhere before (map (type_at ts) ids.now) by done
        → node_mark (map is_unknown known.now) before node.now ≡ false
        → type_at ts id ≡ renamed by (node_type ts keys done node.now)) }
    ensures memory { IfErr result (λ stop. stop ≡ Stop.Memory) }
{
    match node {
        Node::Known(id) => Ok(*id),
        Node::Named(number) => type_of_named(alloc, types, known, *number as usize),
        Node::Sequence(of) => add(types, sequence_of(ids, *of)),
        Node::Array { len, of, .. } => add(types, array_of(ids, *len, *of)),
        Node::Tuple { names, parts, .. } => {
            add(
                types,
                tuple_of(alloc, ids, names.as_slice(), parts.as_slice())?,
            )
        }
    }
}

/// The types of nodes; of those that name a type of the section which isn't known, any types.
pub fn types_of(
    alloc: Global,
    types: &mut TypeTable,
    known: &[Option<TypeId>],
    nodes: &[Node],
) -> Result<Vec<TypeId>, Stop>
    requires ordered { Ordered 0 nodes.now }
    requires nodes { NodesIn (length types.old) (length known.now) nodes.now }
    requires known { KnownBelow (length types.old) known.now }
    ensures grown { Grown types.old types.new }
    ensures within { IfOk result (λ ids. AllBelow (length types.new) ids.items) }
    ensures count { IfOk result (λ ids. length ids.items ≡ length nodes.now) }
    ensures means { IfOk result (λ ids. (n m : ℕ) → NodesIn n m nodes.now
        → (ts : List Ty) (facts : Facts) → Under types.new ts facts
        → (keys : List Key) (by : Key → Ty) → KnownAs ts keys known.now by → Untouched ts n by
        → RenamedWhere (node_marks (map is_unknown known.now) nodes.now) (map (type_at ts) ids.items)
        by (node_types ts keys nodes.now)) }
    ensures memory { IfErr result (λ stop. stop ≡ Stop.Memory) }
{
    let mut ids = Vec::new(alloc);
    for node in nodes {
        match type_of(alloc, types, known, node, ids.as_slice()) {
            Ok(id) => ids.push(id)?,
            Err(stop) => return Err(stop),
        }
    }
    Ok(ids)
}

// The number of a declared type, which is new. (That of another one is never asked for: two
// declarations stand at two places.)
fn add_new(types: &mut TypeTable, def: TypeDef) -> Result<TypeId, Stop>
    requires { MayAdd types.old def }
    ensures declares { IfOk result (λ id. Declares types.old types.new def id) }
    ensures grows { OnOk result (Grows types.old types.new) }
    ensures same { OnErr result (types.new ≡ types.old) }
    ensures memory { IfErr result (λ stop. stop ≡ Stop.Memory) }
{
    let count = types.count();
    let id = types.add(def)?;
    if id != count {
        return Err(Stop::Memory);
    }
    Ok(id)
}

// An object with the types of its fields.
fn add_object(
    alloc: Global,
    types: &mut TypeTable,
    definition: &Definition,
    fields: &[FieldName],
    parts: Items<TypeId>,
) -> Result<TypeId, Stop>
    requires within { AllBelow (length types.old) parts }
    requires one_each { length parts ≡ length fields.now }
    ensures declares { IfOk result (λ id. Declares types.old types.new
        (object_def definition.now fields.now parts) id) }
    ensures grows { OnOk result (Grows types.old types.new) }
    ensures same { OnErr result (types.new ≡ types.old) }
    ensures memory { IfErr result (λ stop. stop ≡ Stop.Memory) }
{
    table_growth();
    let def = TypeDef::Object {
        name: Bytes::from_slice(alloc, definition.name.as_slice())?,
        at: definition.at,
        args: Items::new(alloc),
        fields: field_copies(alloc, fields)?,
        resource: false,
        parts: Items::new(alloc),
    };
    match add_new(types, def) {
        Ok(id) => {
            types.complete(id, parts);
            Ok(id)
        }
        Err(stop) => Err(stop),
    }
}

fn add_enum(
    alloc: Global,
    types: &mut TypeTable,
    definition: &Definition,
    members: &[Bytes],
) -> Result<TypeId, Stop>
    ensures declares { IfOk result (λ id. Declares types.old types.new
        (enum_def definition.now members.now) id) }
    ensures grows { OnOk result (Grows types.old types.new) }
    ensures same { OnErr result (types.new ≡ types.old) }
    ensures memory { IfErr result (λ stop. stop ≡ Stop.Memory) }
{
    let def = TypeDef::Enum {
        name: Bytes::from_slice(alloc, definition.name.as_slice())?,
        at: definition.at,
        members: copies_of(alloc, members)?,
    };
    add_new(types, def)
}

fn add_distinct(
    alloc: Global,
    types: &mut TypeTable,
    definition: &Definition,
    base: TypeId,
) -> Result<TypeId, Stop>
    requires { base < length types.old }
    ensures declares { IfOk result (λ id. Declares types.old types.new
        (distinct_def definition.now base) id) }
    ensures grows { OnOk result (Grows types.old types.new) }
    ensures same { OnErr result (types.new ≡ types.old) }
    ensures memory { IfErr result (λ stop. stop ≡ Stop.Memory) }
{
    let def = TypeDef::Distinct {
        name: Bytes::from_slice(alloc, definition.name.as_slice())?,
        at: definition.at,
        base,
    };
    add_new(types, def)
}

// A distinct type over the type of a node.
fn add_base(
    alloc: Global,
    types: &mut TypeTable,
    definition: &Definition,
    ids: &[TypeId],
    base: u32,
) -> Result<TypeId, Stop>
    requires below { AllBelow (length types.old) ids.now }
    requires base { base < length ids.now }
    ensures declares { IfOk result (λ id. (base_id : ℕ) × (slice_get ids.now base ≡ Some base_id)
        × Declares types.old types.new (distinct_def definition.now base_id) id) }
    ensures grows { OnOk result (Grows types.old types.new) }
    ensures same { OnErr result (types.new ≡ types.old) }
    ensures memory { IfErr result (λ stop. stop ≡ Stop.Memory) }
{
    let base = id_at(ids, base as usize);
    add_distinct(alloc, types, definition, base)
}

// An object, and the types of the nodes of its fields.
fn add_fields(
    alloc: Global,
    types: &mut TypeTable,
    definition: &Definition,
    ids: &[TypeId],
    fields: &[FieldName],
    nodes: &[u32],
) -> Result<TypeId, Stop>
    requires below { AllBelow (length types.old) ids.now }
    requires nodes { AllBelow (length ids.now) nodes.now }
    requires one_each { length fields.now ≡ length nodes.now }
    ensures declares { IfOk result (λ id. (parts : List ℕ)
        × ((ts : List Ty) → map (type_at ts) parts
        ≡ map (type_at (map (type_at ts) ids.now)) nodes.now)
        × (length parts ≡ length fields.now) × AllBelow (length types.old) parts
        × Declares types.old types.new (object_def definition.now fields.now parts) id) }
    ensures grows { OnOk result (Grows types.old types.new) }
    ensures same { OnErr result (types.new ≡ types.old) }
    ensures memory { IfErr result (λ stop. stop ≡ Stop.Memory) }
{
    let parts = numbers_at(alloc, ids, nodes)?;
    add_object(alloc, types, definition, fields, parts)
}

// The type of a definition, by the types of its nodes.
fn add_meant(
    alloc: Global,
    types: &mut TypeTable,
    definition: &Definition,
    ids: &[TypeId],
) -> Result<TypeId, Stop>
    requires below { AllBelow (length types.old) ids.now }
    requires meaning { MeaningWithin (length ids.now) definition.now.meaning }
    requires one_each { OneEach definition.now.meaning }
    ensures adds { IfOk result (λ id. AddsMeant types.old types.new ids.now definition.now
        definition.now.meaning id) }
    ensures grows { OnOk result (Grows types.old types.new) }
    ensures same { OnErr result (types.new ≡ types.old) }
    ensures memory { IfErr result (λ stop. stop ≡ Stop.Memory) }
{
    table_growth();
    match &definition.meaning {
        Meaning::Object {
            fields,
            types: nodes,
        } => add_fields(
            alloc,
            types,
            definition,
            ids,
            fields.as_slice(),
            nodes.as_slice(),
        ),
        Meaning::Enum(members) => add_enum(alloc, types, definition, members.as_slice()),
        Meaning::Distinct(base) => add_base(alloc, types, definition, ids, *base),
        Meaning::Alias(of) => Ok(id_at(ids, *of as usize)),
    }
}

/// The type of a definition in which all types of the section are known. It is added to the table
/// with what is said of it, but for that of an alias.
pub fn add_known(
    alloc: Global,
    types: &mut TypeTable,
    known: &[Option<TypeId>],
    definition: &Definition,
) -> Result<TypeId, Stop>
    requires ordered { InOrder definition.now }
    requires sound { IsSound (length types.old) (length known.now) definition.now }
    requires named { definition_mark (map is_unknown known.now) definition.now ≡ false }
    requires known { KnownBelow (length types.old) known.now }
    ensures kept { Kept types.old types.new }
    ensures becomes { IfOk result (λ id. Becomes types.old types.new known.now definition.now id) }
    ensures typed { IfOk result (λ id. (ts : List Ty) (facts : Facts) → Under types.new ts facts
        → HasType definition.now definition.now.meaning (type_at ts id)) }
    ensures memory { IfErr result (λ stop. stop ≡ Stop.Memory) }
{
    table_growth();
    let ids = types_of(alloc, types, known, definition.nodes.as_slice())?;
    let _before = types.count();
    match add_meant(alloc, types, definition, ids.as_slice()) {
        Ok(id) => {
            let _behind = types.count();
            Ok(id)
        }
        Err(stop) => Err(stop),
    }
}
