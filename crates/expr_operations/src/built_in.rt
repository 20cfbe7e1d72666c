// The operations that are called by name and that no source declares, as tables.
ghost use Rattle.std.specs.Prelude.{◌≡◌, ◌<◌, ℕ, List, [], ◌∷◌, option_map, IfSome};
ghost use Rattle.nim_types.specs.Types.{Ty};
ghost use Rattle.nim_types.specs.Table.{type_at, meant, IsBelow, IsWithin};
ghost use Rattle.nim_program.specs.declared.expr.Node.{Node};
ghost use Rattle.expr_rules.specs.Answers.{Valued, Operand, value, a_type, the_input, only_if};
ghost use Rattle.expr_rules.specs.Builtins.{operations_named, first_row};
ghost use Rattle.expr_rules.specs.Builtins.{stepped_by, joined_to, elements_of, resized_by, popped};
ghost use Rattle.expr_operations.specs.ViewOperations.{rows_of, rows_in, AreKinds, KindsBelow};
ghost use Rattle.expr_operations.specs.ViewOperations.{done_by, type_rows};
ghost use Rattle.expr_operations.specs.ViewOperations.{second_rows, goes_of, taken_types};
ghost use Rattle.expr_operations.specs.ViewOperations.{TakenWithin, pop_makes, popped_type};
ghost use Rattle.expr_operations.specs.ViewOperations.{reading_rows, quit_rows};
ghost use Rattle.expr_operations.specs.declared.built_in.BuiltIn.TheVariants.{Add as AddName};

use expr_parts::kinds::{has_length, is_int, is_ordinal, is_shown, is_text};
use expr_parts::names::is_word;
use expr_parts::scope::Kinds;
use nim_program::{Measure, Operation, Operator};
use nim_types::{TypeDef, TypeId};

/// An operation, by its name.
#[derive(Clone, Copy)]
pub enum BuiltIn {
    Len,
    High,
    Low,
    Ord,
    Chr,
    Dollar,
    Inc,
    Dec,
    Add,
    SetLen,
    Pop,
    Default,
    Move,
    Swap,
    Quit,
    ReadLine,
}

/// The operation of a name in normal form.
pub fn operation_named(name: &[u8]) -> Option<BuiltIn>
    ensures { operations_named name.now ≡ rows_in result }
{
    if is_word(name, b"len") {
        Some(BuiltIn::Len)
    } else if is_word(name, b"high") {
        Some(BuiltIn::High)
    } else if is_word(name, b"low") {
        Some(BuiltIn::Low)
    } else if is_word(name, b"ord") {
        Some(BuiltIn::Ord)
    } else if is_word(name, b"chr") {
        Some(BuiltIn::Chr)
    } else if is_word(name, b"$") {
        Some(BuiltIn::Dollar)
    } else if is_word(name, b"inc") {
        Some(BuiltIn::Inc)
    } else if is_word(name, b"dec") {
        Some(BuiltIn::Dec)
    } else if is_word(name, b"add") {
        Some(BuiltIn::Add)
    } else if is_word(name, b"setlen") {
        Some(BuiltIn::SetLen)
    } else if is_word(name, b"pop") {
        Some(BuiltIn::Pop)
    } else if is_word(name, b"default") {
        Some(BuiltIn::Default)
    } else if is_word(name, b"move") {
        Some(BuiltIn::Move)
    } else if is_word(name, b"swap") {
        Some(BuiltIn::Swap)
    } else if is_word(name, b"quit") {
        Some(BuiltIn::Quit)
    } else if is_word(name, b"readline") {
        Some(BuiltIn::ReadLine)
    } else {
        None
    }
}

/// How an operand is handed on: its value; its path, which is read in place; or its path, which is
/// written.
#[derive(Clone, Copy)]
pub enum Hand {
    AsValue,
    InPlace,
    ToWrite,
}

/// What an operation makes of one operand: the node of a row of the table, with the type of its
/// value.
#[derive(Clone, Copy)]
pub struct Makes {
    pub hand: Hand,
    pub ty: Option<TypeId>,
    pub operation: Operation,
}

fn made_if(holds: bool, hand: Hand, ty: Option<TypeId>, operation: Operation) -> Option<Makes>
    ensures { result ≡ only_if holds (record { hand = hand; ty = ty; operation = operation }) }
{
    if holds {
        Some(Makes {
            hand,
            ty,
            operation,
        })
    } else {
        None
    }
}

// The type of the last element, which is taken away.
fn popped(def: &TypeDef) -> Option<TypeId>
    ensures types { (ts : List Ty) → popped (meant ts def.now) ≡ popped_type ts result }
    ensures within { (n : ℕ) → IsWithin n def.now → IsBelow n result }
{
    match def {
        TypeDef::Seq(of) => Some(*of),
        _ => None,
    }
}

fn pop_of(of: Option<TypeId>) -> Option<Makes>
    ensures { result ≡ pop_makes of }
{
    match of {
        Some(ty) => Some(Makes {
            hand: Hand::ToWrite,
            ty: Some(ty),
            operation: Operation::Pop,
        }),
        None => None,
    }
}

/// What an operation makes of a value of a type.
pub fn makes_of_value(kinds: Kinds, operation: BuiltIn, def: &TypeDef, ty: TypeId) -> Option<Makes>
    ensures makes { (ts : List Ty) (v : Valued) → AreKinds ts kinds → v.of ≡ meant ts def.now
        → v.of ≡ type_at ts ty → (n : Node) → first_row n (rows_of operation) (value v ∷ [])
        ≡ option_map (done_by ts n v) result }
    ensures within { (n : ℕ) → KindsBelow n kinds → IsWithin n def.now → ty < n
        → IfSome result (λ m. IsBelow n m.ty) }
{
    let int = Some(kinds.int);
    match operation {
        BuiltIn::Len => made_if(
            has_length(def),
            Hand::InPlace,
            int,
            Operation::Measure(Measure::Len),
        ),
        BuiltIn::High => made_if(
            has_length(def),
            Hand::InPlace,
            int,
            Operation::Measure(Measure::High),
        ),
        BuiltIn::Ord => made_if(is_ordinal(def), Hand::AsValue, int, Operation::Convert),
        BuiltIn::Chr => made_if(
            is_int(def),
            Hand::AsValue,
            Some(kinds.char),
            Operation::Convert,
        ),
        BuiltIn::Dollar => made_if(
            is_shown(def),
            Hand::AsValue,
            Some(kinds.text),
            Operation::Show,
        ),
        BuiltIn::Quit => made_if(is_int(def), Hand::AsValue, None, Operation::Quit),
        BuiltIn::Inc => made_if(
            is_int(def),
            Hand::ToWrite,
            None,
            Operation::Update(Operator::Add),
        ),
        BuiltIn::Dec => made_if(
            is_int(def),
            Hand::ToWrite,
            None,
            Operation::Update(Operator::Subtract),
        ),
        BuiltIn::Move => Some(Makes {
            hand: Hand::ToWrite,
            ty: Some(ty),
            operation: Operation::Move,
        }),
        BuiltIn::Pop => pop_of(popped(def)),
        _ => None,
    }
}

/// What an operation makes of a type.
#[derive(Clone, Copy)]
pub enum TypeNode {
    /// The least int, of ints.
    Least,
    /// The greatest int, of ints.
    Greatest,
    Default,
}

/// What an operation makes of a type.
pub fn makes_of_type(operation: BuiltIn) -> Option<TypeNode>
    ensures { (n : Node) (t : Ty) → first_row n (rows_of operation) (a_type t ∷ [])
        ≡ first_row n (type_rows result) (a_type t ∷ []) }
{
    match operation {
        BuiltIn::High => Some(TypeNode::Greatest),
        BuiltIn::Low => Some(TypeNode::Least),
        BuiltIn::Default => Some(TypeNode::Default),
        _ => None,
    }
}

/// Which values go with a path of a type.
#[derive(Clone, Copy)]
pub enum Goes {
    /// Ints, with an int.
    Stepped,
    /// What a text is made longer by.
    Joined,
    /// The elements of a sequence.
    Elements,
    /// Ints, with what has a length that can be set.
    Resized,
}

/// What is made of a path and a value that goes with it.
#[derive(Clone, Copy)]
pub struct Join {
    pub goes: Goes,
    pub operation: Operation,
}

/// What an operation takes behind a path.
#[derive(Clone, Copy)]
pub enum Second {
    /// A value of a type that goes with the path's.
    Value(Join),
    /// Another path of the type.
    Place,
    Nothing,
}

// What `add` takes behind a path of a type.
fn added_to(def: &TypeDef) -> Second
    ensures { (ts : List Ty) (n : Node) (v : Valued) (o : Operand) → v.of ≡ meant ts def.now
        → first_row n (rows_of AddName) (value v ∷ o ∷ [])
        ≡ first_row n (second_rows result) (value v ∷ o ∷ []) }
{
    if is_text(def) {
        Second::Value(Join {
            goes: Goes::Joined,
            operation: Operation::Append,
        })
    } else {
        Second::Value(Join {
            goes: Goes::Elements,
            operation: Operation::Add,
        })
    }
}

/// What an operation takes behind a path of a type.
pub fn second_of(operation: BuiltIn, def: &TypeDef) -> Second
    ensures { (ts : List Ty) (n : Node) (v : Valued) (o : Operand) → v.of ≡ meant ts def.now
        → first_row n (rows_of operation) (value v ∷ o ∷ [])
        ≡ first_row n (second_rows result) (value v ∷ o ∷ []) }
{
    match operation {
        BuiltIn::Inc => Second::Value(Join {
            goes: Goes::Stepped,
            operation: Operation::Update(Operator::Add),
        }),
        BuiltIn::Dec => Second::Value(Join {
            goes: Goes::Stepped,
            operation: Operation::Update(Operator::Subtract),
        }),
        BuiltIn::Add => added_to(def),
        BuiltIn::SetLen => Second::Value(Join {
            goes: Goes::Resized,
            operation: Operation::SetLength,
        }),
        BuiltIn::Swap => Second::Place,
        _ => Second::Nothing,
    }
}

/// The types of values that go with that of a path.
#[derive(Clone, Copy)]
pub enum Taken {
    Nothing,
    One(TypeId),
    Either(TypeId, TypeId),
}

fn stepped_by(kinds: Kinds, def: &TypeDef) -> Taken
    ensures types { (ts : List Ty) → AreKinds ts kinds
        → stepped_by (meant ts def.now) ≡ taken_types ts result }
    ensures within { (n : ℕ) → KindsBelow n kinds → TakenWithin n result }
{
    match def {
        TypeDef::Int => Taken::One(kinds.int),
        _ => Taken::Nothing,
    }
}

fn joined_to(kinds: Kinds, def: &TypeDef) -> Taken
    ensures types { (ts : List Ty) → AreKinds ts kinds
        → joined_to (meant ts def.now) ≡ taken_types ts result }
    ensures within { (n : ℕ) → KindsBelow n kinds → TakenWithin n result }
{
    match def {
        TypeDef::Text => Taken::Either(kinds.text, kinds.char),
        _ => Taken::Nothing,
    }
}

fn elements_of(def: &TypeDef) -> Taken
    ensures types { (ts : List Ty) → elements_of (meant ts def.now) ≡ taken_types ts result }
    ensures within { (n : ℕ) → IsWithin n def.now → TakenWithin n result }
{
    match def {
        TypeDef::Seq(of) => Taken::One(*of),
        _ => Taken::Nothing,
    }
}

fn resized_by(kinds: Kinds, def: &TypeDef) -> Taken
    ensures types { (ts : List Ty) → AreKinds ts kinds
        → resized_by (meant ts def.now) ≡ taken_types ts result }
    ensures within { (n : ℕ) → KindsBelow n kinds → TakenWithin n result }
{
    match def {
        TypeDef::Text | TypeDef::Seq(_) => Taken::One(kinds.int),
        _ => Taken::Nothing,
    }
}

/// The types of values that go with a path of a type.
pub fn taken_by(kinds: Kinds, goes: Goes, def: &TypeDef) -> Taken
    ensures types { (ts : List Ty) → AreKinds ts kinds
        → goes_of goes (meant ts def.now) ≡ taken_types ts result }
    ensures within { (n : ℕ) → KindsBelow n kinds → IsWithin n def.now → TakenWithin n result }
{
    match goes {
        Goes::Stepped => stepped_by(kinds, def),
        Goes::Joined => joined_to(kinds, def),
        Goes::Elements => elements_of(def),
        Goes::Resized => resized_by(kinds, def),
    }
}

/// Whether it reads from standard input.
pub fn is_reading(operation: BuiltIn) -> bool
    ensures { (n : Node) (os : List Operand) → first_row n (rows_of operation) (the_input ∷ os)
        ≡ first_row n (reading_rows result) (the_input ∷ os) }
{
    matches!(operation, BuiltIn::ReadLine)
}

/// Whether it takes no operand.
pub fn takes_nothing(operation: BuiltIn) -> bool
    ensures { (n : Node) → first_row n (rows_of operation) [] ≡ first_row n (quit_rows result) [] }
{
    matches!(operation, BuiltIn::Quit)
}
