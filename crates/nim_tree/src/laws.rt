// The laws of the trees: the tree of each part that holds a list.
ghost use Rattle.std.specs.Prelude.{◌≡◌, ℕ, List, Some, None, Vec, Box};
ghost use Rattle.std.specs.declared.alloc.Global.{Global};
ghost use Rattle.arc_base.specs.declared.place.Place.{Place};
ghost use Rattle.nim_tree.specs.declared.name.Name.{Name as RustName};
ghost use Rattle.nim_tree.specs.declared.expr.Choice.{Choice as RustChoice};
ghost use Rattle.nim_tree.specs.declared.expr.Expr.{Expr as RustExpr};
ghost use Rattle.nim_tree.specs.declared.expr.Expr.TheVariants as rust_expr;
ghost use Rattle.nim_tree.specs.declared.types.Field.{Field};
ghost use Rattle.nim_tree.specs.declared.types.TypeTree.{TypeTree};
ghost use Rattle.nim_tree.specs.declared.types.TypeTree.TheVariants as rust_type;
ghost use Rattle.nim_tree.specs.declared.stmt.Over.{Over as RustOver};
ghost use Rattle.nim_tree.specs.declared.stmt.ProcHead.{ProcHead as RustHead};
ghost use Rattle.nim_tree.specs.declared.stmt.Branch.{Branch as RustBranch};
ghost use Rattle.nim_tree.specs.declared.stmt.Handler.{Handler as RustHandler};
ghost use Rattle.nim_tree.specs.declared.stmt.Stmt.{Stmt as RustStmt};
ghost use Rattle.nim_tree.specs.declared.stmt.Stmt.TheVariants as rust_stmt;
ghost use Rattle.nim_tree.specs.Terms.{tuple, array, sequence, construct, call, index, if_term, case_term, case_else, term_of, parts_of, choices_of};
ghost use Rattle.nim_tree.specs.Types.{named, tuple_of, written_of, arguments_of, fields_of};
ghost use Rattle.nim_tree.specs.Statements.{branches, selects, repeats, counts, tries, defers, proclaims, statement_of};
ghost use Rattle.nim_tree.specs.Statements.{statements_of, branches_of, handlers_of, course_of, head_of};

/// The trees of expressions with parts or branches.
pub fn expr_trees()
    ensures tupled { (at : Place) (parts : Vec RustExpr Global) → term_of (rust_expr.Tuple at parts) ≡ tuple at (parts_of parts.items) }
    ensures listed { (at : Place) (parts : Vec RustExpr Global) → term_of (rust_expr.Array at parts) ≡ array at (parts_of parts.items) }
    ensures sequenced { (at : Place) (parts : Vec RustExpr Global) → term_of (rust_expr.Sequence at parts) ≡ sequence at (parts_of parts.items) }
    ensures constructed { (at : Place) (text : List ℕ) (parts : Vec RustExpr Global)
        → term_of (rust_expr.Construct at text parts) ≡ construct at text (parts_of parts.items) }
    ensures called { (at : Place) (base : Box RustExpr Global) (parts : Vec RustExpr Global)
        → term_of (rust_expr.Call at base parts) ≡ call at (term_of base.value) (parts_of parts.items) }
    ensures indexed { (at : Place) (base : Box RustExpr Global) (parts : Vec RustExpr Global)
        → term_of (rust_expr.Index at base parts) ≡ index at (term_of base.value) (parts_of parts.items) }
    ensures chosen { (at : Place) (branches : Vec RustChoice Global) (otherwise : Box RustExpr Global)
        → term_of (rust_expr.If at branches otherwise) ≡ if_term at (choices_of branches.items)
        (term_of otherwise.value) }
    ensures selected { (at : Place) (selector : Box RustExpr Global) (branches : Vec RustChoice Global)
        → term_of (rust_expr.Case at selector branches None) ≡ case_term at (term_of selector.value)
        (choices_of branches.items) }
    ensures selected_else { (at : Place) (selector : Box RustExpr Global) (branches : Vec RustChoice Global)
        (otherwise : Box RustExpr Global) → term_of (rust_expr.Case at selector branches (Some otherwise))
        ≡ case_else at (term_of selector.value) (choices_of branches.items) (term_of otherwise.value) }
{}

/// The trees of written types with arguments or fields.
pub fn type_trees()
    ensures named_type { (at : Place) (text : List ℕ) (arguments : Vec TypeTree Global)
        → written_of (rust_type.Named at text arguments) ≡ named at text (arguments_of arguments.items) }
    ensures tuple_type { (at : Place) (inside : Vec Field Global) → written_of (rust_type.Tuple at inside) ≡ tuple_of at (fields_of inside.items) }
{}

/// The trees of statements with blocks.
pub fn statement_trees()
    ensures conditional { (at : Place) (all : Vec RustBranch Global) (otherwise : Vec RustStmt Global)
        → statement_of (rust_stmt.If at all otherwise) ≡ branches at (branches_of all.items)
        (statements_of otherwise.items) }
    ensures selected { (at : Place) (selector : RustExpr) (all : Vec RustBranch Global)
        (otherwise : Vec RustStmt Global) → statement_of (rust_stmt.Case at selector all otherwise)
        ≡ selects at (term_of selector) (branches_of all.items) (statements_of otherwise.items) }
    ensures repeated { (at : Place) (condition : RustExpr) (body : Vec RustStmt Global)
        → statement_of (rust_stmt.While at condition body) ≡ repeats at (term_of condition)
        (statements_of body.items) }
    ensures counted { (at : Place) (variable : RustName) (over : RustOver) (body : Vec RustStmt Global)
        → statement_of (rust_stmt.For at variable over body) ≡ counts at variable (course_of over)
        (statements_of body.items) }
    ensures tried { (at : Place) (body : Vec RustStmt Global) (all : Vec RustHandler Global)
        (finally : Vec RustStmt Global) → statement_of (rust_stmt.Try at body all finally)
        ≡ tries at (statements_of body.items) (handlers_of all.items) (statements_of finally.items) }
    ensures deferred { (at : Place) (body : Vec RustStmt Global) → statement_of (rust_stmt.Defer at body) ≡ defers at (statements_of body.items) }
    ensures proclaimed { (at : Place) (head : RustHead) (body : Vec RustStmt Global)
        → statement_of (rust_stmt.Proc at head body) ≡ proclaims at (head_of head)
        (statements_of body.items) }
{}
