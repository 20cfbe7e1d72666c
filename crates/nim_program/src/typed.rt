// The nodes of expressions, paths and statements, and the types of their values.
ghost use Rattle.std.specs.Prelude.{◌≡◌, Bool, List};
ghost use Rattle.nim_types.specs.Types.{Ty};
ghost use Rattle.nim_program.specs.Program.{Stmts, node_of, node_at, first_node, type_of, type_at};
ghost use Rattle.nim_program.specs.View.{expr_of, path_of, stmt_before, if_type};
ghost use Rattle.nim_program.specs.FoldParts.{seen_at};

use crate::expr::{Expr, Node, Path};
use crate::stmt::Stmt;
use nim_types::TypeId;

impl Expr {
    /// Its node: that of its path, where it is read.
    #[cycle(nodes)]
    pub fn node(&self) -> Node
        ensures { (ts : List Ty) → result ≡ node_of (expr_of ts self.now) }
    {
        match self {
            Expr::Apply { node, .. }
            | Expr::Call { node, .. }
            | Expr::Construct { node, .. }
            | Expr::Constant { node, .. }
            | Expr::Early { node, .. }
            | Expr::If { node, .. }
            | Expr::Case { node, .. } => *node,
            Expr::Read { path } => path.node(),
        }
    }

    /// The type of its value, None where it gives none.
    #[cycle(types)]
    pub fn ty(&self) -> Option<TypeId>
        ensures { (ts : List Ty) → if_type ts result ≡ type_of (expr_of ts self.now) }
    {
        match self {
            Expr::Apply { ty, .. }
            | Expr::Call { ty, .. }
            | Expr::If { ty, .. }
            | Expr::Case { ty, .. } => *ty,
            Expr::Construct { ty, .. } | Expr::Constant { ty, .. } | Expr::Early { ty, .. } => {
                Some(*ty)
            }
            Expr::Read { path } => path.ty(),
        }
    }
}

impl Path {
    /// Its last node.
    #[cycle(nodes)]
    pub fn node(&self) -> Node
        ensures { (ts : List Ty) → result ≡ node_at (path_of ts self.now) }
    {
        match self {
            Path::Variable { node, .. } | Path::Field { node, .. } | Path::Element { node, .. } => {
                *node
            }
            Path::Fresh { value } => value.node(),
            Path::Deref { base, .. } => base.node(),
        }
    }

    /// The node that its last part is: none of a dereference, and of a fresh value none but a
    /// constant's, which is read where it stands.
    pub fn own_node(&self) -> Option<Node>
        ensures { (ts : List Ty) (read : Bool) → result ≡ (seen_at read (path_of ts self.now)).node }
    {
        match self {
            Path::Variable { node, .. } | Path::Field { node, .. } | Path::Element { node, .. } => {
                Some(*node)
            }
            Path::Fresh { value } => match &**value {
                Expr::Constant { node, .. } => Some(*node),
                _ => None,
            },
            Path::Deref { .. } => None,
        }
    }

    /// The type of what stands there.
    #[cycle(types)]
    pub fn ty(&self) -> Option<TypeId>
        ensures { (ts : List Ty) → if_type ts result ≡ type_at (path_of ts self.now) }
    {
        match self {
            Path::Variable { ty, .. }
            | Path::Field { ty, .. }
            | Path::Element { ty, .. }
            | Path::Deref { ty, .. } => Some(*ty),
            Path::Fresh { value } => value.ty(),
        }
    }
}

impl Stmt {
    /// Its node: that of its expression, where it is one.
    pub fn node(&self) -> Node
        ensures { (ts : List Ty) (rest : Stmts)
            → first_node (stmt_before ts self.now rest) ≡ Some result }
    {
        match self {
            Stmt::Do { value } => value.node(),
            Stmt::Idle { node, .. }
            | Stmt::Give { node, .. }
            | Stmt::Leave { node, .. }
            | Stmt::Declare { node, .. }
            | Stmt::If { node, .. }
            | Stmt::Case { node, .. }
            | Stmt::Loop { node, .. }
            | Stmt::Raise { node, .. }
            | Stmt::Try { node, .. }
            | Stmt::Defer { node, .. } => *node,
        }
    }
}
