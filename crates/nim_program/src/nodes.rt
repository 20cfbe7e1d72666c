// The nodes of a body: how many there are, the greatest of their numbers, and where one stands.
ghost use Rattle.std.specs.Prelude.{◌≡◌, ◌≤◌, length};
ghost use Rattle.nim_types.specs.Table.{types_in};
ghost use Rattle.nim_program.specs.View.{stmts_of};
ghost use Rattle.nim_program.specs.Folds.{capped, greatest, node_numbers, block_nodes, own_node, number_if};
ghost use Rattle.nim_program.specs.Folds.{greatest_of, total_of, firsts, and_then, if_number, node_with};
ghost use Rattle.nim_program.specs.declared.nodes.TheConstants.{MOST_NODES};

use crate::counts::{Count, count_block};
use crate::expr::{Expr, Node, Path};
use crate::finds::{Find, find_in_block};
use crate::fold::Fold;
use crate::fold_stmts::total_of;
use crate::stmt::{PlaceDecl, Stmt};
use nim_types::TypeTable;

/// Nodes have numbers below it.
pub const MOST_NODES: u32 = 1_073_741_824;

fn one_if(node: Option<Node>) -> u32
    ensures counted { result ≡ length (number_if node) }
    ensures small { result ≤ 1 }
{
    match node {
        None => 0,
        Some(_) => 1,
    }
}

fn number_or(node: Option<Node>) -> u32
    ensures { result ≡ greatest_of (number_if node) }
{
    match node {
        None => 0,
        Some(node) => node.number,
    }
}

// Counts nodes.
#[derive(Drop)]
struct Nodes<'a> {
    types: &'a TypeTable,
}

impl<'a> Count for Nodes<'a> {
    ghost most = { λ s. MOST_NODES };

    ghost types = { λ s. types_in s.types.now };

    ghost own = { λ s seen. length (node_numbers seen) };

    fn most(&self) -> u32 {
        MOST_NODES
    }

    fn of_expr(&self, expr: &Expr) -> u32 {
        match expr {
            Expr::Read { .. } => 0,
            _ => 1,
        }
    }

    fn of_path(&self, path: &Path, _read: bool) -> u32 {
        one_if(path.own_node())
    }

    fn of_stmt(&self, stmt: &Stmt) -> u32 {
        match stmt {
            Stmt::Do { .. } => 0,
            _ => 1,
        }
    }

    fn of_handler(&self, _name: &Option<PlaceDecl>) -> u32 {
        0
    }
}

/// How many nodes a block has, as far as it matters.
pub fn node_count(types: &TypeTable, block: &Vec<Stmt>) -> u32
    ensures { result ≡ capped MOST_NODES
        (length (block_nodes (stmts_of (types_in types.now) block.now.items))) }
{
    count_block(&Nodes { types }, block)
}

// Finds the greatest number.
#[derive(Drop)]
struct Greatest<'a> {
    types: &'a TypeTable,
}

impl<'a> Fold for Greatest<'a> {
    type Value = u32;

    ghost types = { λ s. types_in s.types.now };

    ghost sum = { λ s. greatest };

    ghost own = { λ s. own_node };

    fn none(&self) -> u32 {
        0
    }

    fn plus(&self, first: u32, second: u32) -> u32 {
        first.max(second)
    }

    fn of_expr(&self, expr: &Expr) -> u32 {
        match expr {
            Expr::Read { .. } => 0,
            _ => expr.node().number,
        }
    }

    fn of_path(&self, path: &Path, _read: bool) -> u32 {
        number_or(path.own_node())
    }

    fn of_stmt(&self, stmt: &Stmt) -> u32 {
        match stmt {
            Stmt::Do { .. } => 0,
            _ => stmt.node().number,
        }
    }

    fn of_handler(&self, _name: &Option<PlaceDecl>) -> u32 {
        0
    }
}

/// The greatest number of a block's nodes.
pub fn greatest_node(types: &TypeTable, block: &Vec<Stmt>) -> u32
    ensures { result ≡ greatest_of (block_nodes (stmts_of (types_in types.now) block.now.items)) }
{
    total_of(&Greatest { types }, block)
}

// Finds the node with a number.
#[derive(Drop)]
struct Numbered<'a> {
    types: &'a TypeTable,
    number: u32,
}

impl<'a> Numbered<'a> {
    fn find(&self, node: Option<Node>) -> Option<Node>
        ensures { result ≡ and_then node (if_number self.now.number) }
    {
        let node = node?;
        if node.number == self.number {
            Some(node)
        } else {
            None
        }
    }
}

impl<'a> Find for Numbered<'a> {
    type Found = Node;

    ghost types = { λ s. types_in s.types.now };

    ghost own = { λ s. node_with s.number };

    fn of_expr(&self, expr: &Expr) -> Option<Node> {
        match expr {
            Expr::Read { .. } => None,
            _ => self.find(Some(expr.node())),
        }
    }

    fn of_path(&self, path: &Path, _read: bool) -> Option<Node> {
        self.find(path.own_node())
    }

    fn of_stmt(&self, stmt: &Stmt) -> Option<Node> {
        match stmt {
            Stmt::Do { .. } => None,
            _ => self.find(Some(stmt.node())),
        }
    }

    fn of_handler(&self, _name: &Option<PlaceDecl>) -> Option<Node> {
        None
    }
}

/// The node of a block with a number, which says where it stands.
pub fn find_node(types: &TypeTable, block: &Vec<Stmt>, number: u32) -> Option<Node>
    ensures { result ≡ total_of firsts (node_with number)
        (stmts_of (types_in types.now) block.now.items) }
{
    find_in_block(&Numbered { types, number }, block)
}
