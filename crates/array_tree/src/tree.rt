//! Programs, statements and expressions.
use crate::name::Name;

/// A binary operator.
#[derive(Clone, Copy, PartialEq, Eq, Debug, Drop)]
pub enum Op {
    Add,
    Sub,
    Mul,
    Div,
    Rem,
    Less,
    Greater,
    LessEq,
    GreaterEq,
    Equal,
    NotEqual,
}

/// An expression. Its value is a signed number of 64 bits.
#[derive(Debug, Drop)]
pub enum Expr {
    /// A literal, not negative.
    Number(i64),
    /// The value of a loop variable.
    Var(Name),
    /// The cell of an array at an index.
    Read(Name, Box<Expr>),
    /// The minus sign.
    Neg(Box<Expr>),
    Binary(Op, Box<Expr>, Box<Expr>),
}

/// Statements one after another.
#[derive(Debug, Drop)]
#[cycle(tree)]
pub struct Block {
    pub statements: Vec<Stmt>,
}

/// A list of blocks: the branches of a `par`, or the phases of a `team`.
#[derive(Debug, Drop)]
#[cycle(tree)]
pub struct Blocks {
    pub blocks: Vec<Block>,
}

/// A statement. Its line, counted from 1, is that of its first token.
#[derive(Debug, Drop)]
#[cycle(tree)]
pub enum Stmt {
    /// Writes a cell of an array.
    Assign {
        line: u32,
        array: Name,
        index: Expr,
        value: Expr,
    },
    /// Runs the body for each number from `low` to before `high`.
    For {
        line: u32,
        var: Name,
        low: i64,
        high: i64,
        body: Block,
    },
    /// Runs one side; an absent `else` is an empty block.
    If {
        line: u32,
        cond: Expr,
        then_block: Block,
        else_block: Block,
    },
    /// Branches that may run in parallel.
    Par {
        line: u32,
        branches: Blocks,
    },
    /// A loop whose iterations its members share, phase after phase.
    Team {
        line: u32,
        var: Name,
        low: i64,
        high: i64,
        members: i64,
        phases: Blocks,
    },
}

/// The declaration of an array of so many cells.
#[derive(Debug, Drop)]
pub struct ArrayDecl {
    pub line: u32,
    pub name: Name,
    pub length: i64,
}

/// Arrays in the order of their declarations.
#[derive(Debug, Drop)]
pub struct Arrays {
    pub declarations: Vec<ArrayDecl>,
}

/// A program: its arrays, and what it does.
#[derive(Debug, Drop)]
pub struct Program {
    pub arrays: Arrays,
    pub body: Block,
}
