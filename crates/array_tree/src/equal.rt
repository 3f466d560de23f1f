//! `==` of trees: equality of their models.
ghost use Rattle.std.specs.Prelude.{◌≡◌, ◌↔◌, IsTrue};
ghost use Rattle.array_tree.specs.Trees.{expression_of, statement_of, sequence_of, sequences_of, declaration_of, declarations_of, program_of};
ghost use Rattle.array_tree.specs.Equal.{expression_eq, statement_eq, sequence_eq, sequences_eq, declaration_eq, declarations_eq, program_eq};

use crate::tree::{ArrayDecl, Arrays, Block, Blocks, Expr, Program, Stmt};

impl PartialEq for Expr {
    ghost use Rattle.array_tree.specs.Trees.{expression_of};
    ghost use Rattle.array_tree.specs.Equal.{expression_eq};
    ghost use Rattle.array_tree.specs.EqualLaws.{equal_laws, expression_same, expression_refl};

    ghost eq = { λ a b. expression_eq (expression_of a) (expression_of b) };

    ghost laws = { equal_laws expression_of expression_eq expression_same expression_refl };

    fn eq(&self, other: &Expr) -> bool
        ensures tested { result ≡ expression_eq (expression_of self.now) (expression_of other.now) }
        ensures same { IsTrue result ↔ (expression_of self.now ≡ expression_of other.now) }
    {
        same_expression(self, other)
    }
}

impl PartialEq for Stmt {
    ghost use Rattle.array_tree.specs.Trees.{statement_of};
    ghost use Rattle.array_tree.specs.Equal.{statement_eq};
    ghost use Rattle.array_tree.specs.EqualLaws.{equal_laws, statement_same, statement_refl};

    ghost eq = { λ a b. statement_eq (statement_of a) (statement_of b) };

    ghost laws = { equal_laws statement_of statement_eq statement_same statement_refl };

    fn eq(&self, other: &Stmt) -> bool
        ensures tested { result ≡ statement_eq (statement_of self.now) (statement_of other.now) }
        ensures same { IsTrue result ↔ (statement_of self.now ≡ statement_of other.now) }
    {
        same_statement(self, other)
    }
}

impl PartialEq for Block {
    ghost use Rattle.array_tree.specs.Trees.{sequence_of};
    ghost use Rattle.array_tree.specs.Equal.{sequence_eq};
    ghost use Rattle.array_tree.specs.EqualLaws.{equal_laws, sequence_same, sequence_refl};

    ghost eq = { λ a b. sequence_eq (sequence_of a) (sequence_of b) };

    ghost laws = { equal_laws sequence_of sequence_eq sequence_same sequence_refl };

    fn eq(&self, other: &Block) -> bool
        ensures tested { result ≡ sequence_eq (sequence_of self.now) (sequence_of other.now) }
        ensures same { IsTrue result ↔ (sequence_of self.now ≡ sequence_of other.now) }
    {
        same_block(self, other)
    }
}

impl PartialEq for Blocks {
    ghost use Rattle.array_tree.specs.Trees.{sequences_of};
    ghost use Rattle.array_tree.specs.Equal.{sequences_eq};
    ghost use Rattle.array_tree.specs.EqualLaws.{equal_laws, sequences_same, sequences_refl};

    ghost eq = { λ a b. sequences_eq (sequences_of a) (sequences_of b) };

    ghost laws = { equal_laws sequences_of sequences_eq sequences_same sequences_refl };

    fn eq(&self, other: &Blocks) -> bool
        ensures tested { result ≡ sequences_eq (sequences_of self.now) (sequences_of other.now) }
        ensures same { IsTrue result ↔ (sequences_of self.now ≡ sequences_of other.now) }
    {
        same_blocks(self, other)
    }
}

impl PartialEq for ArrayDecl {
    ghost use Rattle.array_tree.specs.Trees.{declaration_of};
    ghost use Rattle.array_tree.specs.Equal.{declaration_eq};
    ghost use Rattle.array_tree.specs.EqualLaws.{equal_laws, declaration_same, declaration_refl};

    ghost eq = { λ a b. declaration_eq (declaration_of a) (declaration_of b) };

    ghost laws = { equal_laws declaration_of declaration_eq declaration_same declaration_refl };

    fn eq(&self, other: &ArrayDecl) -> bool
        ensures tested { result ≡ declaration_eq (declaration_of self.now)
            (declaration_of other.now) }
        ensures same { IsTrue result ↔ (declaration_of self.now ≡ declaration_of other.now) }
    {
        self.line == other.line && self.name == other.name && self.length == other.length
    }
}

impl PartialEq for Arrays {
    ghost use Rattle.array_tree.specs.Trees.{declarations_of};
    ghost use Rattle.array_tree.specs.Equal.{declarations_eq};
    ghost use Rattle.array_tree.specs.EqualLaws.{equal_laws, declarations_same, declarations_refl};

    ghost eq = { λ a b. declarations_eq (declarations_of a) (declarations_of b) };

    ghost laws = { equal_laws declarations_of declarations_eq declarations_same declarations_refl };

    fn eq(&self, other: &Arrays) -> bool
        ensures tested { result ≡ declarations_eq (declarations_of self.now)
            (declarations_of other.now) }
        ensures same { IsTrue result ↔ (declarations_of self.now ≡ declarations_of other.now) }
    {
        self.declarations == other.declarations
    }
}

impl PartialEq for Program {
    ghost use Rattle.array_tree.specs.Trees.{program_of};
    ghost use Rattle.array_tree.specs.Equal.{program_eq};
    ghost use Rattle.array_tree.specs.EqualLaws.{equal_laws, program_same, program_refl};

    ghost eq = { λ a b. program_eq (program_of a) (program_of b) };

    ghost laws = { equal_laws program_of program_eq program_same program_refl };

    fn eq(&self, other: &Program) -> bool
        ensures tested { result ≡ program_eq (program_of self.now) (program_of other.now) }
        ensures same { IsTrue result ↔ (program_of self.now ≡ program_of other.now) }
    {
        self.arrays == other.arrays && self.body == other.body
    }
}

// Equality itself, apart from the impls: these call one another.

fn same_expression(a: &Expr, b: &Expr) -> bool
    ensures { result ≡ expression_eq (expression_of a.now) (expression_of b.now) }
{
    match (a, b) {
        (Expr::Number(a), Expr::Number(b)) => a == b,
        (Expr::Var(a), Expr::Var(b)) => a == b,
        (Expr::Read(a, i), Expr::Read(b, j)) => a == b && same_expression(i, j),
        (Expr::Neg(a), Expr::Neg(b)) => same_expression(a, b),
        (Expr::Binary(o, a, b), Expr::Binary(p, c, d)) => {
            o == p && same_expression(a, c) && same_expression(b, d)
        }
        _ => false,
    }
}

#[cycle(equal)]
fn same_statement(a: &Stmt, b: &Stmt) -> bool
    ensures { result ≡ statement_eq (statement_of a.now) (statement_of b.now) }
{
    match (a, b) {
        (
            Stmt::Assign {
                line,
                array,
                index,
                value,
            },
            Stmt::Assign {
                line: l,
                array: a,
                index: i,
                value: v,
            },
        ) => line == l && array == a && same_expression(index, i) && same_expression(value, v),
        (
            Stmt::For {
                line,
                var,
                low,
                high,
                body,
            },
            Stmt::For {
                line: l,
                var: v,
                low: m,
                high: n,
                body: b,
            },
        ) => line == l && var == v && low == m && high == n && same_block(body, b),
        (
            Stmt::If {
                line,
                cond,
                then_block,
                else_block,
            },
            Stmt::If {
                line: l,
                cond: c,
                then_block: t,
                else_block: e,
            },
        ) => {
            line == l
                && same_expression(cond, c)
                && same_block(then_block, t)
                && same_block(else_block, e)
        }
        (
            Stmt::Par { line, branches },
            Stmt::Par {
                line: l,
                branches: b,
            },
        ) => { line == l && same_blocks(branches, b) }
        (
            Stmt::Team {
                line,
                var,
                low,
                high,
                members,
                phases,
            },
            Stmt::Team {
                line: l,
                var: v,
                low: m,
                high: n,
                members: k,
                phases: p,
            },
        ) => {
            line == l && var == v && low == m && high == n && members == k && same_blocks(phases, p)
        }
        _ => false,
    }
}

#[cycle(equal)]
fn same_block(a: &Block, b: &Block) -> bool
    ensures { result ≡ sequence_eq (sequence_of a.now) (sequence_of b.now) }
{
    if a.statements.len() != b.statements.len() {
        return false;
    }
    for (i, statement) in a.statements.iter().enumerate() {
        if !same_statement(statement, &b.statements[i]) {
            return false;
        }
    }
    true
}

#[cycle(equal)]
fn same_blocks(a: &Blocks, b: &Blocks) -> bool
    ensures { result ≡ sequences_eq (sequences_of a.now) (sequences_of b.now) }
{
    if a.blocks.len() != b.blocks.len() {
        return false;
    }
    for (i, block) in a.blocks.iter().enumerate() {
        if !same_block(block, &b.blocks[i]) {
            return false;
        }
    }
    true
}
