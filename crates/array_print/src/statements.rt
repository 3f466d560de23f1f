//! Statements to text.

ghost use Rattle.std.specs.Prelude.{◌++◌, OnOk, codes, false};
ghost use Rattle.array_tree.specs.Trees.{expression_of, statement_of, sequence_of, sequences_of};
ghost use Rattle.array_print.specs.Texts.{expression_text, target_text, range_text, dealt_text, wider, body_text, else_text, branch_text, barrier_text, statement_text, sequence_text, branches_text, phases_text};
ghost use Rattle.array_print.specs.Printers.{Adds};

use crate::printer::Printer;
use array_tree::{Block, Blocks, Expr, Name, Stmt};
use std::alloc::AllocError;

impl Printer {
    /// Adds the statements of a block, one after another.
    #[cycle(print)]
    pub(crate) fn statements(&mut self, block: &Block) -> Result<(), AllocError>
        ensures { OnOk result (Adds self.old
            (sequence_text self.old.margin.items (sequence_of block.now)) self.new) }
    {
        for statement in &block.statements {
            self.statement(statement)?;
        }
        Ok(())
    }

    #[cycle(print)]
    fn statement(&mut self, statement: &Stmt) -> Result<(), AllocError>
        ensures { OnOk result (Adds self.old
            (statement_text self.old.margin.items (statement_of statement.now)) self.new) }
    {
        match statement {
            Stmt::Assign {
                array,
                index,
                value,
                ..
            } => self.assignment(array, index, value),
            Stmt::For {
                var,
                low,
                high,
                body,
                ..
            } => self.for_loop(var, *low, *high, body),
            Stmt::If {
                cond,
                then_block,
                else_block,
                ..
            } => {
                self.begin(b"if ".as_slice())?;
                self.expression(cond)?;
                self.block(then_block)?;
                self.else_block(else_block)?;
                self.add(b"\n".as_slice())
            }
            Stmt::Par { branches, .. } => self.par(branches),
            Stmt::Team {
                var,
                low,
                high,
                members,
                phases,
                ..
            } => self.team(var, *low, *high, *members, phases),
        }
    }

    fn assignment(&mut self, array: &Name, index: &Expr, value: &Expr) -> Result<(), AllocError>
        ensures { OnOk result (Adds self.old (self.old.margin.items
            ++ target_text array.now (expression_of index.now)
            ++ expression_text (expression_of value.now) ++ codes ";\n") self.new) }
    {
        self.begin(array.as_bytes())?;
        self.add(b"[".as_slice())?;
        self.expression(index)?;
        self.add(b"] = ".as_slice())?;
        self.expression(value)?;
        self.add(b";\n".as_slice())
    }

    #[cycle(print)]
    fn for_loop(&mut self, var: &Name, low: i64, high: i64, body: &Block) -> Result<(), AllocError>
        ensures { OnOk result (Adds self.old (self.old.margin.items ++ codes "for "
            ++ range_text var.now low high
            ++ body_text self.old.margin.items (sequence_of body.now) ++ codes "\n") self.new) }
    {
        self.begin(b"for ".as_slice())?;
        self.range(var, low, high)?;
        self.block(body)?;
        self.add(b"\n".as_slice())
    }

    // Adds a loop variable with its bounds.
    fn range(&mut self, var: &Name, low: i64, high: i64) -> Result<(), AllocError>
        ensures { OnOk result (Adds self.old (range_text var.now low high) self.new) }
    {
        self.add(var.as_bytes())?;
        self.add(b" in ".as_slice())?;
        self.number(low)?;
        self.add(b"..".as_slice())?;
        self.number(high)
    }

    // Adds a loop variable with its bounds, and the number of members that share the iterations.
    fn dealt(&mut self, var: &Name, low: i64, high: i64, members: i64) -> Result<(), AllocError>
        ensures { OnOk result (Adds self.old (dealt_text var.now low high members) self.new) }
    {
        self.range(var, low, high)?;
        self.add(b" by ".as_slice())?;
        self.number(members)
    }

    // Adds the second side of an `if`, where it has statements.
    #[cycle(print)]
    fn else_block(&mut self, block: &Block) -> Result<(), AllocError>
        ensures { OnOk result (Adds self.old
            (else_text (sequence_of block.now)
            (body_text self.old.margin.items (sequence_of block.now))) self.new) }
    {
        if block.statements.is_empty() {
            return Ok(());
        }
        self.add(b" else".as_slice())?;
        self.block(block)
    }

    #[cycle(print)]
    fn par(&mut self, branches: &Blocks) -> Result<(), AllocError>
        ensures { OnOk result (Adds self.old (self.old.margin.items ++ codes "par {\n"
            ++ branches_text (wider self.old.margin.items) (sequences_of branches.now)
            ++ self.old.margin.items ++ codes "}\n") self.new) }
    {
        self.begin(b"par {\n".as_slice())?;
        let outer = self.widen()?;
        self.branches(branches)?;
        self.margin = outer;
        self.begin(b"}\n".as_slice())
    }

    #[cycle(print)]
    fn branches(&mut self, branches: &Blocks) -> Result<(), AllocError>
        ensures { OnOk result (Adds self.old
            (branches_text self.old.margin.items (sequences_of branches.now)) self.new) }
    {
        for branch in &branches.blocks {
            self.branch(branch)?;
        }
        Ok(())
    }

    // Adds a branch, a block on lines of its own.
    #[cycle(print)]
    fn branch(&mut self, branch: &Block) -> Result<(), AllocError>
        ensures { OnOk result (Adds self.old (branch_text self.old.margin.items
            (sequence_text (wider self.old.margin.items) (sequence_of branch.now))) self.new) }
    {
        self.begin(b"{\n".as_slice())?;
        let outer = self.widen()?;
        self.statements(branch)?;
        self.margin = outer;
        self.begin(b"}\n".as_slice())
    }

    #[cycle(print)]
    fn team(
        &mut self,
        var: &Name,
        low: i64,
        high: i64,
        members: i64,
        phases: &Blocks,
    ) -> Result<(), AllocError>
        ensures { OnOk result (Adds self.old (self.old.margin.items ++ codes "team "
            ++ dealt_text var.now low high members
            ++ phases_text false self.old.margin.items (sequences_of phases.now)
            ++ codes "\n") self.new) }
    {
        self.begin(b"team ".as_slice())?;
        self.dealt(var, low, high, members)?;
        self.phases(phases)?;
        self.add(b"\n".as_slice())
    }

    // Adds the phases of a `team`.
    #[cycle(print)]
    fn phases(&mut self, phases: &Blocks) -> Result<(), AllocError>
        ensures { OnOk result (Adds self.old
            (phases_text false self.old.margin.items (sequences_of phases.now)) self.new) }
    {
        for (i, phase) in phases.blocks.iter().enumerate() {
            self.phase(i > 0, phase)?;
        }
        Ok(())
    }

    // Adds a phase, behind a barrier or not.
    #[cycle(print)]
    fn phase(&mut self, is_later: bool, phase: &Block) -> Result<(), AllocError>
        ensures { OnOk result (Adds self.old (barrier_text is_later
            ++ body_text self.old.margin.items (sequence_of phase.now)) self.new) }
    {
        if is_later {
            self.add(b" barrier".as_slice())?;
        }
        self.block(phase)
    }

    // Adds a block, whose statements stand in a wider margin.
    #[cycle(print)]
    fn block(&mut self, block: &Block) -> Result<(), AllocError>
        ensures { OnOk result (Adds self.old
            (body_text self.old.margin.items (sequence_of block.now)) self.new) }
    {
        self.add(b" {\n".as_slice())?;
        let outer = self.widen()?;
        self.statements(block)?;
        self.margin = outer;
        self.begin(b"}".as_slice())
    }
}
