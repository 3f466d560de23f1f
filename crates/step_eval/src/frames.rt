//! The remaining works of a machine.
ghost use Rattle.std.specs.Prelude.{◌≡◌, ◌+◌, ◌≤◌, ◌∷◌, ◌++◌, [], IfOk, IfErr, OnOk, Some, None, true, false, IsSome};
ghost use Rattle.array_tree.specs.Trees.{statement_of, sequence_of};
ghost use Rattle.array_meaning.specs.Plans.{sites_in, statement_sites_in};
ghost use Rattle.array_eval.specs.Traces.{noted_all};
ghost use Rattle.array_jobs.specs.Works.{branch_of, member_of, work_of};
ghost use Rattle.step_eval.specs.declared.frames.Frame.TheVariants.{Statements, Turns};
ghost use Rattle.step_eval.specs.Rest.{rest_sites};
ghost use Rattle.step_eval.specs.Moves.{begun, begun_writes, begun_sites};
ghost use Rattle.step_eval.specs.Passes.{some_span, statement_pass};
ghost use Rattle.step_eval.specs.Nests.{is_construct};
ghost use Rattle.step_eval.specs.Machines.{construct_of, next_construct};
ghost use Rattle.step_eval.specs.Inside.Frames.{statements_from, works_in, works_of, works_with, vars_in, IsMore, IsStacked, IsStackedWith, IsEnded, AreAll, HasBegun, HaveReported, Went, HasTurned, span_reported, HasPassed, IsBehind, IsConstruct, IsConstructAt, HaveRun, Ran};

use crate::reported::Reported;
use array_eval::{Layout, LoopVar, MarkedStore, Scope, Vars, evaluate, run_assign, run_loop};
use array_jobs::Work;
use array_tree::{Block, Name, Stmt};
use site_counts::{sites_in_block, sites_in_turns};
use std::alloc::{AllocError, Global};

/// A remaining work.
#[derive(Clone, Copy, Debug, Drop)]
pub(crate) enum Frame<'p> {
    /// The statements of a block from number `from` on. After the block come `after` sites of the side that the `if` around it
    /// did not choose.
    Statements {
        block: &'p Block,
        from: usize,
        after: u16,
    },
    /// The turns of a loop from number `next` to before `high`. Its variable is the last that no frame above has.
    Turns {
        body: &'p Block,
        next: i64,
        high: i64,
    },
}

/// The remaining works: the next one, on top, and those below it, the last one first; and the variables of the loops that have
/// begun, the innermost last.
///
/// Why the top is apart: a step that goes on in it changes it in place.
#[derive(Debug, Drop)]
pub(crate) struct Frames<'p> {
    top: Option<Frame<'p>>,
    below: Vec<Frame<'p>>,
    // Each variable borrows its name from the tree.
    vars: Vec<LoopVar<'p>>,
}

impl<'p> Frames<'p> {
    /// All of a work.
    pub(crate) fn new(alloc: Global, work: Work<'p>) -> Result<Frames<'p>, AllocError>
        ensures all { IfOk result (AreAll (work_of work.entry)) }
        ensures stacked { IfOk result IsStacked }
    {
        let mut vars = Vec::new(alloc);
        let top = match work {
            Work::Branch(block) => Frame::Statements {
                block,
                from: 0,
                after: 0,
            },
            Work::Member {
                var,
                low,
                high,
                body,
            } => {
                vars.push(LoopVar {
                    name: var,
                    value: low,
                })?;
                Frame::Turns {
                    body,
                    next: low,
                    high,
                }
            }
        };
        Ok(Frames {
            top: Some(top),
            below: Vec::new(alloc),
            vars,
        })
    }

    /// The next construct, if one is next.
    #[inline(always)]
    pub(crate) fn construct(&self) -> Option<&'p Stmt>
        ensures { IsConstruct result self.now }
    {
        match self.top {
            Some(Frame::Statements { block, from, .. }) => construct_at(block, from),
            Some(Frame::Turns { .. }) | None => None,
        }
    }

    /// The loop variables around the next work.
    pub(crate) fn vars_around(&self, alloc: Global, around: &Vars) -> Result<Vars, AllocError>
        ensures { IfOk result (λ vars. vars ≡ vars_in self.now around.now) }
    {
        let outer = Scope::Kept(around);
        let scope = Scope::Stack {
            vars: &self.vars,
            outer: &outer,
        };
        Vars::of_scope(alloc, &scope)
    }

    /// Begins or ends the next statement or turn, which must be no construct, and returns the sites that the hart has to skip;
    /// `None` if no work remains. Adds the sites that are passed to the next site's number.
    ///
    /// The end of a block and the end of a turn are steps of their own, so no step begins or ends two things.
    #[inline(always)]
    pub(crate) fn go_on(
        &mut self,
        layout: &Layout,
        around: &Vars,
        store: &mut MarkedStore,
        next: &mut u16,
    ) -> Result<Option<Reported>, AllocError>
        requires stacked { IsStacked self.old }
        requires simple { next_construct (works_of self.old around.now) ≡ None }
        requires room { next.old + rest_sites (works_of self.old around.now) ≤ 4096 }
        ensures went { IfOk result
            (λ reported. Went layout.now reported (works_of self.old around.now) store.old next.old
            (works_of self.new around.now) store.new next.new) }
        ensures stacked { IfOk result (λ _. IsStacked self.new) }
        ensures more { IfErr result (λ _. IsMore (works_of self.old around.now)) }
    {
        match self.top {
            None => Ok(None),
            Some(top) => {
                let reported = self.go_on_in(layout, around, store, next, top)?;
                Ok(Some(reported))
            }
        }
    }

    /// Runs the next loop to its end, without steps between its turns, if it comes to no site; otherwise returns false. If no
    /// turn remains, it doesn't count the sites of the body.
    #[inline(always)]
    pub(crate) fn run_through(
        &mut self,
        layout: &Layout,
        around: &Vars,
        store: &mut MarkedStore,
    ) -> bool
        requires { IsStacked self.old }
        ensures ran { Ran layout.now result (works_of self.old around.now) store.old
            (works_of self.new around.now) store.new }
        ensures stacked { IsStacked self.new }
    {
        match self.top {
            Some(Frame::Turns { body, next, high }) if sites_in_turns(next, high, body) == 0 => {
                self.run_turns(layout, around, store, body, next, high);
                true
            }
            _ => false,
        }
    }

    /// Passes the next construct, which others ran.
    pub(crate) fn pass(&mut self)
        requires { IsSome (next_construct (works_of self.old [])) }
        ensures passed { HasPassed self.old self.new }
        ensures stacked { IsStacked self.old → IsStacked self.new }
    {
        if let Some(top) = self.top {
            self.top = Some(past(top));
        }
    }

    // Goes on in the work on top.
    #[inline(always)]
    fn go_on_in(
        &mut self,
        layout: &Layout,
        around: &Vars,
        store: &mut MarkedStore,
        next: &mut u16,
        top: Frame<'p>,
    ) -> Result<Reported, AllocError>
        requires stacked { IsStackedWith top self.old }
        requires simple { next_construct (works_with top self.old around.now) ≡ None }
        requires room { next.old + rest_sites (works_with top self.old around.now) ≤ 4096 }
        ensures reported { IfOk result
            (λ reported. HaveReported layout.now reported (works_with top.entry self.old around.now) store.old
            next.old (works_of self.new around.now) store.new next.new) }
        ensures stacked { OnOk result (IsStacked self.new) }
    {
        match top {
            Frame::Statements { block, from, after } => {
                self.go_on_in_block(layout, around, store, next, block, from, after)
            }
            Frame::Turns {
                body,
                next: turn,
                high,
            } => {
                self.go_on_in_loop(body, turn, high)?;
                Ok(Reported::Nothing)
            }
        }
    }

    // Goes on in the block on top, from this statement on.
    #[inline(always)]
    fn go_on_in_block(
        &mut self,
        layout: &Layout,
        around: &Vars,
        store: &mut MarkedStore,
        next: &mut u16,
        block: &'p Block,
        from: usize,
        after: u16,
    ) -> Result<Reported, AllocError>
        requires stacked { IsStackedWith (Statements block from after) self.old }
        requires simple { construct_of (branch_of (statements_from block.now from)) ≡ None }
        requires room { next.old + (sites_in (statements_from block.now from) + after) ≤ 4096 }
        ensures reported { IfOk result
            (λ reported. HaveReported layout.now reported
            (works_with (Statements block.entry from after) self.old around.now)
            store.old next.old (works_of self.new around.now) store.new next.new) }
        ensures stacked { OnOk result (IsStacked self.new) }
    {
        if from < block.statements.len() {
            let rest = Frame::Statements {
                block,
                from: from + 1,
                after,
            };
            self.begin(layout, around, store, next, &block.statements[from], rest)
        } else {
            self.end();
            *next += after;
            Ok(Reported::Nothing)
        }
    }

    // Goes on in the loop on top.
    #[inline(always)]
    fn go_on_in_loop(&mut self, body: &'p Block, next: i64, high: i64) -> Result<(), AllocError>
        requires { IsStackedWith (Turns body next high) self.old }
        ensures moved { OnOk result (HasTurned body.entry next high self.old self.new) }
        ensures stacked { OnOk result (IsStacked self.new) }
    {
        if let Some(var) = self.vars.pop() {
            if next < high {
                self.vars.push(LoopVar {
                    name: var.name,
                    value: next,
                })?;
                let others = Frame::Turns {
                    body,
                    next: next + 1,
                    high,
                };
                self.begin_block(body, 0, others)?;
            } else {
                self.end();
            }
        }
        Ok(())
    }

    // Runs the turns of the loop on top, and takes it off.
    fn run_turns(
        &mut self,
        layout: &Layout,
        around: &Vars,
        store: &mut MarkedStore,
        body: &'p Block,
        next: i64,
        high: i64,
    )
        requires { IsStackedWith (Turns body next high) self.old }
        ensures ran { HaveRun layout.now (works_with (Turns body.entry next high) self.old around.now)
            store.old (works_of self.new around.now) store.new }
        ensures stacked { IsStacked self.new }
    {
        if let Some(var) = self.vars.pop() {
            let outer = Scope::Kept(around);
            let scope = Scope::Stack {
                vars: &self.vars,
                outer: &outer,
            };
            run_loop(layout, body, var.name, next, high, &scope, store);
            self.end();
        }
    }

    // Begins a statement that is no construct, with the rest of its block after it.
    #[inline(always)]
    fn begin(
        &mut self,
        layout: &Layout,
        around: &Vars,
        store: &mut MarkedStore,
        next: &mut u16,
        statement: &'p Stmt,
        rest: Frame<'p>,
    ) -> Result<Reported, AllocError>
        requires stacked { IsStackedWith rest self.old }
        requires simple { is_construct (statement_of statement.now) ≡ false }
        requires room { next.old + statement_sites_in (statement_of statement.now) ≤ 4096 }
        ensures reported { IfOk result
            (λ reported. statement_pass layout.now store.old.cells next.old
            (statement_of statement.now) (vars_in self.old around.now) ≡ span_reported reported) }
        ensures next { OnOk result
            (next.new ≡ next.old + begun_sites layout.now store.old.cells
            (statement_of statement.now) (vars_in self.old around.now)) }
        ensures begun { OnOk result
            (works_of self.new around.now
            ≡ begun layout.now store.old.cells (statement_of statement.now)
            (vars_in self.old around.now) ++ works_with rest.entry self.old around.now) }
        ensures store { OnOk result
            (store.new ≡ noted_all (begun_writes layout.now store.old.cells
            (statement_of statement.now) (vars_in self.old around.now)) store.old) }
        ensures stacked { OnOk result (IsStacked self.new) }
    {
        let outer = Scope::Kept(around);
        let scope = Scope::Stack {
            vars: &self.vars,
            outer: &outer,
        };
        match statement {
            Stmt::Assign {
                array,
                index,
                value,
                ..
            } => {
                run_assign(layout, array, index, value, &scope, store);
                self.top = Some(rest);
                Ok(Reported::Nothing)
            }
            Stmt::For {
                var,
                low,
                high,
                body,
                ..
            } => {
                self.begin_loop(var, *low, *high, body, rest)?;
                Ok(Reported::Nothing)
            }
            Stmt::If {
                cond,
                then_block,
                else_block,
                ..
            } => {
                if evaluate(layout, cond, &scope, store) != 0 {
                    self.begin_then(*next, then_block, else_block, rest)
                } else {
                    self.begin_else(next, then_block, else_block, rest)
                }
            }
            Stmt::Par { .. } | Stmt::Team { .. } => {
                self.top = Some(rest);
                Ok(Reported::Nothing)
            }
        }
    }

    // Begins the first side of an `if`. The sites of the other side come after it.
    #[inline(always)]
    fn begin_then(
        &mut self,
        next: u16,
        then_block: &'p Block,
        else_block: &'p Block,
        rest: Frame<'p>,
    ) -> Result<Reported, AllocError>
        requires room { next + (sites_in (sequence_of then_block.now)
            + sites_in (sequence_of else_block.now)) ≤ 4096 }
        ensures reported { IfOk result
            (λ reported. some_span (next + sites_in (sequence_of then_block.now))
            (sites_in (sequence_of else_block.now)) ≡ span_reported reported) }
        ensures begun { OnOk result
            (HasBegun (branch_of (sequence_of then_block.now))
            (sites_in (sequence_of else_block.now)) rest.entry self.old self.new) }
        ensures stacked { OnOk result (IsStackedWith rest.entry self.old → IsStacked self.new) }
    {
        let after = sites_in_block(else_block) as u16;
        self.begin_block(then_block, after, rest)?;
        if after == 0 {
            Ok(Reported::Nothing)
        } else {
            Ok(Reported::to_skip(next + sites_in_block(then_block) as u16, after))
        }
    }

    // Begins the second side of an `if`. The sites of the first side are passed.
    #[inline(always)]
    fn begin_else(
        &mut self,
        next: &mut u16,
        then_block: &'p Block,
        else_block: &'p Block,
        rest: Frame<'p>,
    ) -> Result<Reported, AllocError>
        requires room { next.old + sites_in (sequence_of then_block.now) ≤ 4096 }
        ensures reported { IfOk result
            (λ reported. some_span next.old (sites_in (sequence_of then_block.now)) ≡ span_reported reported) }
        ensures next { OnOk result (next.new ≡ next.old + sites_in (sequence_of then_block.now)) }
        ensures begun { OnOk result
            (HasBegun (branch_of (sequence_of else_block.now)) 0 rest.entry self.old self.new) }
        ensures stacked { OnOk result (IsStackedWith rest.entry self.old → IsStacked self.new) }
    {
        let passed = sites_in_block(then_block) as u16;
        self.begin_block(else_block, 0, rest)?;
        let first = *next;
        *next += passed;
        Ok(Reported::to_skip(first, passed))
    }

    // Puts a block on top with `after` sites after it, and replaces the old top by the frame `rest`.
    #[inline(always)]
    fn begin_block(
        &mut self,
        block: &'p Block,
        after: u16,
        rest: Frame<'p>,
    ) -> Result<(), AllocError>
        ensures begun { OnOk result
            (HasBegun (branch_of (sequence_of block.now)) after rest.entry self.old self.new) }
        ensures stacked { OnOk result (IsStackedWith rest.entry self.old → IsStacked self.new) }
    {
        self.below.push(rest)?;
        self.top = Some(Frame::Statements {
            block,
            from: 0,
            after,
        });
        Ok(())
    }

    // Puts a loop on top, and replaces the old top by this frame.
    #[inline(always)]
    fn begin_loop(
        &mut self,
        var: &'p Name,
        low: i64,
        high: i64,
        body: &'p Block,
        rest: Frame<'p>,
    ) -> Result<(), AllocError>
        ensures begun { OnOk result
            (HasBegun (member_of var.now low high (sequence_of body.now)) 0 rest.entry
            self.old self.new) }
        ensures stacked { OnOk result (IsStackedWith rest.entry self.old → IsStacked self.new) }
    {
        self.below.push(rest)?;
        self.vars.push(LoopVar {
            name: var,
            value: low,
        })?;
        self.top = Some(Frame::Turns {
            body,
            next: low,
            high,
        });
        Ok(())
    }

    // Removes the top frame.
    #[inline(always)]
    fn end(&mut self)
        ensures { IsEnded self.old self.new }
    {
        self.top = self.below.pop();
    }
}

// The frame of a construct's block, past the construct.
fn past(top: Frame) -> Frame
    requires { IsSome (next_construct (works_in (top ∷ []) [])) }
    ensures { IsBehind top.entry result }
{
    match top {
        Frame::Statements { block, from, after } => Frame::Statements {
            block,
            from: from + 1,
            after,
        },
        Frame::Turns { .. } => top,
    }
}

// The construct at an index of a block, if there is one.
#[inline(always)]
fn construct_at<'p>(block: &'p Block, place: usize) -> Option<&'p Stmt>
    ensures { IsConstructAt result block.now place }
{
    match block.statements.get(place) {
        Some(statement) => match statement {
            Stmt::Par { .. } | Stmt::Team { .. } => Some(statement),
            _ => None,
        },
        None => None,
    }
}
