//! The state of a walk through a program.
ghost use Rattle.std.specs.Prelude.{◌≡◌, ◌<◌, ◌^◌, [], ◌∷◌, ◌++◌, false, true, IfOk, replicate};
ghost use Rattle.array_tree.specs.Trees.{expression_of, sequence_of};
ghost use Rattle.array_meaning.specs.Stores.{cell_of, is_dynamic, value_of};
ghost use Rattle.array_meaning.specs.Work.{loop, sequence_work};
ghost use Rattle.array_meaning.specs.Plans.{sites_in};
ghost use Rattle.array_eval.specs.Traces.{fresh, noted, traced};
ghost use Rattle.array_eval.specs.Views.{vars_of};
ghost use Rattle.entered_sites.specs.Recorded.{recording};

use array_eval::{Layout, MarkedStore, Scope, Store, evaluate, run_assign, run_block, run_loop};
use array_tree::{Block, Expr, Name};
use site_counts::sites_in_block;
use std::alloc::{AllocError, Global};
use std::marker::Model;

/// The store of a running program, and for each site that the walk has passed whether it was entered.
#[derive(Drop)]
pub(crate) struct Walker {
    store: MarkedStore,
    sites: Vec<bool>,
}

impl Model for Walker {
    ghost use Rattle.entered_sites.specs.Recorded.{Recorded};

    ghost Value = { Recorded };

    ghost view = { λ walker. record { trace = walker.store; sites = walker.sites.items } };
}

impl Walker {
    /// A walk that begins at a store, with room for `sites` sites.
    pub(crate) fn new(alloc: Global, store: &Store, sites: u16) -> Result<Walker, AllocError>
        ensures { IfOk result (λ walker. walker ≡ record { trace = fresh store.now; sites = [] }) }
    {
        let store = MarkedStore::new(alloc, store)?;
        let sites = Vec::with_capacity(alloc, usize::from(sites))?;
        Ok(Walker { store, sites })
    }

    /// The value of an expression.
    pub(crate) fn value(&self, layout: &Layout, expr: &Expr, scope: &Scope) -> i64
        ensures { result ≡ value_of layout.now (vars_of scope.now) (expression_of expr.now)
            self.now.trace.cells }
    {
        evaluate(layout, expr, scope, &self.store)
    }

    /// Runs an assignment.
    pub(crate) fn assign(
        &mut self,
        layout: &Layout,
        array: &Name,
        index: &Expr,
        right: &Expr,
        scope: &Scope,
    )
        ensures trace { self.new.trace ≡ noted
            (cell_of layout.now array.now (is_dynamic (expression_of index.now))
            (value_of layout.now (vars_of scope.now) (expression_of index.now)
            self.old.trace.cells))
            (value_of layout.now (vars_of scope.now) (expression_of right.now)
            self.old.trace.cells) self.old.trace }
        ensures sites { self.new.sites ≡ self.old.sites }
    {
        run_assign(layout, array, index, right, scope, &mut self.store);
    }

    /// Runs a block that has no site.
    pub(crate) fn run_block<'s>(&mut self, layout: &Layout, block: &'s Block, scope: &'s Scope<'s>)
        ensures trace { self.new.trace ≡ traced layout.now
            (sequence_work (sequence_of block.now) (vars_of scope.now)) self.old.trace }
        ensures sites { self.new.sites ≡ self.old.sites }
    {
        run_block(layout, block, scope, &mut self.store);
    }

    /// Runs a loop that has no site.
    pub(crate) fn run_loop<'s>(
        &mut self,
        layout: &Layout,
        body: &'s Block,
        var: &'s Name,
        low: i64,
        high: i64,
        scope: &'s Scope<'s>,
    )
        ensures trace { self.new.trace ≡ traced layout.now
            (loop var.now low high (sequence_work (sequence_of body.now)) (vars_of scope.now))
            self.old.trace }
        ensures sites { self.new.sites ≡ self.old.sites }
    {
        run_loop(layout, body, var, low, high, scope, &mut self.store);
    }

    /// Enters a site.
    pub(crate) fn enter(&mut self) -> Result<(), AllocError>
        ensures { IfOk result (λ _. self.new ≡ recording (true ∷ []) self.old) }
    {
        self.sites.push(true)?;
        Ok(())
    }

    /// Passes over the sites of a block that doesn't run.
    pub(crate) fn pass(&mut self, block: &Block) -> Result<(), AllocError>
        ensures { IfOk result (λ _. self.new
            ≡ recording (replicate (sites_in (sequence_of block.now)) false) self.old) }
    {
        pass_over(sites_in_block(block), &mut self.sites)?;
        Ok(())
    }

    /// For each site that the walk has passed, whether it was entered.
    pub(crate) fn into_sites(self) -> Vec<bool>
        ensures { result.items ≡ self.sites }
    {
        self.sites
    }
}

// Records `count` sites as not entered. Why it fails for a capped count (the greatest number of 64 bits also stands for all
// greater ones): no list has 2^63 elements.
fn pass_over(count: u64, sites: &mut Vec<bool>) -> Result<(), AllocError>
    ensures recorded { IfOk result
        (λ _. sites.new.items ≡ sites.old.items ++ replicate count false) }
    ensures few { IfOk result (λ _. count < 2 ^ 63) }
{
    for _site in 0..count {
        sites.push(false)?;
    }
    Ok(())
}
