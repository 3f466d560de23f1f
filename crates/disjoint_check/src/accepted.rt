//! Programs that are accepted.
ghost use Rattle.std.specs.Prelude.{◌≡◌, ◌≤◌, ◌-◌, IfOk, IfErr, Some, None, slice_get};
ghost use Rattle.array_tree.specs.Trees.{program_of};
ghost use Rattle.transfer_table.specs.Plan.{IsSite, plan_fault_of};
ghost use Rattle.disjoint_check.specs.Meaning.{IsAcceptedFor};
ghost use Rattle.disjoint_check.specs.Inside.Unrolled.{parents_in};

use crate::fault::CheckFault;
use crate::unroll::{Site, sites_of};
use array_tree::Program;
use site_counts::pieces_in_block;
use std::alloc::{AllocError, Global};
use std::marker::Model;
use transfer_table::{Plan, PlanFault};

/// A program that meets all conditions, with its plan, its number of pieces and the shapes of its sites.
#[derive(Drop)]
pub struct Accepted<'p> {
    program: &'p Program,
    plan: Plan,
    pieces: u32,
    sites: Vec<Site>,
}

impl<'p> Model for Accepted<'p> {
    ghost use Rattle.std.specs.Coded.{codes};
    ghost use Rattle.array_tree.specs.contracts.tree.Program as tree;
    ghost use Rattle.disjoint_check.specs.Inside.Unrolled.{shapes_in};
    ghost use Rattle.disjoint_check.specs.AcceptedProgram.{AcceptedProgram, IsAcceptedProgram};

    ghost Value = { AcceptedProgram };

    ghost coded = { Prim.hlevel (codes, tree.the_row.coded) };

    ghost view = { λ a. record { program = a.program.now; plan = a.plan; pieces = a.pieces; shapes = shapes_in a.sites.items } };

    ghost invariant = { λ a. IsAcceptedProgram record {
      program = a.program.now;
      plan = a.plan;
      pieces = a.pieces;
      shapes = shapes_in a.sites.items;
    } };
}

impl<'p> Accepted<'p> {
    ghost use Rattle.disjoint_check.specs.AcceptedProgram.{IsAcceptedProgram};

    /// The program.
    pub fn program(&self) -> &'p Program
        ensures same { result.now ≡ self.now.program }
        ensures kept { IsAcceptedProgram self.now }
    {
        self.program
    }

    /// The program's sites and their parents, and the number of harts that the check was for.
    pub fn plan(&self) -> &Plan
        ensures same { result.now ≡ self.now.plan }
        ensures kept { IsAcceptedProgram self.now }
    {
        &self.plan
    }

    /// The number of pieces of all sites, at most 16,384.
    pub fn pieces(&self) -> u32
        ensures same { result ≡ self.now.pieces }
        ensures kept { IsAcceptedProgram self.now }
    {
        self.pieces
    }

    /// The members and phases of a `team` site; the number of branches and 0 of a `par` site. Sites are numbered from 1.
    pub fn shape(&self, site: u16) -> (u8, u8)
        requires { IsSite self.now.plan site }
        ensures same { slice_get self.now.shapes (site - 1) ≡ Some (result.0, result.1) }
        ensures kept { IsAcceptedProgram self.now }
    {
        let site = self.sites[site as usize - 1];
        (site.members, site.phases)
    }
}

/// The accepted program for a program that meets all conditions on `harts` harts.
pub(crate) fn accept<'p>(
    alloc: Global,
    program: &'p Program,
    harts: u8,
) -> Result<Accepted<'p>, CheckFault>
    requires accepted { IsAcceptedFor (program_of program.now) harts }
    requires some_hart { 1 ≤ harts }
    requires few_harts { harts ≤ 16 }
    ensures program { IfOk result (λ a. a.program ≡ program.now) }
    ensures harts { IfOk result (λ a. a.plan.harts ≡ harts) }
    ensures memory { IfErr result (λ why. why ≡ CheckFault.Memory) }
{
    let sites = sites_of(alloc, program)?;
    let parents = parents_of(alloc, &sites)?;
    let plan = plan(alloc, harts, &parents)?;
    Ok(Accepted {
        program,
        plan,
        pieces: pieces_in_block(&program.body) as u32,
        sites,
    })
}

// The parents of the sites, for the table's plan.
fn parents_of(alloc: Global, sites: &[Site]) -> Result<Vec<u16>, AllocError>
    ensures { IfOk result (λ parents. parents.items ≡ parents_in sites.now) }
{
    sites.iter().map(|site| site.parent).collect(alloc)
}

// The plan with these parents.
fn plan(alloc: Global, harts: u8, parents: &[u16]) -> Result<Plan, CheckFault>
    requires { plan_fault_of harts parents.now ≡ None }
    ensures plan { IfOk result (λ p. p ≡ record { harts = harts; parents = parents.now }) }
    ensures memory { IfErr result (λ why. why ≡ CheckFault.Memory) }
{
    match Plan::new(alloc, harts, parents) {
        Ok(plan) => Ok(plan),
        Err(PlanFault::Memory) => Err(CheckFault::Memory),
        Err(_) => unreachable!(),
    }
}
