//! Loop variables that are kept.
ghost use Rattle.std.specs.Prelude.{◌≡◌, ◌↔◌, IsTrue, ◌∷◌, ◌++◌, [], IfOk, OnOk};
ghost use Rattle.array_eval.specs.Bindings.{pairs_of};
ghost use Rattle.array_eval.specs.Overlays.{bound_to};
ghost use Rattle.array_eval.specs.Views.{stacked, vars_of};
ghost use Rattle.array_eval.specs.Equal.{vars_eq};

use crate::scope::{LoopVar, Scope};
use array_tree::Name;
use std::alloc::{AllocError, Global};
use std::marker::Model;
use std::sync::Arc;

/// The loop variables around a position in a program, with their values.
///
/// Contracts see them as a list of pairs of a name and a value, the innermost loop's first. A copy shares them all.
#[derive(Debug, Drop)]
pub struct Vars {
    alloc: Global,
    // Copies share the bindings. `None` if there are no variables.
    bindings: Option<Arc<Vec<Binding>>>,
}

/// A loop variable and its value.
#[derive(Debug, Drop)]
struct Binding {
    name: Name,
    value: i64,
}

impl Model for Vars {
    ghost use Rattle.std.specs.Prelude.{List, ℕ, ℤ};
    ghost use Rattle.array_eval.specs.Bindings.{pairs_of, kept_in};

    ghost Value = { List (List ℕ × ℤ) };

    ghost view = { λ vars. pairs_of (kept_in (λ kept. kept.items) vars.bindings) };
}

impl Vars {
    /// No loop variable. Does not allocate.
    pub fn empty(alloc: Global) -> Vars
        ensures { result ≡ [] }
    {
        Vars {
            alloc,
            bindings: None,
        }
    }

    /// The variables of a scope.
    ///
    /// # Errors
    ///
    /// `AllocError` if an allocation fails.
    ///
    /// # Memory
    ///
    /// It allocates a list of the variables, with a copy of each name.
    pub fn of_scope(alloc: Global, scope: &Scope) -> Result<Vars, AllocError>
        ensures { IfOk result (λ vars. vars ≡ vars_of scope.now) }
    {
        let mut bindings = Vec::new(alloc);
        append_scope(&mut bindings, scope)?;
        keep(alloc, bindings)
    }

    /// These variables with one more, the innermost.
    ///
    /// # Errors
    ///
    /// `AllocError` if an allocation fails.
    ///
    /// # Memory
    ///
    /// It allocates a list of the variables, with a copy of each name.
    pub fn with(&self, name: &Name, value: i64) -> Result<Vars, AllocError>
        ensures { IfOk result (λ vars. vars ≡ (name.now, value) ∷ self.now) }
    {
        let outer = self.bindings();
        let mut bindings = Vec::with_capacity(self.alloc, outer.len().saturating_add(1))?;
        append_copy(&mut bindings, name, value)?;
        append(&mut bindings, outer)?;
        keep(self.alloc, bindings)
    }

    /// The value of the first variable with the name.
    pub fn get(&self, name: &Name) -> Option<i64>
        ensures { result ≡ bound_to self.now name.now }
    {
        for binding in self.bindings() {
            if binding.name == *name {
                return Some(binding.value);
            }
        }
        None
    }

    /// Equal variables, shared with these.
    ///
    /// # Errors
    ///
    /// `AllocError`, as the contract allows. This implementation does not allocate.
    pub fn copy(&self) -> Result<Vars, AllocError>
        ensures { IfOk result (λ vars. vars ≡ self.now) }
    {
        let bindings = match &self.bindings {
            Some(kept) => Some(Arc::try_clone(kept)?),
            None => None,
        };
        Ok(Vars {
            alloc: self.alloc,
            bindings,
        })
    }

    // The variables, the innermost loop's first.
    fn bindings(&self) -> &[Binding]
        ensures { pairs_of result.now ≡ self.now }
    {
        match &self.bindings {
            Some(kept) => kept.as_slice(),
            None => &[],
        }
    }
}

impl PartialEq for Vars {
    ghost use Rattle.std.proofs.Common.{refl};
    ghost use Rattle.array_tree.specs.EqualLaws.{equal_laws};
    ghost use Rattle.array_eval.specs.Equal.{vars_eq};
    ghost use Rattle.array_eval.specs.EqualLaws.{vars_decides};

    ghost eq = { vars_eq };

    ghost laws = { equal_laws (λ vars. vars) vars_eq (λ a b. (vars_decides a b).0) (λ a. (vars_decides a a).1 refl) };

    fn eq(&self, other: &Vars) -> bool
        ensures tested { result ≡ vars_eq self.now other.now }
        ensures same { IsTrue result ↔ (self.now ≡ other.now) }
    {
        self.bindings() == other.bindings()
    }
}

impl PartialEq for Binding {
    ghost use Rattle.std.proofs.Common.{refl};
    ghost use Rattle.array_tree.specs.EqualLaws.{equal_laws};
    ghost use Rattle.array_eval.specs.Bindings.{pair_of};
    ghost use Rattle.array_eval.specs.Equal.{binding_eq};
    ghost use Rattle.array_eval.specs.EqualLaws.{binding_decides};

    ghost eq = { λ a b. binding_eq (pair_of a) (pair_of b) };

    ghost laws = { equal_laws pair_of binding_eq (λ a b. (binding_decides a b).0) (λ a. (binding_decides a a).1 refl) };

    fn eq(&self, other: &Binding) -> bool {
        self.name == other.name && self.value == other.value
    }
}

// These variables, kept so that copies share them.
fn keep(alloc: Global, bindings: Vec<Binding>) -> Result<Vars, AllocError>
    ensures { IfOk result (λ vars. vars ≡ pairs_of bindings.items) }
{
    Ok(Vars {
        alloc,
        bindings: Some(Arc::new(alloc, bindings)?),
    })
}

// Appends copies of the variables of a scope.
fn append_scope(bindings: &mut Vec<Binding>, scope: &Scope) -> Result<(), AllocError>
    ensures { OnOk result (pairs_of bindings.new.items ≡ pairs_of bindings.old.items
        ++ vars_of scope.now) }
{
    match scope {
        Scope::Outermost => Ok(()),
        Scope::Kept(vars) => append(bindings, vars.bindings()),
        Scope::Turn { name, value, outer } => {
            append_copy(bindings, name, *value)?;
            append_scope(bindings, outer)
        }
        Scope::Stack { vars, outer } => {
            append_stack(bindings, vars)?;
            append_scope(bindings, outer)
        }
    }
}

// Appends copies of variables that lie one after another, the innermost first.
#[tactic(auto, using(crate::proofs::ScopeLemmas::stacked_more))]
fn append_stack(bindings: &mut Vec<Binding>, vars: &[LoopVar]) -> Result<(), AllocError>
    ensures { OnOk result (pairs_of bindings.new.items ≡ pairs_of bindings.old.items
        ++ stacked vars.now) }
{
    let mut left = vars.len();
    while left > 0 {
        left -= 1;
        append_copy(bindings, vars[left].name, vars[left].value)?;
    }
    Ok(())
}

// Appends a variable with a copy of this name.
fn append_copy(bindings: &mut Vec<Binding>, name: &Name, value: i64) -> Result<(), AllocError>
    ensures { OnOk result (pairs_of bindings.new.items ≡ pairs_of bindings.old.items
        ++ (name.now, value) ∷ []) }
{
    bindings.push(Binding {
        name: name.copy()?,
        value,
    })?;
    Ok(())
}

// Appends copies of these variables.
fn append(bindings: &mut Vec<Binding>, others: &[Binding]) -> Result<(), AllocError>
    ensures { OnOk result (pairs_of bindings.new.items ≡ pairs_of bindings.old.items
        ++ pairs_of others.now) }
{
    for binding in others {
        append_copy(bindings, &binding.name, binding.value)?;
    }
    Ok(())
}
