//! A program to the one in which each branch or member adds into cells of its own.
ghost use Rattle.std.specs.Prelude.{◌≡◌, ◌⊎◌, Some, None, IfOk, IfErr, OnOk};
ghost use Rattle.std.specs.Option.{option_map};
ghost use Rattle.array_tree.specs.Trees.{declarations_of, program_of};
ghost use Rattle.spread_laws.specs.Faults.{spread_fault_of};
ghost use Rattle.spread_laws.specs.Spread.{spread_of};
ghost use Rattle.spread_laws.specs.Served.{HasMeaning, IsTallyKept};
ghost use Rattle.tally_cells.specs.FaultOf.{reported_of};

use crate::copies::copy_declaration;
use crate::fault::TallyFault;
use crate::outside::spread_block;
use crate::rows::push_declarations;
use crate::taken::taken_name;
use crate::unshaped::unshaped_in_block;
use array_eval::Layout;
use array_tree::{Arrays, Program};
use std::alloc::{AllocError, Global};

/// The program with a row of cells for each branch or member that adds into an accumulating array. The name of an accumulating
/// array ends in `_sum`. An add is `x[e] = x[e] + v;` inside one construct, with no array reads in `e` and no accumulating ones
/// in `v`.
///
/// After the arrays, rows are declared, `x_rows`: as many as any construct that adds to `x` has branches or members. Before
/// such a construct its rows become 0. Inside it, the adds go to the row of their branch or member. After it, all cells of the
/// rows are added to the cells of `x`.
///
/// Nothing else changes. With one hart, the result leaves in the given arrays what the given program leaves there. Its plan of
/// sites is the same, and it enters the same of them.
///
/// # Errors
///
/// `TallyFault::Unshaped` if a construct mentions an accumulating array in any other way. Otherwise `NameTaken` if a
/// declaration or a loop has the name of rows, or of the variable that goes through their cells, `x_cell`. `Memory` if an
/// allocation fails.
///
/// # Memory
///
/// It allocates the whole new program.
pub fn spread(alloc: Global, program: &Program) -> Result<Program, TallyFault>
    requires { HasMeaning (program_of program.now) }
    ensures spread { IfOk result (λ t. program_of t ≡ spread_of (program_of program.now)) }
    ensures kept { IfOk result (λ t. IsTallyKept (program_of program.now) (program_of t)) }
    ensures fault { IfErr result (λ fault. (fault ≡ TallyFault.Memory)
        ⊎ (option_map reported_of (spread_fault_of (program_of program.now)) ≡ Some fault)) }
    ensures sound { OnOk result (spread_fault_of (program_of program.now) ≡ None) }
{
    if let Some(line) = unshaped_in_block(0, &program.body) {
        return Err(TallyFault::Unshaped { line });
    }
    if let Some(line) = taken_name(alloc, program)? {
        return Err(TallyFault::NameTaken { line });
    }
    Ok(spread_program(alloc, program)?)
}

// The same for a program that can be spread.
fn spread_program(alloc: Global, program: &Program) -> Result<Program, AllocError>
    requires meaning { HasMeaning (program_of program.now) }
    requires sound { spread_fault_of (program_of program.now) ≡ None }
    ensures spread { IfOk result (λ t. program_of t ≡ spread_of (program_of program.now)) }
    ensures kept { IfOk result (λ t. IsTallyKept (program_of program.now) (program_of t)) }
{
    let layout = Layout::new(alloc, &program.arrays)?;
    Ok(Program {
        arrays: spread_arrays(alloc, program)?,
        body: spread_block(alloc, &layout, &program.body)?,
    })
}

// The arrays of a program, followed by the rows.
fn spread_arrays(alloc: Global, program: &Program) -> Result<Arrays, AllocError>
    requires { HasMeaning (program_of program.now) }
    ensures { IfOk result (λ arrays. declarations_of arrays
        ≡ (spread_of (program_of program.now)).arrays) }
{
    let mut declarations = Vec::new(alloc);
    for array in &program.arrays.declarations {
        declarations.push(copy_declaration(array)?)?;
    }
    push_declarations(
        alloc,
        &program.body,
        &program.arrays.declarations,
        &mut declarations,
    )?;
    Ok(Arrays { declarations })
}
