//! Laws of the printer, each the contract of a function with an empty body.

ghost use Rattle.std.specs.Prelude.{ℕ, List};
ghost use Rattle.array_tree.specs.Trees.{ProgramTree};
ghost use Rattle.array_lang.specs.Spelled.{Spells};
ghost use Rattle.array_print.specs.Spellings.{SpellsButLines};
ghost use Rattle.array_print.specs.Texts.{printed};
ghost use Rattle.array_print.specs.Writable.{IsWritable};

/// If some text spells a program, the program's printed text spells it too, up to line numbers.
pub fn printed_text_spells()
    ensures { (text : List ℕ) (p : ProgramTree) → Spells text p → SpellsButLines (printed p) p }
{}

/// The printed text of a program spells it, up to line numbers, if its names, numbers, blocks and nesting are within the limits
/// of texts. A program that some text spells is within these limits.
pub fn writable_programs_are_spelled()
    ensures spelled { (p : ProgramTree) → IsWritable p → SpellsButLines (printed p) p }
    ensures only { (text : List ℕ) (p : ProgramTree) → Spells text p → IsWritable p }
{}
