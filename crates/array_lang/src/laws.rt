//! Laws of the language, each the contract of a function with an empty body.

ghost use Rattle.std.specs.Prelude.{◌≡◌, ◌≢◌, ℕ, List};
ghost use Rattle.array_tree.specs.Trees.{ProgramTree};
ghost use Rattle.array_lang.specs.Spelled.{Spells, HasFault};
ghost use Rattle.array_lang.specs.declared.fault.SyntaxFault.{SyntaxFault};
ghost use Rattle.array_lang.specs.declared.fault.SyntaxFault.TheVariants.{Memory};

/// No text spells two programs.
pub fn one_program()
    ensures { (text : List ℕ) (p q : ProgramTree) → Spells text p → Spells text q → p ≡ q }
{}

/// Except for allocation failure, a text has at most one error, and none if it spells a program.
pub fn one_fault()
    ensures one { (text : List ℕ) (f g : SyntaxFault) → HasFault text f → HasFault text g
        → f ≢ Memory → g ≢ Memory → f ≡ g }
    ensures none { (text : List ℕ) (p : ProgramTree) (f : SyntaxFault) → Spells text p
        → HasFault text f → f ≡ Memory }
{}
