//! A law of generated programs, the contract of a function with an empty body.
ghost use Rattle.std.specs.Prelude.{◌≤◌, ℕ};
ghost use Rattle.array_print.specs.Spellings.{SpellsButLines};
ghost use Rattle.array_print.specs.Texts.{printed};
ghost use Rattle.program_maker.specs.Made.{made_program};

/// The printed text of a generated program spells it, up to line numbers.
pub fn made_text_spells()
    ensures { (seed size : ℕ) → size ≤ 40
        → SpellsButLines (printed (made_program seed size)) (made_program seed size) }
{}
