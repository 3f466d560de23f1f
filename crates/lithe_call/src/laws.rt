//! Laws of the top call, each the contract of a function with an empty body.
ghost use Rattle.std.specs.Prelude.{◌≡◌, ◌<◌, ◌⊎◌, ℕ, List, length, Option, Some};
ghost use Rattle.command_words.specs.declared.command.Command.{Command};
ghost use Rattle.lithe_call.specs.declared.status.Status.{Status};
ghost use Rattle.command_words.specs.Form.{form_of};
ghost use Rattle.lithe_call.specs.Inputs.{limit_of, AreInput};
ghost use Rattle.lithe_call.specs.Faults.{IsLong};
ghost use Rattle.lithe_call.specs.Served.{WritesOutput, WritesPrefix, IsTooLong, PrintsStatus};
ghost use Rattle.lithe_call.specs.Printed.{TookOutput, TookPrefix, PrintedLine};

/// If the source showed its bytes beforehand, all that `lithe` wrote is the output for these bytes.
pub fn printed_bytes_are_served()
    ensures done { (words : List (List ℕ)) (status : Status)
        (left left' taken taken' : Option (List ℕ))
        → WritesOutput words left left' status taken taken'
        → (command : Command) → form_of words ≡ Some command
        → (bytes : List ℕ) → AreInput command left bytes
        → TookOutput command bytes status taken taken' }
    ensures prefix { (words : List (List ℕ)) (left left' taken taken' : Option (List ℕ))
        → WritesPrefix words left left' taken taken'
        → (command : Command) → form_of words ≡ Some command
        → (bytes : List ℕ) → AreInput command left bytes → TookPrefix command bytes taken taken' }
    ensures printed { (words : List (List ℕ)) (status : Status)
        (left left' taken taken' : Option (List ℕ)) (faults faults' : ℕ)
        → PrintsStatus words status left left' taken faults taken' faults'
        → (command : Command) → form_of words ≡ Some command
        → (bytes : List ℕ) → AreInput command left bytes
        → PrintedLine command status bytes taken faults taken' faults' }
    ensures too_long { (words : List (List ℕ)) (left left' : Option (List ℕ))
        → IsTooLong words left left'
        → (command : Command) → form_of words ≡ Some command
        → (bytes : List ℕ) → AreInput command left bytes
        → (limit_of command < length bytes) ⊎ IsLong command bytes }
{}
