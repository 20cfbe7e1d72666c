// The laws of the words.
ghost use Rattle.std.specs.Prelude.{◌≡◌, ◌⊎◌, ℕ, List};
ghost use Rattle.command_words.specs.Command.{Command, IsCommand, IsNoCommand, IsInRange};

/// Words are one command, or none.
pub fn one_command()
    ensures some { (words : List (List ℕ)) → ((command : Command) × IsCommand words command) ⊎ IsNoCommand words }
    ensures one { (words : List (List ℕ)) (one other : Command) → IsCommand words one → IsCommand words other → one ≡ other }
{}

/// The numbers of a command are in their ranges, also where none is given.
pub fn command_ranges()
    ensures { (words : List (List ℕ)) (command : Command) → IsCommand words command → IsInRange command }
{}
