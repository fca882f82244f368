//! Laws of the definitions, each the contract of an empty function.
ghost use Rattle.git_words.specs.Laws.{OneCommand, CommandOrNone, CommandsAreInRange};

/// Words spell one command at most.
pub fn one_command()
    ensures { OneCommand }
{}

/// Words spell a command or none.
pub fn command_or_none()
    ensures { CommandOrNone }
{}

/// The numbers of a command that is spelled are within the limits.
pub fn commands_are_in_range()
    ensures { CommandsAreInRange }
{}
