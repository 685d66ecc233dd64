//! What holds of commands and options, as a law over the definitions that the calls are proved to follow.

ghost use Rattle.std.specs.Prelude.{◌≡◌, true};
ghost use Rattle.std.specs.List.{list_all};
ghost use Rattle.aatry_hints.specs.Commands.{commands};
ghost use Rattle.aatry_hints.specs.Laws.{go_as_told, refuses_others};
ghost use Rattle.aatry_hints.specs.Together.{with_all, with_rules};

/// With only an option that a command isn't said to take, of those that exist, the command asks for nothing. So the hints on such options are true.
pub fn what_commands_refuse()
    ensures { list_all refuses_others commands ≡ true }
{}

/// After `diff` and two folders, each option that is said to go only with `--all` asks for something beside it, and for nothing without it; and each
/// that is said to go only without it asks for nothing beside it, and for something without it. The same holds after `check` and two files with
/// `--rules`.
pub fn what_goes_together()
    ensures all { go_as_told with_all ≡ true }
    ensures rules { go_as_told with_rules ≡ true }
{}
