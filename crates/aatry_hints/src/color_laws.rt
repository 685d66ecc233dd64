//! What holds of lines in colours, as a law over the definitions that the calls are proved to follow.

ghost use Rattle.std.specs.Prelude.{◌≡◌, ◌==◌, ℕ, List, false, flat_map};
ghost use Rattle.std.specs.List.{All, list_any};
ghost use Rattle.aatry_hints.specs.Colors.{colored_line, ended, escape, uncolored};

/// Lines in colours are the same lines without their terminal escape sequences, where none has an escape of its own.
pub fn what_colors_tell()
    ensures { (told : List (List ℕ)) → All (λ line. list_any (λ byte. byte == escape) line ≡ false) told
        → uncolored (flat_map colored_line told) ≡ flat_map ended told }
{}
