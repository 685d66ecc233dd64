//! Properties of accesses and of targets, as laws over the definitions that the calls are proved to follow.

ghost use Rattle.std.specs.Prelude.{◌≡◌, ℕ, List, None, true};
ghost use Rattle.aa_profile_data.specs.FullNames.{is_full_name};
ghost use Rattle.aa_profile_data.specs.Laws.{ReadAsItsPartsSay, WrittenInOneWay};
ghost use Rattle.aa_profile_data.specs.Names.{is_top_name};
ghost use Rattle.aa_profile_data.specs.Stacks.{stack_of};

/// The text of an access is a list of parts, one after the other: letters, a bare `x` among them, and exec words. `WrittenAccess::of_text` reads all
/// letters that are among them, the first exec word, and whether another one differs from it; a text that is no list of such parts isn't read. No
/// text is written of such parts in two ways.
pub fn what_accesses_say()
    ensures read_as_its_parts_say { ReadAsItsPartsSay }
    ensures written_in_one_way { WrittenInOneWay }
{}

/// No name is a stack: neither the full name of a profile, a child or a hat, nor the name of one.
pub fn no_name_is_a_stack()
    ensures full_names { (text : List ℕ) → is_full_name text ≡ true → stack_of text ≡ None }
    ensures names { (text : List ℕ) → is_top_name text ≡ true → stack_of text ≡ None }
{}
