//! What holds of changes that several profiles have in common, as a law over the definitions that the calls are proved to follow.

ghost use Rattle.std.specs.Prelude.{◌≡◌, ℕ, List, true};
ghost use Rattle.std.specs.List.{Contains};
ghost use Rattle.aatry_shared.specs.Sharing.{Group, Having, are_several, gathered, is_shared, shared};
ghost use Rattle.aatry_shared.specs.SharingLaws.{IsNamedOnce};

/// Whatever changes profiles, children and hats have: where one of them is shared, it is among the shared ones exactly once, and names what has it.
/// Each shared change is one that two or more have, and each that it names has it.
pub fn what_is_shared_is_told_once()
    ensures each { (havings : List Having) (having : Having)
        → Contains havings having
        → is_shared (gathered havings) having.change ≡ true
        → IsNamedOnce (shared (gathered havings)) having }
    ensures no_other { (havings : List Having) (group : Group) (name : List ℕ)
        → Contains (shared (gathered havings)) group
        → Contains group.names name
        → Contains havings (record { name = name; change = group.change }) }
    ensures of_several { (havings : List Having) (group : Group) → Contains (shared (gathered havings)) group → are_several group.names ≡ true }
{}
