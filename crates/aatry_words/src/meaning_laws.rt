//! What holds of words as the kernel and its tools write them, as laws over the definitions that the calls are proved to follow.

ghost use Rattle.std.specs.Prelude.{◌≡◌, ℕ, IsSome, List, Some};
ghost use Rattle.aa_profile_data.specs.Access.{needs_of};
ghost use Rattle.aa_profile_data.specs.Capabilities.{capability_number};
ghost use Rattle.aatry_words.specs.Laws.{IsMeant, MeansNoOther};
ghost use Rattle.aatry_words.specs.Masks.{needs_meant};

/// Each capability is meant by its name, by that after `cap_`, and by that in upper case after `CAP_`. A word means nothing but itself, where it
/// isn't the name of a capability after one of these, apart from the case of the name's letters.
pub fn what_names_mean()
    ensures written { (name : List ℕ) → IsSome (capability_number name) → IsMeant name }
    ensures others { (word : List ℕ) → MeansNoOther word }
{}

/// Letters that a question may ask for mean themselves.
pub fn what_letters_mean()
    ensures { (access : List ℕ) (needs : ℕ) → needs_of access ≡ Some needs → needs_meant access ≡ Some needs }
{}
