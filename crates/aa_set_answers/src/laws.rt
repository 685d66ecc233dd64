//! Properties of the names that `list` prints, with those that are asked and shown, as a law over the definitions.

ghost use Rattle.aa_set_answers.specs.Laws.{ListedNamesLeadBack};

/// A full name that `list` prints leads back to the profile, child or hat for which it is printed: it is the asker of that name, and `show` shows
/// it. No two profiles of the policy set have one name, and the names of the profile are as those of every file that was read.
pub fn where_listed_names_lead()
    ensures { ListedNamesLeadBack }
{}
