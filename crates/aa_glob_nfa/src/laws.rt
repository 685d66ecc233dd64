//! Properties of visits, as a law over their definitions.

ghost use Rattle.aa_glob_nfa.specs.Laws.{VisitsHaveOneCount};

/// The visits at the places of a text have one count, so that a count to which they are added is determined.
pub fn visits_have_one_count()
    ensures { VisitsHaveOneCount }
{}
