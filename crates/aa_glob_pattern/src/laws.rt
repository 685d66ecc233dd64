//! Properties of trails and of overlapping patterns, as laws over their definitions.

ghost use Rattle.aa_glob_pattern.specs.Laws.{ApartIsDistinct, BeginningsStandInGroups, DepthIsOfElements, DepthIsOfOpenGroups};
ghost use Rattle.aa_glob_pattern.specs.Laws.{FirstTextIsBegun, KnownTrailIsMet, MatchingIsBySplits, NewTrailIsAdded, NextTextIsBegun, OverlapsAreTested};
ghost use Rattle.aa_glob_pattern.specs.Laws.{SameTextsHaveSameStates, SomeAreReadAsOneIs, SourcesAreShorter, StatesAreFew};
ghost use Rattle.aa_glob_pattern.specs.Laws.{StatesHaveOneCount, TrailsAreReadBehindSources, TrailsGrowInFront, WholeTextIsThere};
ghost use Rattle.aa_glob_pattern.specs.Laws.{WholeTextsStand, WholeTrailsAreElements, WholeTrailsAreMatched, WholeTrailsGrowByElements};
ghost use Rattle.aa_glob_pattern.specs.Laws.{WholeTrailsStandInGroups};

/// The test that contracts name (`matches`) holds exactly where the text can be cut into one piece for each item.
pub fn matching_is_by_splits()
    ensures { MatchingIsBySplits }
{}

/// The texts that read a pattern's trail to its end are those that match the pattern.
pub fn what_reads_to_the_end_matches()
    ensures { WholeTrailsAreMatched }
{
    matching_is_by_splits();
}

/// A text reads a trail exactly where it is a text that reads one of the trail's sources, followed by what the trail's last element takes. Sources
/// are beginnings of the trail, and shorter.
pub fn how_trails_are_read()
    ensures trails_are_read_behind_sources { TrailsAreReadBehindSources }
    ensures some_are_read_as_one_is { SomeAreReadAsOneIs }
    ensures sources_are_shorter { SourcesAreShorter }
{}

/// A pattern's trail is built element by element. After it as many groups are open as were opened and not closed, and in a text that reads as a
/// pattern each comma and each closing brace belongs to one, but for the commas that stand for themselves.
pub fn how_trails_grow()
    ensures trails_grow_in_front { TrailsGrowInFront }
    ensures whole_trails_grow_by_elements { WholeTrailsGrowByElements }
    ensures depth_is_of_open_groups { DepthIsOfOpenGroups }
    ensures whole_trails_stand_in_groups { WholeTrailsStandInGroups }
    ensures beginnings_stand_in_groups { BeginningsStandInGroups }
{}

/// In a text that reads as a pattern each element is one that may come where so many groups are open, and the text's trail is its elements, the last
/// one first. After each of them as many groups are open as its trail says.
pub fn which_elements_stand()
    ensures whole_texts_stand { WholeTextsStand }
    ensures whole_trails_are_elements { WholeTrailsAreElements }
    ensures depth_is_of_elements { DepthIsOfElements }
{}

/// The different beginnings of texts, which are the states of the automaton that reads them, have one count. It is at most two for each byte and two
/// for each text. Neither the order of the texts nor repetition changes it.
pub fn how_many_states_there_are()
    ensures states_have_one_count { StatesHaveOneCount }
    ensures states_are_few { StatesAreFew }
    ensures same_texts_have_same_states { SameTextsHaveSameStates }
    ensures apart_is_distinct { ApartIsDistinct }
{}

/// The different beginnings of texts are gathered text by text and element by element: each element leads to a trail that is there already, or to a
/// new one, which is added.
pub fn how_beginnings_are_gathered()
    ensures first_text_is_begun { FirstTextIsBegun }
    ensures next_text_is_begun { NextTextIsBegun }
    ensures known_trail_is_met { KnownTrailIsMet }
    ensures new_trail_is_added { NewTrailIsAdded }
    ensures whole_text_is_there { WholeTextIsThere }
{}

/// Some text matches two patterns exactly where the test `overlaps` says so, which goes back over both patterns from their ends.
pub fn how_overlaps_are_tested()
    ensures { OverlapsAreTested }
{
    how_trails_are_read();
    what_reads_to_the_end_matches();
}
