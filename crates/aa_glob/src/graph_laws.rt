//! Properties of graphs that are drawn of trails, as laws over the definitions of both.

ghost use Rattle.aa_glob.specs.GraphLaws.{AddedIsDrawn, ReachingIsReading, ReachingTheEndIsMatching, SameIsDrawn, StartIsDrawn};

use aa_glob_pattern::{how_trails_are_read, what_reads_to_the_end_matches};

/// A state of a drawn graph is reached by the texts that read its trail. So where that is a pattern's trail, they are those that match the pattern.
pub fn what_reaches_a_state()
    ensures reaching_is_reading { ReachingIsReading }
    ensures reaching_the_end_is_matching { ReachingTheEndIsMatching }
{
    how_trails_are_read();
    what_reads_to_the_end_matches();
}

/// The start alone is drawn of the empty trail. A graph stays drawn where a state with a new trail is appended, and ways lead to it from the states
/// that have the sources of its trail.
pub fn how_graphs_are_drawn()
    ensures start_is_drawn { StartIsDrawn }
    ensures added_is_drawn { AddedIsDrawn }
    ensures same_is_drawn { SameIsDrawn }
{
    how_trails_are_read();
}
