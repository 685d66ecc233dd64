//! What follows where a place isn't reached, as laws over the definitions that the calls are proved to follow.

ghost use Rattle.aa_explain_reach.specs.Chains.{ChainsEndAtNodes, NodesEndChains, NoneRunsUnconfined};

/// Where all nodes were gone on from, and it is known of each where that leads, each chain of starts ends at one of
/// the nodes, however long it is: of each start the program has a path that the kernel may ask about, and is started
/// by one who starts programs from where the one before it runs. So where none of the nodes is unconfined, no program
/// that is started so runs unconfined.
pub fn what_is_not_reached()
    ensures chains { ChainsEndAtNodes }
    ensures unconfined { NoneRunsUnconfined }
{}

/// Each node is where a chain of starts ends of which someone starts the first: one by the nodes that it is come to
/// from.
pub fn what_is_reached()
    ensures { NodesEndChains }
{}
