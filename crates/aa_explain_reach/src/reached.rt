//! A place where programs run that are started.

use crate::start::Start;

/// A place where programs run that are started, a node, and how it is come to.
#[derive(Drop)]
pub struct Reached<'a> {
    /// The number of the node from which a program is started that runs there, from 0, which is an earlier one; none
    /// where who starts the first of all does.
    pub from: Option<usize>,
    /// The place, and the path of a program that runs there when it is started from that node.
    pub start: Start<'a>,
}
