//! Requests, about which a profile's rules decide.

use crate::access::Perms;

/// A request, about which a profile's rules decide.
#[derive(Clone, Copy, Debug)]
pub enum Request<'a> {
    /// To use a file.
    File {
        /// The letters that are needed.
        needs: Perms,
        /// Whether the task's user owns the file.
        owned: bool,
        /// The path.
        path: &'a [u8],
    },
    /// To use the capability of a number, from 0 to 40.
    Cap(u8),
    /// To use sockets.
    Net {
        /// The number of their domain, from 0 to 43.
        domain: u8,
        /// The number of their type, from 0 to 5.
        kind: u8,
    },
}
