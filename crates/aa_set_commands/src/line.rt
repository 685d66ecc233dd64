//! The line buffer: the unfinished line, as far as it matters.

ghost use Rattle.std.specs.Prelude.{◌≡◌, ◌+◌, ◌++◌, ◌∷◌, [], IfOk, IfNone, IfSome, false, length, take, ◌==◌};
ghost use Rattle.std.specs.List.{list_any};
ghost use Rattle.aa_bytes.specs.Bytes.{line_feed};
ghost use Rattle.aa_set_commands.specs.Limits.{longest_line};
ghost use Rattle.aa_set_commands.specs.Lines.{is_line_feed};

use memchr::memchr;
use std::alloc::{AllocError, Global};
use std::marker::Model;

/// How many bytes a command line may have, without its line feed.
pub const LONGEST_LINE: usize = 65_536;

/// The bytes of a line that isn't finished yet, up to one more than a line may have: later ones change nothing.
///
/// Its capacity is allocated once, so that no line of whatever length takes memory.
#[derive(Drop)]
pub struct LineBuffer {
    bytes: Vec<u8>,
}

impl Model for LineBuffer {
    ghost use Rattle.std.specs.Prelude.{List, ℕ, ◌≤◌, ◌+◌, vec_len, vec_capacity};
    ghost use Rattle.aa_set_commands.specs.Limits.{longest_line};

    ghost Value = { List ℕ };

    ghost view = { λ l. l.bytes.items };

    ghost invariant = { λ l. (vec_len l.bytes ≤ longest_line + 1) × (longest_line + 1 ≤ vec_capacity l.bytes) };
}

impl LineBuffer {
    /// An empty buffer, with all the capacity that it will have.
    ///
    /// # Errors
    ///
    /// Where memory runs out.
    pub fn new(alloc: Global) -> Result<LineBuffer, AllocError>
        ensures { IfOk result (λ line. line ≡ []) }
    {
        Ok(LineBuffer {
            bytes: Vec::with_capacity(alloc, LONGEST_LINE + 1)?,
        })
    }

    /// Whether nothing of a line was kept.
    pub fn is_empty(&self) -> bool
        ensures { result ≡ (length self.now == 0) }
    {
        self.bytes.is_empty()
    }

    /// The bytes that were kept.
    pub fn as_slice(&self) -> &[u8]
        ensures { result.now ≡ self.now }
    {
        self.bytes.as_slice()
    }

    /// Appends further bytes of the line, as far as there is room.
    pub fn keep(&mut self, bytes: &[u8])
        ensures { self.new ≡ take (longest_line + 1) (self.old ++ bytes.now) }
    {
        let room = LONGEST_LINE + 1 - self.bytes.len();
        let kept = room.min(bytes.len());
        match self.bytes.extend_from_slice(&bytes[..kept]) {
            Ok(()) => {}
            Err(_) => unreachable!(),
        }
    }

    /// Begins the next line.
    pub fn clear(&mut self)
        ensures { self.new ≡ [] }
    {
        self.bytes.clear();
    }
}

/// What comes before the first line feed, and what follows it; `None` where no line ends. It takes no memory.
pub fn first_line(bytes: &[u8]) -> Option<(&[u8], &[u8])>
    ensures line { IfSome result (λ found. list_any is_line_feed found.0.now ≡ false) }
    ensures whole { IfSome result (λ found. bytes.now ≡ (found.0.now ++ line_feed ∷ []) ++ found.1.now) }
    ensures none { IfNone result (list_any is_line_feed bytes.now ≡ false) }
{
    match memchr(b'\n', bytes) {
        Some(end) => Some((&bytes[..end], &bytes[end + 1..])),
        None => None,
    }
}
