//! What all crates of the policy tool use for bytes: prefixes of texts, sets of bytes and of bits, growable lists, bytes with several owners, and
//! numbers looked up by name; and how names and paths are printed: in quotes, or in hexadecimal.
#![tactic(auto)]

mod bits;
mod byte_map;
mod byte_set;
mod bytes;
mod name_map;
mod quoting;
mod sequence;
mod shared_bytes;

pub use bits::{byte_has_bit, byte_with_bit, clear_bit, has_bit, set_bit};
pub use byte_map::ByteMap;
pub use byte_set::{ByteRange, ByteSet, is_inside};
pub use bytes::{begins_with, begins_with_byte, behind, has_byte, length_while};
pub use name_map::NameMap;
pub use quoting::{are_shown, push_quoted, push_text, two_digits, written_size};
pub use sequence::Sequence;
pub use shared_bytes::{SharedBytes, share_option};
