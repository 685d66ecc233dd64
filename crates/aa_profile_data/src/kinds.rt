//! The types and protocols of sockets that a rule may name; each protocol belongs to a type (socket(2)). Together they are called kinds.

ghost use Rattle.std.specs.Prelude.{◌≡◌, option_map};
ghost use Rattle.aa_profile_data.specs.Kinds.{is_protocol, kind_name, kind_number, type_of};

use crate::table_names::{name_in, number_in};

/// The names of the kinds, each at the index that is its number. Numbers 0 to 5 are types, 6 to 8 protocols.
pub const KINDS: [&str; 9] = [
    "stream",
    "dgram",
    "seqpacket",
    "rdm",
    "raw",
    "packet",
    "tcp",
    "udp",
    "icmp",
];

/// The number of the kind of a name, or `None` where no kind has it. It takes no memory.
pub fn kind_number(name: &[u8]) -> Option<u8>
    ensures { result ≡ kind_number name.now }
{
    number_in(&KINDS, name)
}

/// The name of the kind of a number, or `None` where none has it: numbers go from 0 to 8. It takes no memory.
pub fn kind_name(number: u8) -> Option<&'static str>
    ensures { option_map (λ name. name.now) result ≡ kind_name number }
{
    name_in(&KINDS, number)
}

/// The type of a kind, by their numbers: a type's is itself, and a protocol's is the one to which it belongs. It takes no memory.
pub fn type_of(kind: u8) -> u8
    ensures { result ≡ type_of kind }
{
    match kind {
        6 => 0,
        7 => 1,
        8 => 4,
        _ => kind,
    }
}

/// Whether the kind of a number is a protocol. It takes no memory.
pub fn is_protocol(kind: u8) -> bool
    ensures { result ≡ is_protocol kind }
{
    kind >= 6
}
