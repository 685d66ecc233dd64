//! The domains of sockets (socket(2)), by their numbers in this table.

ghost use Rattle.std.specs.Prelude.{◌≡◌, option_map};
ghost use Rattle.aa_profile_data.specs.Domains.{domain_name, domain_number, has_protocols};

use crate::table_names::{name_in, number_in};

/// The names of the domains, each at the index that is its number.
pub const DOMAINS: [&str; 44] = [
    "unix",
    "inet",
    "ax25",
    "ipx",
    "appletalk",
    "netrom",
    "bridge",
    "atmpvc",
    "x25",
    "inet6",
    "rose",
    "netbeui",
    "security",
    "key",
    "netlink",
    "packet",
    "ash",
    "econet",
    "atmsvc",
    "rds",
    "sna",
    "irda",
    "pppox",
    "wanpipe",
    "llc",
    "ib",
    "mpls",
    "can",
    "tipc",
    "bluetooth",
    "iucv",
    "rxrpc",
    "isdn",
    "phonet",
    "ieee802154",
    "caif",
    "alg",
    "nfc",
    "vsock",
    "kcm",
    "qipcrtr",
    "smc",
    "xdp",
    "mctp",
];

/// The number of the domain of a name, or `None` where no domain has it. It takes no memory.
pub fn domain_number(name: &[u8]) -> Option<u8>
    ensures { result ≡ domain_number name.now }
{
    number_in(&DOMAINS, name)
}

/// The name of the domain of a number, or `None` where none has it: numbers go from 0 to 43. It takes no memory.
pub fn domain_name(number: u8) -> Option<&'static str>
    ensures { option_map (λ name. name.now) result ≡ domain_name number }
{
    name_in(&DOMAINS, number)
}

/// Whether the domain of a number has protocols that rules can name: `inet` and `inet6` have. It takes no memory.
pub fn has_protocols(domain: u8) -> bool
    ensures { result ≡ has_protocols domain }
{
    domain == 1 || domain == 9
}
