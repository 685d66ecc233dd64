//! What rules cover.

ghost use Rattle.std.specs.Prelude.{◌≡◌};
ghost use Rattle.aa_profile_data.specs.Cover.{covers_capability, covers_domain, covers_exec, covers_kind, covers_socket, has_number};

use crate::access::Perms;
use crate::domains::has_protocols;
use crate::kinds::{is_protocol, type_of};
use crate::profile::{CapRule, FileRule, NetRule};
use bitflags::Flags;

// Whether a set has a number.
fn has(set: u64, number: u8) -> bool
    ensures { result ≡ has_number set number }
{
    number < 64 && (set >> number) & 1 == 1
}

impl FileRule {
    /// Whether the rule covers the start of programs: it has an exec word, or a bare `x` (apparmor.d(5), "Execute Rules"). It takes no memory.
    pub fn covers_exec(&self) -> bool
        ensures { result ≡ covers_exec self.now }
    {
        self.exec.is_some() || self.access.contains(Perms::EXEC)
    }
}

impl CapRule {
    /// Whether the rule covers the capability of a number (apparmor.d(5), "Capability Rules"). It takes no memory.
    pub fn covers(&self, number: u8) -> bool
        ensures { result ≡ covers_capability number self.now }
    {
        has(self.caps, number)
    }
}

// Whether a rule's domain covers a domain: where the rule has none, it covers all.
fn covers_domain(own: Option<u8>, domain: u8) -> bool
    ensures { result ≡ covers_domain own domain }
{
    match own {
        None => true,
        Some(own) => own == domain,
    }
}

// Whether a rule's type or protocol covers a type in a domain: where the rule has neither, it covers all.
fn covers_kind(own: Option<u8>, domain: u8, kind: u8) -> bool
    ensures { result ≡ covers_kind own domain kind }
{
    match own {
        None => true,
        Some(own) => type_of(own) == kind && (!is_protocol(own) || has_protocols(domain)),
    }
}

impl NetRule {
    /// Whether the rule covers sockets of a type in a domain, by their numbers (apparmor.d(5), "Network Rules"): a rule without a domain covers all
    /// domains, one without a type all types, and a protocol covers its type in the domains that have protocols. It takes no memory.
    pub fn covers(&self, domain: u8, kind: u8) -> bool
        ensures { result ≡ covers_socket domain kind self.now }
    {
        covers_domain(self.domain, domain) && covers_kind(self.kind, domain, kind)
    }
}
