//! Properties of the tables, as laws over the definitions that the calls are proved to follow.

ghost use Rattle.std.specs.Prelude.{◌≡◌, ℕ, ◌<◌, IfSome, List, map};
ghost use Rattle.aa_profile_data.specs.Capabilities.{names as capability_names, capability_number};
ghost use Rattle.aa_profile_data.specs.Domains.{names as domain_names, domain_number};
ghost use Rattle.aa_profile_data.specs.Kinds.{names as kind_names, kind_number};

use crate::capabilities::CAPABILITIES;
use crate::domains::DOMAINS;
use crate::kinds::KINDS;

/// Each table holds the names that its definition lists, in the order of their numbers, and no others.
pub fn which_names_tables_hold()
    ensures table_holds_capabilities { map (λ name. name.now) CAPABILITIES ≡ capability_names }
    ensures table_holds_domains { map (λ name. name.now) DOMAINS ≡ domain_names }
    ensures table_holds_kinds { map (λ name. name.now) KINDS ≡ kind_names }
{}

/// The number of each name is in its table: capabilities have numbers below 41, domains below 44, and kinds below 9.
pub fn which_numbers_names_have()
    ensures capabilities_are_below_41 { (name : List ℕ) → IfSome (capability_number name) (λ number. number < 41) }
    ensures domains_are_below_44 { (name : List ℕ) → IfSome (domain_number name) (λ number. number < 44) }
    ensures kinds_are_below_9 { (name : List ℕ) → IfSome (kind_number name) (λ number. number < 9) }
{}
