//! What the printing of rules needs.

use crate::wanted::Wanted;
use aa_decide::IndexedSlots;
use aatry_abstractions::LettingAbstraction;
use aatry_policy::Origin;
use aatry_report::Teller;

/// What the printing of rules needs.
#[derive(Clone, Copy)]
pub struct RuleTelling<'l, 't> {
    /// The form in which they are printed.
    pub teller: Teller,
    /// Whether wider rules are asked for.
    pub globs: bool,
    /// The path of the folder of policy.
    pub base: &'l [u8],
    /// Where the loaded profiles were read.
    pub origins: &'l [Origin],
    /// The policy set.
    pub slots: &'l IndexedSlots<'l>,
    /// All wanted requests, in the order in which they are printed.
    pub wanted: &'l [Wanted<'t>],
    /// The abstractions that allow some of them, by their indexes.
    pub abstractions: &'l [LettingAbstraction],
}
