//! Places that programs are started to go to, compared.

ghost use Rattle.std.specs.Prelude.{◌≡◌};
ghost use Rattle.aa_explain_reach.specs.Places.{leads_somewhere, same_base, same_child, same_stand, same_to};

use aa_decide::{ExecTo, StackBase};

/// Whether a program is started that goes there. It takes no memory.
pub fn leads_somewhere(to: ExecTo<'_>) -> bool
    ensures { result ≡ leads_somewhere to.entry }
{
    match to {
        ExecTo::Profile { .. } | ExecTo::Unconfined | ExecTo::Stack { .. } | ExecTo::Null => true,
        ExecTo::Nowhere => false,
    }
}

// Whether two are the same place of a child or hat, or neither is one.
fn same_child(one: Option<usize>, other: Option<usize>) -> bool
    ensures { result ≡ same_child one other }
{
    match (one, other) {
        (None, None) => true,
        (Some(place), Some(own)) => place == own,
        _ => false,
    }
}

// Whether two stacks are on the same.
fn same_base(one: StackBase, other: StackBase) -> bool
    ensures { result ≡ same_base one other }
{
    match (one, other) {
        (
            StackBase::Profile { slot, child },
            StackBase::Profile {
                slot: own,
                child: place,
            },
        ) => slot == own && same_child(child, place),
        (StackBase::Unconfined, StackBase::Unconfined) => true,
        _ => false,
    }
}

// Whether two stacks are on the same, or neither is on anything.
fn same_stand(one: Option<StackBase>, other: Option<StackBase>) -> bool
    ensures { result ≡ same_stand one other }
{
    match (one, other) {
        (None, None) => true,
        (Some(base), Some(own)) => same_base(base, own),
        _ => false,
    }
}

/// Whether two are the same place to go: the same slot, and the same child or hat of its profile; no profile; a stack
/// on the same, of the same full names; null; or nowhere. It takes no memory.
pub fn same_to(one: ExecTo<'_>, other: ExecTo<'_>) -> bool
    ensures { result ≡ same_to one.entry other.entry }
{
    match (one, other) {
        (
            ExecTo::Profile { slot, child },
            ExecTo::Profile {
                slot: own,
                child: place,
            },
        ) => slot == own && same_child(child, place),
        (ExecTo::Unconfined, ExecTo::Unconfined) => true,
        (
            ExecTo::Stack { base, members },
            ExecTo::Stack {
                base: own,
                members: names,
            },
        ) => same_stand(base, own) && members == names,
        (ExecTo::Null, ExecTo::Null) => true,
        (ExecTo::Nowhere, ExecTo::Nowhere) => true,
        _ => false,
    }
}
