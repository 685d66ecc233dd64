//! Classes of leads: two leads are of one class where their transitions are the same.

ghost use Rattle.std.specs.Prelude.{◌≡◌, ◌++◌, ◌∷◌, [], List, IfOk, OnOk};
ghost use Rattle.aa_profile_conflicts.specs.Classes.{AddsRule, AreClassesOfLeads, AreKeyed, IsClassIn, is_class_of, key_of, seen_transitions};
ghost use Rattle.aa_profile_conflicts.specs.Leads.{leads};
ghost use Rattle.aa_profile_data.specs.Conflicts.{Lead};

use crate::lead::lead_by;
use aa_bytes::NameMap;
use aa_profile_data::{Rank, Rule, Transition};
use std::alloc::{AllocError, Global};

/// The classes of some leads.
#[derive(Drop)]
pub struct Classes<'a> {
    /// The different transitions.
    pub transitions: Vec<&'a Transition>,
    /// The class of each lead: the index of its transition in `transitions`.
    pub classes: Vec<u32>,
    // The class of a transition with this key.
    by_key: NameMap,
}

// Whether the transition of a class is the same as another.
fn is_class_of(transitions: &[&Transition], class: usize, transition: &Transition) -> bool
    ensures { result ≡ is_class_of (seen_transitions transitions.now) class transition.now }
{
    match transitions.get(class) {
        None => false,
        Some(own) => own.is_same(transition),
    }
}

// The class of a transition, or `None` where it is not among these.
fn class_among(transitions: &[&Transition], transition: &Transition) -> Option<usize>
    ensures { IsClassIn (seen_transitions transitions.now) transition.now result }
{
    for class in 0..transitions.len() {
        if is_class_of(transitions, class, transition) {
            return Some(class);
        }
    }
    None
}

// By what a transition is looked up: its exec word, and its target.
fn key_of(alloc: Global, transition: &Transition) -> Result<Vec<u8>, AllocError>
    ensures { IfOk result (λ key. key.items ≡ key_of transition.now) }
{
    let mut key = Vec::from_slice(alloc, transition.word.text().as_bytes())?;
    if let Some(target) = &transition.target {
        key.extend_from_slice(target.as_slice())?;
    }
    Ok(key)
}

// The class of a transition with this key, or `None` where it is not among these. All are gone over only where a transition that isn't the same has
// its key, which none has: no exec word begins with another.
fn class_of(
    transitions: &[&Transition],
    by_key: &NameMap,
    key: &[u8],
    transition: &Transition,
) -> Option<usize>
    requires keyed { AreKeyed (seen_transitions transitions.now) by_key.now }
    requires key { key.now ≡ key_of transition.now }
    ensures { IsClassIn (seen_transitions transitions.now) transition.now result }
{
    match by_key.get(key) {
        None => None,
        Some(class) => {
            if is_class_of(transitions, class, transition) {
                Some(class)
            } else {
                class_among(transitions, transition)
            }
        }
    }
}

// Appends a class.
fn push_class(classes: &mut Vec<u32>, class: usize) -> Result<(), AllocError>
    ensures { OnOk result (classes.new.items ≡ classes.old.items ++ class ∷ []) }
{
    if class > u32::MAX as usize {
        return Err(AllocError);
    }
    classes.push(class as u32)?;
    Ok(())
}

impl<'a> Classes<'a> {
    // Adds a lead, by its transition.
    fn add(&mut self, alloc: Global, transition: &'a Transition) -> Result<(), AllocError>
        requires { AreKeyed (seen_transitions self.old.transitions.items) self.old.by_key }
        ensures keyed { OnOk result (AreKeyed (seen_transitions self.new.transitions.items) self.new.by_key) }
        ensures classes { OnOk result ((leads : List Lead) (lead : Lead)
            → lead.transition ≡ transition.now
            → AreClassesOfLeads self.old leads
            → AreClassesOfLeads self.new (leads ++ lead ∷ [])) }
    {
        let key = key_of(alloc, transition)?;
        match class_of(&self.transitions, &self.by_key, &key, transition) {
            Some(class) => push_class(&mut self.classes, class),
            None => {
                let class = self.transitions.len();
                self.by_key.insert(alloc, &key, class)?;
                self.transitions.push(transition)?;
                push_class(&mut self.classes, class)
            }
        }
    }

    // Adds the lead of a rule, if it has one with this rank.
    fn add_rule(&mut self, alloc: Global, rank: Rank, rule: &'a Rule) -> Result<(), AllocError>
        requires { AreKeyed (seen_transitions self.old.transitions.items) self.old.by_key }
        ensures keyed { OnOk result (AreKeyed (seen_transitions self.new.transitions.items) self.new.by_key) }
        ensures classes { OnOk result (AddsRule rank rule.now self.old self.new) }
    {
        match lead_by(rank, rule) {
            None => Ok(()),
            Some(lead) => self.add(alloc, lead.transition),
        }
    }
}

/// The classes of the leads that some rules have with this rank. It takes `O(n log n)` comparisons of targets for n rules.
///
/// # Errors
///
/// Where memory runs out.
pub fn classes_of(alloc: Global, rank: Rank, rules: &[Rule]) -> Result<Classes<'_>, AllocError>
    ensures { IfOk result (λ classes. AreClassesOfLeads classes (leads rank rules.now)) }
{
    let mut classes = Classes {
        transitions: Vec::new(alloc),
        classes: Vec::new(alloc),
        by_key: NameMap::new(alloc),
    };
    for rule in rules {
        classes.add_rule(alloc, rank, rule)?;
    }
    Ok(classes)
}
