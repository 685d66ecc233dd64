//! The rules and attachments by which a ready profile decides, or a child or hat of it.

ghost use Rattle.std.specs.Prelude.{◌≡◌, true, IfOk, OnOk, OnErr};
ghost use Rattle.std.specs.List.{All};
ghost use Rattle.std.specs.List.Sorted.{IsStrictlyIncreasing};
ghost use Rattle.aa_glob_syntax.specs.Patterns.{AreMatching};
ghost use Rattle.aa_glob_pattern.specs.Beginnings.{HasStates};
ghost use Rattle.aa_decide_ready.specs.Visits.{AreAllStepsOf, AreAllVisitsOf, AreFewStates, AreStepsOf, AreVisitsOf, attachments_at};
ghost use Rattle.aa_profile_data.specs.ConflictLaws.{HasReadPattern};
ghost use Rattle.aa_profile_data.specs.Conflicts.{agree};
ghost use Rattle.aa_profile_data.specs.FileRules.{file_patterns};
ghost use Rattle.aa_profile_data.specs.Matching.{AreMatchingRules};
ghost use Rattle.aa_decide_ready.specs.Ready.{rules_at};
ghost use Rattle.aa_decide_rules.specs.Verdict.{is_for_file};
ghost use Rattle.aa_profile_data.specs.SeenRequests.{request_of};

use crate::ready::Ready;
use aa_decide_rules::{
    Mediation, Verdict, found_verdict, matching_rules, rules_verdict, what_matching_rules_decide,
};
use aa_glob_nfa::Steps;
use aa_glob_pattern::{Pattern, how_many_states_there_are};
use aa_profile_data::{Request, Rule, which_rules_match};
use std::alloc::{AllocError, Global};

/// The rules and attachments of a ready profile, or of a child or hat of it, lent. One that doesn't exist has no rules and no attachments.
#[derive(Clone, Copy)]
pub struct ReadySection<'a> {
    /// Whether its flag `audit` applies to each of its rules.
    pub audit: bool,
    /// The rules by which it decides; those of its parent or children play no part.
    pub rules: &'a [Rule],
    /// The patterns of its attachments.
    pub attachments: &'a [Pattern],
    // The profile,
    ready: &'a Ready,
    // and the index of the child or hat among its children; `None` where it is the profile itself.
    child: Option<usize>,
    ghost own: { rules.now ≡ rules_at ready.now child },
    ghost attached: { attachments.now ≡ attachments_at ready.now child },
}

// The pattern of a rule on files reads.
fn pattern_reads(rule: &Rule)
    ensures { HasReadPattern rule.now }
{
    if let Rule::File(rule) = rule {
        let _text = rule.pattern.text();
    }
}

// The patterns of all of some rules read.
fn patterns_read(rules: &[Rule])
    ensures { All HasReadPattern rules.now }
{
    let mut rest = rules;
    while let [rule, behind @ ..] = rest {
        pattern_reads(rule);
        rest = behind;
    }
}

impl Ready {
    ghost use Rattle.aa_decide_ready.specs.Sections.{section_at};
    ghost use Rattle.aa_decide_ready.specs.SeenSections.{seen_section};

    /// The rules and attachments of the profile, or of its child or hat at an index. It takes no memory.
    pub fn section(&self, child: Option<usize>) -> ReadySection<'_>
        ensures { seen_section result ≡ section_at self.now child }
    {
        let profile = &self.profile;
        match child {
            None => ReadySection {
                audit: profile.audit,
                rules: profile.rules.as_slice(),
                attachments: profile.attachments.as_slice(),
                ready: self,
                child,
            },
            Some(place) => match profile.children.as_slice().get(place) {
                None => ReadySection {
                    audit: false,
                    rules: &[],
                    attachments: &[],
                    ready: self,
                    child,
                },
                Some(own) => ReadySection {
                    audit: own.audit,
                    rules: own.rules.as_slice(),
                    attachments: own.attachments.as_slice(),
                    ready: self,
                    child,
                },
            },
        }
    }
}

impl<'a> ReadySection<'a> {
    ghost use Rattle.aa_decide_ready.specs.Sections.{decided_by};
    ghost use Rattle.aa_decide_ready.specs.SeenSections.{seen_section};

    /// No two of the rules conflict, and the patterns of those on files read (docs/policy.md, "Rules that conflict").
    pub fn rules_agree(self)
        ensures agree { agree self.entry.rules.now ≡ true }
        ensures read { All HasReadPattern self.entry.rules.now }
    {
        let ready = self.ready;
        let _profile = &ready.profile;
        patterns_read(self.rules);
    }

    /// How many states the automaton has that decides requests for files (docs/policy.md, "Decisions").
    ///
    /// # Errors
    ///
    /// Where memory runs out: an automaton that isn't built yet is built for this.
    pub fn states(self, alloc: Global) -> Result<usize, AllocError>
        ensures states { IfOk result (HasStates (file_patterns self.entry.rules.now)) }
        ensures few { IfOk result (AreFewStates self.entry.rules.now) }
    {
        how_many_states_there_are();
        match self.ready.part_at(self.child) {
            None => Ok(0),
            Some(part) => part.states(alloc, self.rules),
        }
    }

    /// The places of the rules on files whose pattern matches a path, in rising order. One automaton finds them.
    ///
    /// # Errors
    ///
    /// Where memory runs out.
    pub fn matching_rules(
        self,
        alloc: Global,
        path: &[u8],
        steps: &mut Steps,
    ) -> Result<Vec<usize>, AllocError>
        ensures found { IfOk result (λ places. AreMatchingRules self.entry.rules.now path.now places.items) }
        ensures rise { IfOk result (λ places. IsStrictlyIncreasing places.items) }
        ensures steps { AreVisitsOf (file_patterns self.entry.rules.now) path.now steps.old steps.new }
        ensures all { OnOk result (AreAllVisitsOf (file_patterns self.entry.rules.now) path.now steps.old steps.new) }
    {
        match self.ready.part_at(self.child) {
            None => Ok(Vec::new(alloc)),
            Some(part) => part.matching_rules(alloc, self.rules, path, steps),
        }
    }

    // Whether the automaton of the file rules is built.
    fn is_built(self) -> bool {
        match self.ready.part_at(self.child) {
            None => false,
            Some(part) => part.is_built(),
        }
    }

    /// The places of the rules on files whose pattern matches a path, in rising order, as [`ReadySection::matching_rules`] finds them, for who asks
    /// once: no visits are counted, and where no automaton is built yet none is, but each rule is tried by itself.
    ///
    /// # Errors
    ///
    /// Where memory runs out.
    pub fn matching_once(self, alloc: Global, path: &[u8]) -> Result<Vec<usize>, AllocError>
        ensures found { IfOk result (λ places. AreMatchingRules self.entry.rules.now path.now places.items) }
        ensures rise { IfOk result (λ places. IsStrictlyIncreasing places.items) }
    {
        if self.is_built() {
            self.matching_rules(alloc, path, &mut Steps::new())
        } else {
            matching_rules(alloc, self.rules, path)
        }
    }

    /// The places of the attachments that match a path, in rising order. One automaton finds them.
    ///
    /// # Errors
    ///
    /// Where memory runs out.
    pub fn matching_attachments(
        self,
        alloc: Global,
        path: &[u8],
        steps: &mut Steps,
    ) -> Result<Vec<usize>, AllocError>
        ensures found { IfOk result (λ places. AreMatching self.entry.attachments.now path.now places.items) }
        ensures rise { IfOk result (λ places. IsStrictlyIncreasing places.items) }
        ensures steps { AreVisitsOf self.entry.attachments.now path.now steps.old steps.new }
        ensures all { OnOk result (AreAllVisitsOf self.entry.attachments.now path.now steps.old steps.new) }
    {
        match self.ready.part_at(self.child) {
            None => Ok(Vec::new(alloc)),
            Some(part) => part.matching_attachments(alloc, path, steps),
        }
    }

    /// Decides a request by the rules of the profile, child or hat itself; those of its parent or children play no part (apparmor.d(5);
    /// docs/policy.md, "Decisions"). One that doesn't exist allows nothing. For a file, one automaton is run over the path, whose visits `steps`
    /// counts; for any other request the rules are gone over, in `O(n)` for n rules and without memory.
    ///
    /// # Errors
    ///
    /// Where memory runs out for a request for a file; for any other there is no error.
    pub fn decide(
        self,
        alloc: Global,
        mediation: Mediation,
        request: &Request<'_>,
        steps: &mut Steps,
    ) -> Result<Verdict, AllocError>
        ensures verdict { IfOk result (λ verdict. verdict ≡ decided_by (seen_section self.entry) mediation (request_of request.entry.now)) }
        ensures steps { AreStepsOf self.entry.rules.now (request_of request.entry.now) steps.old steps.new }
        ensures all { OnOk result (AreAllStepsOf self.entry.rules.now (request_of request.entry.now) steps.old steps.new) }
        ensures memory { OnErr result (is_for_file (request_of request.entry.now) ≡ true) }
    {
        what_matching_rules_decide();
        which_rules_match();
        let (audit, rules) = (self.audit, self.rules);
        match request {
            Request::File { path, owned, .. } => {
                let places = self.matching_rules(alloc, path, steps)?;
                Ok(found_verdict(mediation, audit, rules, places.as_slice(), request, *owned))
            }
            Request::Cap(_) => Ok(rules_verdict(mediation, audit, rules, request)),
            Request::Net { .. } => Ok(rules_verdict(mediation, audit, rules, request)),
        }
    }

    /// Decides a request as [`ReadySection::decide`], for who asks once: no visits are counted, and where no automaton is built yet none is, but the
    /// rules are gone over, without memory.
    ///
    /// # Errors
    ///
    /// Where memory runs out for a request for a file; for any other there is no error.
    pub fn decide_once(
        self,
        alloc: Global,
        mediation: Mediation,
        request: &Request<'_>,
    ) -> Result<Verdict, AllocError>
        ensures verdict { IfOk result (λ verdict. verdict ≡ decided_by (seen_section self.entry) mediation (request_of request.entry.now)) }
        ensures memory { OnErr result (is_for_file (request_of request.entry.now) ≡ true) }
    {
        if self.is_built() {
            self.decide(alloc, mediation, request, &mut Steps::new())
        } else {
            Ok(rules_verdict(mediation, self.audit, self.rules, request))
        }
    }
}
