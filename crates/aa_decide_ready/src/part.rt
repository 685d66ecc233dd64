//! Automata of a profile, and of each of its children and hats.

ghost use Rattle.std.specs.Prelude.{◌≡◌, ◌++◌, ◌∷◌, [], ℕ, List, slice_get, IfOk, OnOk};
ghost use Rattle.std.specs.List.Sorted.{IsStrictlyIncreasing};
ghost use Rattle.aa_glob.specs.Automata.{IsAutomatonOf};
ghost use Rattle.aa_glob_syntax.specs.Patterns.{AreMatching};
ghost use Rattle.aa_glob.specs.Built.{IsBuilt};
ghost use Rattle.aa_glob_pattern.specs.Beginnings.{HasStates};
ghost use Rattle.aa_decide_ready.specs.Visits.{AreAllVisitsOf, AreFewStates, AreVisitsOf};
ghost use Rattle.aa_profile_data.specs.Matching.{AreMatchingRules};
ghost use Rattle.aa_decide_ready.specs.FileAutomata.{AreFileRulesOf};
ghost use Rattle.aa_decide_ready.specs.code.Parts.{ArePartsOf, HoldsOf, IsPartOf};
ghost use Rattle.aa_profile_data.specs.FileRules.{places_from, file_patterns};
ghost use Rattle.aa_profile_data.specs.Picked.{picked};

use aa_bytes::Sequence;
use aa_glob::{Automaton, AutomatonBuilder};
use aa_glob_nfa::Steps;
use aa_glob_pattern::Pattern;
use aa_profile_data::{Child, Rule, which_rules_match};
use std::alloc::{AllocError, Global};

/// The automaton of the file rules among some rules, and the places of these, for many paths.
#[derive(Drop)]
pub struct FileRules {
    // The automaton of their patterns, in the order of the rules.
    automaton: Automaton,
    // Their places (indices) among all rules.
    places: Sequence<usize>,
}

/// The automata of a profile, or of a child or hat.
#[derive(Drop)]
pub struct Part {
    // The automaton of the file rules, once a path was remembered.
    files: Option<FileRules>,
    // The automaton of the attachments.
    attachments: Automaton,
}

// Adds the pattern of a rule, if it is a file rule.
fn with_file(
    builder: AutomatonBuilder,
    alloc: Global,
    rule: &Rule,
) -> Result<AutomatonBuilder, AllocError>
    ensures { IfOk result (λ added. (patterns : List (List ℕ))
        → IsBuilt builder patterns
        → IsBuilt added (patterns ++ file_patterns (rule.now ∷ []))) }
{
    match rule {
        Rule::File(rule) => builder.add(alloc, &rule.pattern),
        _ => Ok(builder),
    }
}

/// Adds the patterns of the file rules among some rules, in their order.
///
/// # Errors
///
/// Where memory runs out, and where there are more than 4,294,967,295 patterns or states.
pub fn with_files(
    builder: AutomatonBuilder,
    alloc: Global,
    rules: &[Rule],
) -> Result<AutomatonBuilder, AllocError>
    ensures { IfOk result (λ added. (patterns : List (List ℕ))
        → IsBuilt builder patterns
        → IsBuilt added (patterns ++ file_patterns rules.now)) }
{
    let mut added = builder;
    for rule in rules {
        added = with_file(added, alloc, rule)?;
    }
    Ok(added)
}

// The automaton of the patterns of the file rules.
fn files_of(alloc: Global, rules: &[Rule]) -> Result<Automaton, AllocError>
    ensures { IfOk result (λ automaton. IsAutomatonOf automaton (file_patterns rules.now)) }
{
    let builder = AutomatonBuilder::new(alloc)?;
    let added = with_files(builder, alloc, rules)?;
    Ok(added.finish())
}

/// The places (indices) of the file rules among some rules, in rising order.
///
/// # Errors
///
/// Where memory runs out.
pub fn file_places(alloc: Global, rules: &[Rule]) -> Result<Vec<usize>, AllocError>
    ensures { IfOk result (λ places. places.items ≡ places_from 0 rules.now) }
{
    let mut places = Vec::new(alloc);
    let mut place: usize = 0;
    let mut rest = rules;
    while let [rule, behind @ ..] = rest {
        if let Rule::File(_) = rule {
            places.push(place)?;
        }
        place += 1;
        rest = behind;
    }
    Ok(places)
}

/// Replaces places by the numbers that a list has there, in the order of the places. Places past the end are left out. It takes no memory; `O(n)` in
/// the number of places.
pub fn pick(numbers: &[usize], places: &mut Vec<usize>)
    ensures { places.new.items ≡ picked numbers.now places.old.items }
{
    let mut kept = 0;
    for at in 0..places.len() {
        if let Some(number) = number_at(numbers, places[at]) {
            places[kept] = number;
            kept += 1;
        }
    }
    places.truncate(kept);
}

// The number that a list has at a place, if it has one.
fn number_at(numbers: &[usize], place: usize) -> Option<usize>
    ensures { result ≡ slice_get numbers.now place }
{
    numbers.get(place).copied()
}

/// The numbers that a list has at some places, as [`pick`] finds them.
///
/// # Errors
///
/// Where memory runs out.
pub fn picked(alloc: Global, numbers: &[usize], places: &[usize]) -> Result<Vec<usize>, AllocError>
    ensures { IfOk result (λ found. found.items ≡ picked numbers.now places.now) }
{
    let mut found = Vec::from_slice(alloc, places)?;
    pick(numbers, &mut found);
    Ok(found)
}

impl FileRules {
    /// The automaton of the file rules among these.
    ///
    /// # Errors
    ///
    /// Where memory runs out.
    pub fn build(alloc: Global, rules: &[Rule]) -> Result<FileRules, AllocError>
        ensures { IfOk result (λ made. AreFileRulesOf made rules.now) }
    {
        let automaton = files_of(alloc, rules)?;
        let places = file_places(alloc, rules)?;
        Ok(FileRules {
            automaton,
            places: Sequence::from_vec(places),
        })
    }

    // How many states the automaton has.
    fn states(&self) -> usize
        ensures states { (rules : List Rule) → AreFileRulesOf self.now rules → HasStates (file_patterns rules) result }
        ensures few { (rules : List Rule) → AreFileRulesOf self.now rules → AreFewStates rules result }
    {
        self.automaton.states()
    }

    /// The places of the file rules whose pattern matches a path, in rising order, among the rules of which the automaton was made.
    ///
    /// # Errors
    ///
    /// Where memory runs out.
    pub fn matching(
        &self,
        alloc: Global,
        path: &[u8],
        steps: &mut Steps,
    ) -> Result<Vec<usize>, AllocError>
        ensures found { IfOk result (λ places. (rules : List Rule) → AreFileRulesOf self.now rules → AreMatchingRules rules path.now places.items) }
        ensures rise { IfOk result (λ places. (rules : List Rule) → AreFileRulesOf self.now rules → IsStrictlyIncreasing places.items) }
        ensures steps { (rules : List Rule) → AreFileRulesOf self.now rules → AreVisitsOf (file_patterns rules) path.now steps.old steps.new }
        ensures all { (rules : List Rule) → AreFileRulesOf self.now rules
            → OnOk result (AreAllVisitsOf (file_patterns rules) path.now steps.old steps.new) }
    {
        which_rules_match();
        let mut found = self.automaton.matching(alloc, path, steps)?;
        pick(self.places.as_slice(), &mut found);
        Ok(found)
    }

    // Remembers which states are live at the places of a path (`Automaton::remember`), and returns whether all of this is remembered now.
    fn remember(&mut self, alloc: Global, path: &[u8]) -> bool
        ensures { self.new ≡ self.old }
    {
        self.automaton.remember(alloc, path)
    }

    // Forgets what was remembered.
    fn forget(&mut self, alloc: Global)
        ensures { self.new ≡ self.old }
    {
        self.automaton.forget(alloc);
    }
}

impl Part {
    /// The part for some rules and these attachments: the automaton of the rules isn't built yet.
    ///
    /// # Errors
    ///
    /// Where memory runs out.
    pub fn build(alloc: Global, attachments: &[Pattern]) -> Result<Part, AllocError>
        ensures { IfOk result (λ part. (rules : List Rule) → IsPartOf part rules attachments.now) }
    {
        Ok(Part {
            files: None,
            attachments: Automaton::build(alloc, attachments)?,
        })
    }

    /// How many states the automaton of the file rules has, among the rules of which the part was made.
    ///
    /// # Errors
    ///
    /// Where memory runs out: an automaton that isn't built yet is built for this.
    pub fn states(&self, alloc: Global, rules: &[Rule]) -> Result<usize, AllocError>
        ensures states { (attachments : List (List ℕ)) → IsPartOf self.now rules.now attachments
            → IfOk result (HasStates (file_patterns rules.now)) }
        ensures few { (attachments : List (List ℕ)) → IsPartOf self.now rules.now attachments → IfOk result (AreFewStates rules.now) }
    {
        match &self.files {
            Some(files) => Ok(files.states()),
            None => Ok(FileRules::build(alloc, rules)?.states()),
        }
    }

    /// The places of the file rules whose pattern matches a path, among the rules of which the part was made. An automaton that isn't built yet is
    /// built for this question alone.
    ///
    /// # Errors
    ///
    /// Where memory runs out.
    pub fn matching_rules(
        &self,
        alloc: Global,
        rules: &[Rule],
        path: &[u8],
        steps: &mut Steps,
    ) -> Result<Vec<usize>, AllocError>
        ensures found { (attachments : List (List ℕ)) → IsPartOf self.now rules.now attachments
            → IfOk result (λ places. AreMatchingRules rules.now path.now places.items) }
        ensures rise { (attachments : List (List ℕ)) → IsPartOf self.now rules.now attachments
            → IfOk result (λ places. IsStrictlyIncreasing places.items) }
        ensures steps { (attachments : List (List ℕ)) → IsPartOf self.now rules.now attachments
            → AreVisitsOf (file_patterns rules.now) path.now steps.old steps.new }
        ensures all { (attachments : List (List ℕ)) → IsPartOf self.now rules.now attachments
            → OnOk result (AreAllVisitsOf (file_patterns rules.now) path.now steps.old steps.new) }
    {
        match &self.files {
            Some(files) => files.matching(alloc, path, steps),
            None => FileRules::build(alloc, rules)?.matching(alloc, path, steps),
        }
    }

    /// Whether the automaton of the file rules is built.
    pub fn is_built(&self) -> bool {
        self.files.is_some()
    }

    /// The places of the attachments that match a path.
    ///
    /// # Errors
    ///
    /// Where memory runs out.
    pub fn matching_attachments(
        &self,
        alloc: Global,
        path: &[u8],
        steps: &mut Steps,
    ) -> Result<Vec<usize>, AllocError>
        ensures found { IfOk result (λ places. HoldsOf self.now (λ rules attachments. AreMatching attachments path.now places.items)) }
        ensures rise { IfOk result (λ places. HoldsOf self.now (λ rules attachments. IsStrictlyIncreasing places.items)) }
        ensures steps { HoldsOf self.now (λ rules attachments. AreVisitsOf attachments path.now steps.old steps.new) }
        ensures all { HoldsOf self.now (λ rules attachments. OnOk result (AreAllVisitsOf attachments path.now steps.old steps.new)) }
    {
        self.attachments.matching(alloc, path, steps)
    }

    // Builds the automaton of the file rules, if it isn't built yet and there is memory for it.
    fn make_files(&mut self, alloc: Global, rules: &[Rule])
        ensures { (attachments : List (List ℕ)) → IsPartOf self.old rules.now attachments → IsPartOf self.new rules.now attachments }
    {
        if self.files.is_some() {
            return;
        }
        if let Ok(made) = FileRules::build(alloc, rules) {
            self.files = Some(made);
        }
    }

    // Remembers which states are live at the places of a path, if the automaton of the file rules is built.
    fn remember_made(&mut self, alloc: Global, path: &[u8]) -> bool
        ensures { self.new ≡ self.old }
    {
        match &mut self.files {
            None => false,
            Some(files) => files.remember(alloc, path),
        }
    }

    /// Remembers which states are live at the places of a path, in the automaton of the file rules (`Automaton::remember`), and returns whether all
    /// of this is remembered now.
    pub fn remember(&mut self, alloc: Global, rules: &[Rule], path: &[u8]) -> bool
        ensures { (attachments : List (List ℕ)) → IsPartOf self.old rules.now attachments → IsPartOf self.new rules.now attachments }
    {
        self.make_files(alloc, rules);
        self.remember_made(alloc, path)
    }

    /// How many bytes what is remembered takes.
    pub fn remembered_bytes(&self) -> usize {
        match &self.files {
            None => 0,
            Some(files) => files.automaton.remembered_bytes(),
        }
    }

    /// Forgets what was remembered.
    pub fn forget(&mut self, alloc: Global)
        ensures { self.new ≡ self.old }
    {
        if let Some(files) = &mut self.files {
            files.forget(alloc);
        }
    }
}

/// The part of each child, in their order.
///
/// # Errors
///
/// Where memory runs out.
pub fn parts_of(alloc: Global, children: &[Child]) -> Result<Vec<Part>, AllocError>
    ensures { IfOk result (λ parts. ArePartsOf parts.items children.now) }
{
    let mut parts = Vec::with_capacity(alloc, children.len())?;
    for child in children {
        parts.push(Part::build(alloc, child.attachments.as_slice())?)?;
    }
    Ok(parts)
}
