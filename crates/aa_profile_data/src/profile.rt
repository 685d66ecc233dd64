//! Profiles, their children and hats, and their rules, as plain data: names and texts are lists of bytes.

ghost use Rattle.std.specs.Prelude.{◌≡◌, IfOk};
ghost use Rattle.aa_profile_data.specs.Conflicts.{same_target, same_transition};
ghost use Rattle.aa_profile_data.specs.Profile.{child_place};
ghost use Rattle.aa_profile_data.specs.Ranks.{same_rank};

use crate::access::Perms;
use crate::exec_word::ExecWord;
use aa_bytes::{Sequence, SharedBytes, share_option};
use aa_glob_pattern::Pattern;
use std::alloc::{AllocError, Global};

/// What happens to requests that no rule allows.
#[derive(Clone, Copy, Debug, PartialEq, Eq)]
pub enum Mode {
    /// What the rules don't allow is refused.
    Enforce,
    /// What the rules don't allow is allowed and logged, unless a rule denies it.
    Complain,
    /// No rule is looked at: all is allowed, and nothing is logged.
    Unconfined,
}

/// Which exec rules decide under which profile a program runs: of those that apply to its path the ones of the highest rank (docs/policy.md, "The
/// start of a program"). The rank of a rule without an exec word decides nothing.
#[derive(Clone, Copy, Debug, PartialEq, Eq)]
pub enum Rank {
    /// Lower than all others.
    Last,
    /// The rank of a pattern that isn't plain.
    Loose,
    /// The rank of a plain pattern, higher than all others.
    Plain,
}

impl Rank {
    /// Whether another rank is the same. It takes no memory.
    pub fn is_same(self, other: Rank) -> bool
        ensures { result ≡ same_rank self other }
    {
        match (self, other) {
            (Rank::Last, Rank::Last) => true,
            (Rank::Loose, Rank::Loose) => true,
            (Rank::Plain, Rank::Plain) => true,
            _ => false,
        }
    }
}

/// Under which profile a program runs that a rule allows to be started.
#[derive(Debug, Drop)]
pub struct Transition {
    /// The exec word.
    pub word: ExecWord,
    /// The name of the profile, child or hat that the rule names; `None` where it names none. All rules that one written rule makes share it.
    pub target: Option<SharedBytes>,
}

/// A rule on files.
#[derive(Debug, Drop)]
pub struct FileRule {
    /// The pattern of the paths that it covers.
    pub pattern: Pattern,
    /// The access letters; the bare `x` of a deny rule is among them.
    pub access: Perms,
    /// Under which profile the programs run that it allows to be started; `None` where it has no exec word.
    pub exec: Option<Transition>,
    /// Which exec rules come before it in deciding `exec`.
    pub rank: Rank,
    /// The target of hard links that it names, which decides nothing. All rules that one written rule makes share it.
    pub link: Option<SharedBytes>,
    /// Whether it applies only where the task's user owns the file.
    pub owner: bool,
    /// Whether it denies what it covers.
    pub deny: bool,
    /// Whether what it decides is logged.
    pub audit: bool,
}

/// A rule on capabilities.
#[derive(Clone, Copy, Debug, PartialEq, Eq)]
pub struct CapRule {
    /// The set of the capabilities that it covers: bit n is set for the capability of number n.
    pub caps: u64,
    /// Whether it denies what it covers.
    pub deny: bool,
    /// Whether what it decides is logged.
    pub audit: bool,
}

/// A rule on sockets.
#[derive(Clone, Copy, Debug, PartialEq, Eq)]
pub struct NetRule {
    /// The number of the domain that it covers; `None` where it covers all.
    pub domain: Option<u8>,
    /// The number of the type or the protocol that it covers; `None` where it covers all.
    pub kind: Option<u8>,
    /// Whether it denies what it covers.
    pub deny: bool,
    /// Whether what it decides is logged.
    pub audit: bool,
}

/// A rule of a kind that isn't modelled: it decides nothing here, and is kept and shown as it is written.
#[derive(Debug, Drop)]
pub struct OtherRule {
    /// Its text without the qualifiers before it and without the Comma at its end, one blank between two tokens but none before a comma.
    pub text: Sequence<u8>,
    /// Whether `owner` comes before it.
    pub owner: bool,
    /// Whether `deny` comes before it.
    pub deny: bool,
    /// Whether `audit` comes before it.
    pub audit: bool,
}

/// A rule.
#[derive(Debug, Drop)]
pub enum Rule {
    /// A rule on files.
    File(FileRule),
    /// A rule on capabilities.
    Cap(CapRule),
    /// A rule on sockets.
    Net(NetRule),
    /// A rule that decides nothing here.
    Other(OtherRule),
}

/// A child of a profile, or a hat.
#[derive(Debug, Drop)]
pub struct Child {
    /// The name, which no other child or hat of the profile has.
    pub name: Sequence<u8>,
    /// Whether it is a hat.
    pub hat: bool,
    /// The patterns of the programs that it attaches to; a hat has none.
    pub attachments: Sequence<Pattern>,
    /// Whether what each of its rules decides is logged.
    pub audit: bool,
    /// The mode that its own flags set.
    pub mode: Mode,
    /// The rules, in the order of the file.
    pub rules: Sequence<Rule>,
}

/// A profile.
#[derive(Debug)]
pub struct Profile {
    /// The name.
    pub name: Sequence<u8>,
    /// The patterns of the programs that it attaches to.
    pub attachments: Sequence<Pattern>,
    /// Whether what each of its rules decides is logged; this doesn't apply to its children.
    pub audit: bool,
    /// The mode that its own flags set.
    pub mode: Mode,
    /// The rules, in the order of the file.
    pub rules: Sequence<Rule>,
    /// The children and hats, in the order of the file.
    pub children: Sequence<Child>,
}

impl Drop for Profile {
    // Proved here, once for all crates that own a profile.
    fn drop(self) {
        let Profile {
            name,
            attachments,
            audit: _,
            mode: _,
            rules,
            children,
        } = self;
        drop(name);
        drop(attachments);
        drop(rules);
        drop(children);
    }
}

// Whether two transitions name the same target, or neither names one.
pub fn same_target(one: &Option<SharedBytes>, other: &Option<SharedBytes>) -> bool
    ensures { result ≡ same_target one.now other.now }
{
    match (one, other) {
        (None, None) => true,
        (Some(one), Some(other)) => one.as_slice() == other.as_slice(),
        _ => false,
    }
}

impl Transition {
    /// Whether another transition has the same exec word, and the same target or none as this one. It takes no memory.
    pub fn is_same(&self, other: &Transition) -> bool
        ensures { result ≡ same_transition self.now other.now }
    {
        self.word.is_same(other.word) && same_target(&self.target, &other.target)
    }

    // A copy of the transition, which shares the target. It takes no memory.
    fn try_copy(&self) -> Result<Transition, AllocError>
        ensures { IfOk result (λ copy. copy ≡ self.now) }
    {
        Ok(Transition {
            word: self.word,
            target: share_option(&self.target)?,
        })
    }
}

// A copy of the transition, where there is one. It takes no memory.
fn copied_transition(exec: &Option<Transition>) -> Result<Option<Transition>, AllocError>
    ensures { IfOk result (λ copy. copy ≡ exec.now) }
{
    match exec {
        None => Ok(None),
        Some(transition) => Ok(Some(transition.try_copy()?)),
    }
}

impl FileRule {
    // A copy of the rule, which shares the names of targets.
    fn try_copy(&self, alloc: Global) -> Result<FileRule, AllocError>
        ensures { IfOk result (λ copy. copy ≡ self.now) }
    {
        Ok(FileRule {
            pattern: self.pattern.try_copy(alloc)?,
            access: self.access,
            exec: copied_transition(&self.exec)?,
            rank: self.rank,
            link: share_option(&self.link)?,
            owner: self.owner,
            deny: self.deny,
            audit: self.audit,
        })
    }
}

impl OtherRule {
    // A copy of the rule.
    fn try_copy(&self, alloc: Global) -> Result<OtherRule, AllocError>
        ensures { IfOk result (λ copy. copy ≡ self.now) }
    {
        Ok(OtherRule {
            text: Sequence::from_slice(alloc, self.text.as_slice())?,
            owner: self.owner,
            deny: self.deny,
            audit: self.audit,
        })
    }
}

impl Rule {
    /// A copy of the rule, which shares the names of targets.
    ///
    /// # Errors
    ///
    /// Where memory runs out.
    pub fn try_copy(&self, alloc: Global) -> Result<Rule, AllocError>
        ensures { IfOk result (λ copy. copy ≡ self.now) }
    {
        match self {
            Rule::File(rule) => Ok(Rule::File(rule.try_copy(alloc)?)),
            Rule::Cap(rule) => Ok(Rule::Cap(*rule)),
            Rule::Net(rule) => Ok(Rule::Net(*rule)),
            Rule::Other(rule) => Ok(Rule::Other(rule.try_copy(alloc)?)),
        }
    }
}

impl Child {
    // A copy of the child.
    fn try_copy(&self, alloc: Global) -> Result<Child, AllocError>
        ensures { IfOk result (λ copy. copy ≡ self.now) }
    {
        let name = Sequence::from_slice(alloc, self.name.as_slice())?;
        let attachments = copied_patterns(alloc, self.attachments.as_slice())?;
        let rules = copied_rules(alloc, self.rules.as_slice())?;
        Ok(Child {
            name,
            hat: self.hat,
            attachments: Sequence::from_vec(attachments),
            audit: self.audit,
            mode: self.mode,
            rules: Sequence::from_vec(rules),
        })
    }
}

impl Profile {
    /// A copy of the profile, which shares the names of rules' targets. `O(n)` in its size.
    ///
    /// # Errors
    ///
    /// Where memory runs out.
    pub fn try_copy(&self, alloc: Global) -> Result<Profile, AllocError>
        ensures { IfOk result (λ copy. copy ≡ self.now) }
    {
        let name = Sequence::from_slice(alloc, self.name.as_slice())?;
        let attachments = copied_patterns(alloc, self.attachments.as_slice())?;
        let rules = copied_rules(alloc, self.rules.as_slice())?;
        let children = copied_children(alloc, self.children.as_slice())?;
        Ok(Profile {
            name,
            attachments: Sequence::from_vec(attachments),
            audit: self.audit,
            mode: self.mode,
            rules: Sequence::from_vec(rules),
            children: Sequence::from_vec(children),
        })
    }
}

fn copied_patterns(alloc: Global, patterns: &[Pattern]) -> Result<Vec<Pattern>, AllocError>
    ensures { IfOk result (λ copies. copies.items ≡ patterns.now) }
{
    let mut copies = Vec::with_capacity(alloc, patterns.len())?;
    for pattern in patterns {
        copies.push(pattern.try_copy(alloc)?)?;
    }
    Ok(copies)
}

fn copied_rules(alloc: Global, rules: &[Rule]) -> Result<Vec<Rule>, AllocError>
    ensures { IfOk result (λ copies. copies.items ≡ rules.now) }
{
    let mut copies = Vec::with_capacity(alloc, rules.len())?;
    for rule in rules {
        copies.push(rule.try_copy(alloc)?)?;
    }
    Ok(copies)
}

fn copied_children(alloc: Global, children: &[Child]) -> Result<Vec<Child>, AllocError>
    ensures { IfOk result (λ copies. copies.items ≡ children.now) }
{
    let mut copies = Vec::with_capacity(alloc, children.len())?;
    for child in children {
        copies.push(child.try_copy(alloc)?)?;
    }
    Ok(copies)
}

/// The index of the child or hat of a name, or `None` where none has it. It takes no memory; `O(n)` comparisons of names for n children.
pub fn child_place(name: &[u8], children: &[Child]) -> Option<usize>
    ensures { result ≡ child_place name.now children.now }
{
    children
        .iter()
        .position(|child| child.name.as_slice() == name)
}
