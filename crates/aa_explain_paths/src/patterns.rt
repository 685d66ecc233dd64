//! The patterns by which paths are told apart.

ghost use Rattle.std.specs.Prelude.{◌≡◌, ◌≤◌, ◌++◌, ℕ, IfOk, IfSome, List, None, OnOk, length, replicate};
ghost use Rattle.aa_explain_paths.specs.Meant.{unasked_patterns};
ghost use Rattle.aa_explain_paths.specs.Telling.{classes_among, classes_of, telling_among};
ghost use Rattle.aa_glob.specs.Automata.{IsAutomatonOf};
ghost use Rattle.aa_glob.specs.Built.{IsBuilt};
ghost use Rattle.aa_glob_paths.specs.AllPaths.{TellAllPaths};
ghost use Rattle.aa_glob_paths.specs.TooMany.{AreMoreTextsThan};
ghost use Rattle.aa_profile_data.specs.FileRules.{file_patterns};

use aa_glob::{Automaton, AutomatonBuilder};
use aa_glob_paths::{Outcome, PASSED_OVER, WANTED, outcomes};
use aa_glob_pattern::Pattern;
use aa_profile_data::Rule;
use std::alloc::{AllocError, Global};

// The pattern of a text that reads as one.
fn fixed(alloc: Global, text: &[u8]) -> Result<Pattern, AllocError>
    ensures { IfOk result (λ pattern. pattern ≡ text.now) }
{
    match Pattern::read(alloc, text) {
        Ok(pattern) => Ok(pattern),
        // The text reads as a pattern, so only memory can run out.
        Err(_) => Err(AllocError),
    }
}

/// The patterns of the paths that the kernel never asks about.
///
/// # Errors
///
/// Where memory runs out.
pub fn unasked_patterns(alloc: Global) -> Result<Vec<Pattern>, AllocError>
    ensures { IfOk result (λ patterns. patterns.items ≡ unasked_patterns) }
{
    let mut patterns = Vec::with_capacity(alloc, 3)?;
    patterns.push(fixed(alloc, b"//{,**}")?)?;
    patterns.push(fixed(alloc, b"/{,**}//{,**}")?)?;
    patterns.push(fixed(alloc, b"/{,**/}.{,.}{,/{,**}}")?)?;
    Ok(patterns)
}

// Appends a class `count` times.
fn push_class(classes: &mut Vec<u32>, class: u32, count: usize) -> Result<(), AllocError>
    ensures { OnOk result (classes.new.items ≡ classes.old.items ++ replicate count class) }
{
    for _ in 0..count {
        classes.push(class)?;
    }
    Ok(())
}

/// How many of some rules are on files. It takes no memory; `O(n)`.
pub fn file_count(rules: &[Rule]) -> usize
    ensures counted { result ≡ length (file_patterns rules.now) }
    ensures few { result ≤ length rules.now }
{
    let mut count: usize = 0;
    let mut rest = rules;
    while let [rule, behind @ ..] = rest {
        if let Rule::File(_) = rule {
            count += 1;
        }
        rest = behind;
    }
    count
}

// The classes of so many other patterns, followed by those that are wanted, and those that are passed over.
fn telling_classes(
    alloc: Global,
    others: usize,
    wanted: usize,
    unasked: usize,
) -> Result<Vec<u32>, AllocError>
    ensures { IfOk result (λ classes. classes.items ≡ classes_of others wanted unasked) }
{
    let mut classes = Vec::new(alloc);
    push_class(&mut classes, 0, others)?;
    push_class(&mut classes, WANTED, wanted)?;
    push_class(&mut classes, PASSED_OVER, unasked)?;
    Ok(classes)
}

// The automaton of some patterns, followed by those that are wanted, and those that are passed over.
fn telling_automaton(
    alloc: Global,
    others: AutomatonBuilder,
    wanted: &[Pattern],
    unasked: &[Pattern],
) -> Result<Automaton, AllocError>
    ensures { IfOk result (λ automaton. (patterns : List (List ℕ))
        → IsBuilt others patterns
        → IsAutomatonOf automaton (telling_among patterns wanted.now unasked.now)) }
{
    let with_wanted = others.add_each(alloc, wanted)?;
    let all = with_wanted.add_each(alloc, unasked)?;
    Ok(all.finish())
}

/// Paths that stand for all that one of the `wanted` patterns matches and none of `unasked`, told apart by all these patterns and by the `count`
/// patterns of `others`. `None` where these paths are too many: more than `limit` sets of states would have to be looked at.
///
/// # Errors
///
/// Where memory runs out, and where there are more than 4,294,967,295 patterns or states.
pub fn standing_paths(
    alloc: Global,
    others: AutomatonBuilder,
    count: usize,
    wanted: &[Pattern],
    unasked: &[Pattern],
    limit: usize,
) -> Result<Option<Vec<Outcome>>, AllocError>
    requires { (patterns : List (List ℕ)) × IsBuilt others patterns × (length patterns ≡ count) }
    ensures told { IfOk result (λ found. (patterns : List (List ℕ))
        → IsBuilt others patterns
        → length patterns ≡ count
        → IfSome found (λ outcomes.
        TellAllPaths (telling_among patterns wanted.now unasked.now) (classes_among patterns wanted.now unasked.now) outcomes.items)) }
    ensures full { IfOk result (λ found. (patterns : List (List ℕ))
        → IsBuilt others patterns
        → length patterns ≡ count
        → found ≡ None
        → AreMoreTextsThan (telling_among patterns wanted.now unasked.now) limit) }
{
    let automaton = telling_automaton(alloc, others, wanted, unasked)?;
    let classes = telling_classes(alloc, count, wanted.len(), unasked.len())?;
    let found = outcomes(alloc, &automaton, &classes, limit)?;
    Ok(found)
}
