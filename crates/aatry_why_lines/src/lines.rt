//! The lines and the records of rules with the places where they are written.

ghost use Rattle.std.specs.Prelude.{◌≡◌, ◌++◌, IfOk, OnOk, codes, flat_map};
ghost use Rattle.aa_set_answers.specs.RuleLines.{rule_text};
ghost use Rattle.aatry_report.specs.Fields.{told};
ghost use Rattle.aatry_report.specs.SeenFields.{seen_field};
ghost use Rattle.aatry_why_lines.specs.Lines.{group_lines, is_by_all, line_at, maker, maker_words, place_at, rule_parts, told_line, where_said};
ghost use Rattle.aatry_why_lines.specs.Wheres.{seen_where};
ghost use Rattle.aatry_why_lines.specs.Written.{seen_rules};

use crate::finding::Finder;
use crate::written::WrittenRules;
use aa_profile_data::{Rank, Rule};
use aa_set_answers::push_rule;
use aa_text_files::Place;
use aatry_report::{Field, LinePlace, Teller, push_heading, tell};
use std::alloc::{AllocError, Global};

/// Where a rule is written.
#[derive(Drop)]
pub struct Where {
    /// The name of the file in reports.
    pub path: Vec<u8>,
    /// The line and the column, if the place in the file is known.
    pub place: Option<LinePlace>,
}

impl Where {
    ghost use Rattle.std.specs.Prelude.{◌≡◌};
    ghost use Rattle.aatry_report.specs.SeenFields.{seen_field};
    ghost use Rattle.aatry_why_lines.specs.Wheres.{seen_where};

    /// The field that reports it. It takes no memory.
    pub fn field(&self) -> Field<'_>
        ensures { seen_field result ≡ seen_where self.now }
    {
        Field::Place(&self.path, self.place)
    }
}

/// Where a rule is written: the folder's path with the name of the file, the line and the column. A rule without a place is in the profile's file,
/// which has the name.
///
/// # Errors
///
/// Where memory runs out.
pub fn where_of(
    finder: &mut Finder<'_>,
    name: &[u8],
    place: Option<Place>,
) -> Result<Where, AllocError>
    ensures told { IfOk result (λ found. seen_where found ≡ where_said finder.old name.now place) }
    ensures same { finder.new ≡ finder.old }
{
    match place {
        None => Ok(Where {
            path: finder.path_below(name)?,
            place: None,
        }),
        Some(place) => {
            let path = finder.path_of(place)?;
            let found = finder.line_place(place)?;
            Ok(Where {
                path,
                place: Some(found),
            })
        }
    }
}

/// A rule, as `show` prints it.
///
/// # Errors
///
/// Where memory runs out.
pub fn rule_text(alloc: Global, rule: &Rule) -> Result<Vec<u8>, AllocError>
    ensures { IfOk result (λ text. text.items ≡ rule_text rule.now) }
{
    let mut text = Vec::new(alloc);
    push_rule(&mut text, rule)?;
    Ok(text)
}

// Whether a rule is by `all`, and says where a program goes that no other rule leads.
fn is_by_all(rule: &Rule) -> bool
    ensures { result ≡ is_by_all rule.now }
{
    match rule {
        Rule::File(rule) => rule.rank.is_same(Rank::Last),
        Rule::Cap(_) | Rule::Net(_) | Rule::Other(_) => false,
    }
}

// That a rule is by `all`, where it is, after it in the line.
fn maker_words(by_all: bool) -> &'static str
    ensures { result.now ≡ maker_words by_all }
{
    if by_all { ", by `all`" } else { "" }
}

// The word that makes a rule, where that is `all`, in the record.
fn maker<'x>(by_all: bool) -> Field<'x>
    ensures { seen_field result ≡ maker by_all }
{
    if by_all {
        Field::MemberWord("made_by", "all")
    } else {
        Field::Words("")
    }
}

// Appends a rule of a group below these words to a text, by where it is written and as `show` prints it.
fn push_written<'x>(
    teller: Teller,
    words: &'x str,
    place: Field<'x>,
    text: &'x [u8],
    by_all: bool,
    out: &mut Vec<u8>,
) -> Result<(), AllocError>
    ensures { OnOk result (out.new.items ≡ out.old.items ++ told teller.form (codes "rule") (rule_parts words.now (seen_field place.entry) text.now by_all)) }
{
    tell(
        teller,
        "rule",
        &[
            Field::MemberWord("group", words),
            Field::Words("  "),
            place,
            Field::Text("rule", text),
            Field::Words(maker_words(by_all)),
            maker(by_all),
        ],
        out,
    )
}

// Appends a rule of a group below these words to a text.
fn push_told(
    finder: &mut Finder<'_>,
    teller: Teller,
    name: &[u8],
    words: &str,
    place: Option<Place>,
    rule: &Rule,
    out: &mut Vec<u8>,
) -> Result<(), AllocError>
    ensures told { OnOk result (out.new.items ≡ out.old.items ++ told_line teller.form finder.old name.now words.now place rule.now) }
    ensures same { finder.new ≡ finder.old }
{
    let found = where_of(finder, name, place)?;
    let text = rule_text(teller.alloc, rule)?;
    push_written(teller, words, found.field(), &text, is_by_all(rule), out)
}

// Where the rule at an index is written.
fn place_at(places: &[Option<Place>], index: usize) -> Option<Place>
    ensures { result ≡ place_at places.now index }
{
    match places.get(index) {
        None => None,
        Some(place) => *place,
    }
}

// Appends the line or record of the rule at an index to a text, if there is one.
fn push_line(
    finder: &mut Finder<'_>,
    teller: Teller,
    written: &WrittenRules<'_>,
    words: &str,
    index: usize,
    out: &mut Vec<u8>,
) -> Result<(), AllocError>
    requires { finder.old ≡ (seen_rules written.now).below }
    ensures told { OnOk result (out.new.items ≡ out.old.items ++ line_at teller.form (seen_rules written.now) words.now index) }
    ensures same { finder.new ≡ finder.old }
{
    match written.rules.as_slice().get(index) {
        None => Ok(()),
        Some(rule) => {
            let place = place_at(written.places, index);
            push_told(finder, teller, written.name, words, place, rule, out)
        }
    }
}

/// Appends the lines of the rules at some indexes to a text; only records have the words over their group.
///
/// # Errors
///
/// Where memory runs out. A beginning may have been appended then.
pub fn push_lines(
    teller: Teller,
    written: &WrittenRules<'_>,
    words: &str,
    indexes: &[usize],
    out: &mut Vec<u8>,
) -> Result<(), AllocError>
    ensures { OnOk result (out.new.items ≡ out.old.items ++ flat_map (line_at teller.form (seen_rules written.now) words.now) indexes.now) }
{
    let mut finder = Finder::new(teller.alloc, written.below);
    let mut rest = indexes;
    while let [index, behind @ ..] = rest {
        push_line(&mut finder, teller, written, words, *index, out)?;
        rest = behind;
    }
    Ok(())
}

/// Appends the lines of the rules at some indexes to a text, below these words; or, in records, a record of each, which has the words itself.
/// Nothing where there is no index.
///
/// # Errors
///
/// Where memory runs out. A beginning may have been appended then.
pub fn push_group(
    teller: Teller,
    written: &WrittenRules<'_>,
    words: &str,
    indexes: &[usize],
    out: &mut Vec<u8>,
) -> Result<(), AllocError>
    ensures { OnOk result (out.new.items ≡ out.old.items ++ group_lines teller.form (seen_rules written.now) words.now indexes.now) }
{
    if indexes.is_empty() {
        return Ok(());
    }
    push_heading(teller.form, words, out)?;
    push_lines(teller, written, words, indexes, out)
}
