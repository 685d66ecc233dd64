//! What sums up.

ghost use Rattle.std.specs.Prelude.{◌≡◌, ◌++◌, OnOk};
ghost use Rattle.aatry_diff_paths.specs.Summary.{count_of, counts_of, same_kind, summary_by, summary_text};

use aatry_path_changes::Kind;
use aatry_report::{Field, Teller, push_number, tell};
use std::alloc::AllocError;

// How many have each word.
#[derive(Clone, Copy)]
struct Counts {
    same: usize,
    wider: usize,
    narrower: usize,
    both: usize,
    otherwise: usize,
    gone: usize,
    new: usize,
    many: usize,
    absent: usize,
}

// Whether two words are one.
fn same_kind(one: Kind, other: Kind) -> bool
    ensures { result ≡ same_kind one other }
{
    match (one, other) {
        (Kind::Same, Kind::Same) => true,
        (Kind::Wider, Kind::Wider) => true,
        (Kind::Narrower, Kind::Narrower) => true,
        (Kind::Both, Kind::Both) => true,
        (Kind::Otherwise, Kind::Otherwise) => true,
        (Kind::Gone, Kind::Gone) => true,
        (Kind::New, Kind::New) => true,
        (Kind::TooMany, Kind::TooMany) => true,
        (Kind::Absent, Kind::Absent) => true,
        _ => false,
    }
}

// How many of some words are this one.
fn count_of(kind: Kind, kinds: &[Kind]) -> usize
    ensures { result ≡ count_of kind kinds.now }
{
    kinds.iter().filter(|it| same_kind(**it, kind)).count()
}

// How many have each word.
fn counts_of(kinds: &[Kind]) -> Counts
    ensures { result ≡ counts_of kinds.now }
{
    Counts {
        same: count_of(Kind::Same, kinds),
        wider: count_of(Kind::Wider, kinds),
        narrower: count_of(Kind::Narrower, kinds),
        both: count_of(Kind::Both, kinds),
        otherwise: count_of(Kind::Otherwise, kinds),
        gone: count_of(Kind::Gone, kinds),
        new: count_of(Kind::New, kinds),
        many: count_of(Kind::TooMany, kinds),
        absent: count_of(Kind::Absent, kinds),
    }
}

// Appends what sums up to a text, by how many there are, in digits, and how many have each word.
#[tactic(auto, unfolding(crate::specs::Summary::summary_by))]
fn push_counts(
    teller: Teller,
    all: &[u8],
    counts: Counts,
    out: &mut Vec<u8>,
) -> Result<(), AllocError>
    ensures { OnOk result (out.new.items ≡ out.old.items ++ summary_by teller.form all.now counts) }
{
    tell(
        teller,
        "summary",
        &[
            Field::Bytes(all),
            Field::Words(" profiles, children and hats: "),
            Field::Number("same", counts.same),
            Field::Words(" the same"),
            Field::Share("wider", counts.wider, " wider"),
            Field::Share("narrower", counts.narrower, " narrower"),
            Field::Share("both", counts.both, " both"),
            Field::Share("otherwise", counts.otherwise, " otherwise"),
            Field::Share("gone", counts.gone, " gone"),
            Field::Share("new", counts.new, " new"),
            Field::Share("too_many", counts.many, " too many"),
            Field::Share("absent", counts.absent, " absent"),
        ],
        out,
    )
}

/// Appends what sums up to a text, by the words of all that is found: how many there are, and how many of each word, on a line that leaves those out of which
/// there are none; or as a record of the kind `summary` with a number for each word.
///
/// # Errors
///
/// Where memory runs out. A beginning may have been appended then.
pub fn push_summary(teller: Teller, kinds: &[Kind], out: &mut Vec<u8>) -> Result<(), AllocError>
    ensures { OnOk result (out.new.items ≡ out.old.items ++ summary_text teller.form kinds.now) }
{
    let mut all = Vec::new(teller.alloc);
    push_number(&mut all, "", kinds.len())?;
    push_counts(teller, &all, counts_of(kinds), out)
}
