//! How many lines, requests and questions a log has, for the summary.

ghost use Rattle.std.specs.Prelude.{◌≡◌, ◌++◌, IfOk, OnOk};
ghost use Rattle.aatry_report.specs.SeenFields.{seen_fields};
ghost use Rattle.aatry_requests.specs.Counts.{number_text, summary_fields, summary_text};
ghost use Rattle.aatry_requests.specs.Gathering.{seen_requests};
ghost use Rattle.aatry_requests.specs.SeenShares.{seen_share};

use crate::requests::Requests;
use aatry_report::{Field, Teller, tell};
use itoa::Buffer;
use std::alloc::{AllocError, Global};

/// Appends a number in decimal, and the text that follows it, to a text.
///
/// # Errors
///
/// Where memory runs out. The number may have been appended then.
pub fn push_number(out: &mut Vec<u8>, number: u64, behind: &[u8]) -> Result<(), AllocError>
    ensures { OnOk result (out.new.items ≡ out.old.items ++ number_text number behind.now) }
{
    let mut digits = Buffer::new();
    out.extend_from_slice(digits.format(number).as_bytes())?;
    out.extend_from_slice(behind)?;
    Ok(())
}

/// Some of the questions of a log.
#[derive(Clone, Copy)]
pub struct Share<'a> {
    /// How many they are.
    pub number: usize,
    /// The words that follow the number in a line.
    pub words: &'a str,
    /// The name of the number in a record.
    pub name: &'a str,
}

impl<'a> Requests<'a> {
    /// The fields of the summary, as `push_summary` tells them.
    ///
    /// # Errors
    ///
    /// Where memory runs out.
    pub fn summary_fields<'s>(
        &self,
        alloc: Global,
        share: Share<'s>,
    ) -> Result<Vec<Field<'s>>, AllocError>
        ensures { IfOk result (λ fields. seen_fields fields.items ≡ summary_fields (seen_requests self.now) (seen_share share.entry)) }
    {
        Vec::from_slice(
            alloc,
            &[
                Field::Number("lines", self.lines as usize),
                Field::Words(" lines, "),
                Field::Number("requests", self.asked as usize),
                Field::Words(" requests, "),
                Field::Number("questions", self.tallies.len()),
                Field::Words(" questions, "),
                Field::Number(share.name, share.number),
                Field::Words(share.words),
                Field::Number("others", self.others as usize),
                Field::Words(" of another kind, "),
                Field::Number("unreadable", self.unreadable as usize),
                Field::Words(" unreadable"),
            ],
        )
    }

    /// Appends the summary to a text: how many lines there were, how many requests they had, how many questions these are and how many of these
    /// belong to the share, how many requests are of a kind that no question asks, and how many lines can't be read. That is one line, or a record
    /// of the kind `summary` with the numbers `lines`, `requests`, `questions`, the one by the share's name, `others` and `unreadable`.
    ///
    /// # Errors
    ///
    /// Where memory runs out. A beginning may have been appended then.
    pub fn push_summary(
        &self,
        teller: Teller,
        share: Share<'_>,
        out: &mut Vec<u8>,
    ) -> Result<(), AllocError>
        ensures { OnOk result (out.new.items ≡ out.old.items ++ summary_text teller.form (seen_requests self.now) (seen_share share.entry)) }
    {
        let fields = self.summary_fields(teller.alloc, share)?;
        tell(teller, "summary", &fields, out)
    }
}
