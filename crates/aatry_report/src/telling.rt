//! What is reported, once for both forms: fields, each of which stands in the line, in the record, or in both.

ghost use Rattle.std.specs.Prelude.{◌≡◌, ◌++◌, IfOk, OnOk, flat_map};
ghost use Rattle.aatry_report.specs.Fields.{file_place_text, in_line, share, times_text, told, with_file_place, with_field, with_fields};
ghost use Rattle.aatry_report.specs.Records.{record_of};
ghost use Rattle.aatry_report.specs.SeenFields.{seen_field, seen_fields};
ghost use Rattle.aatry_report.specs.SeenRecord.{seen_record};

use crate::faults::push_place;
use crate::file_places::put_place;
use crate::form::{Form, Teller};
use crate::numbers::push_number;
use crate::place::LinePlace;
use crate::record::Record;
use crate::shown::push_shown;
use aa_bytes::push_text;
use std::alloc::{AllocError, Global};

/// A field of what is reported. A name is that of a member of the record.
#[derive(Clone, Copy)]
pub enum Field<'a> {
    /// Words of the line alone.
    Words(&'a str),
    /// Bytes of the line alone, which are shown already.
    Bytes(&'a [u8]),
    /// A text by a name; the line shows it (`push_shown`).
    Text(&'a str, &'a [u8]),
    /// A text by a name; the line has it as it is, since it is shown already.
    Plain(&'a str, &'a [u8]),
    /// A text by a name; the line quotes it (`aa_bytes::push_text`).
    Quoted(&'a str, &'a [u8]),
    /// A word by a name; the line has it as it is.
    Word(&'a str, &'a str),
    /// A number by a name, in decimal in the line.
    Number(&'a str, usize),
    /// How often something occurred, by a name: in the line `once`, or the number and `times`.
    Times(&'a str, usize),
    /// How many there are of something, by a name; where there are some the line has a comma, the number and these words.
    Share(&'a str, usize, &'a str),
    /// A file by its name in reports, and a place in it, if there is one: `PATH:LINE:COLUMN: ` or `PATH: `, and the members `file`, `line` and `column`.
    Place(&'a [u8], Option<LinePlace>),
    /// A text by a name, of the record alone.
    Member(&'a str, &'a [u8]),
    /// A word by a name, of the record alone.
    MemberWord(&'a str, &'a str),
    /// A number by a name, of the record alone.
    MemberNumber(&'a str, usize),
    /// Texts by a name, of the record alone.
    MemberTexts(&'a str, &'a [&'a [u8]]),
}

// Appends how often something occurred to a text.
fn push_times(times: usize, out: &mut Vec<u8>) -> Result<(), AllocError>
    ensures { OnOk result (out.new.items ≡ out.old.items ++ times_text times) }
{
    if times == 1 {
        return out.extend_from_slice(b"once");
    }
    push_number(out, "", times)?;
    out.extend_from_slice(b" times")
}

// Appends how many there are of something to a text, in these words, where there are some.
fn push_share(count: usize, words: &str, out: &mut Vec<u8>) -> Result<(), AllocError>
    ensures { OnOk result (out.new.items ≡ out.old.items ++ share count words.now) }
{
    if count == 0 {
        return Ok(());
    }
    push_number(out, ", ", count)?;
    out.extend_from_slice(words.as_bytes())
}

// Appends a file, and a place in it, if there is one, to a text.
fn push_file_place(
    path: &[u8],
    place: Option<LinePlace>,
    out: &mut Vec<u8>,
) -> Result<(), AllocError>
    ensures { OnOk result (out.new.items ≡ out.old.items ++ file_place_text path.now place) }
{
    match place {
        Some(place) => push_place(out, path, place),
        None => {
            push_shown(out, path)?;
            out.extend_from_slice(b": ")
        }
    }
}

// Appends what of a field stands in the line to a text.
fn push_field(field: &Field<'_>, out: &mut Vec<u8>) -> Result<(), AllocError>
    ensures { OnOk result (out.new.items ≡ out.old.items ++ in_line (seen_field field.now)) }
{
    match field {
        Field::Words(words) | Field::Word(_, words) => out.extend_from_slice(words.as_bytes()),
        Field::Bytes(bytes) | Field::Plain(_, bytes) => out.extend_from_slice(bytes),
        Field::Text(_, text) => push_shown(out, text),
        Field::Quoted(_, text) => push_text(out, text),
        Field::Number(_, number) => push_number(out, "", *number),
        Field::Times(_, times) => push_times(*times, out),
        Field::Share(_, count, words) => push_share(*count, words, out),
        Field::Place(path, place) => push_file_place(path, *place, out),
        Field::Member(..)
        | Field::MemberWord(..)
        | Field::MemberNumber(..)
        | Field::MemberTexts(..) => Ok(()),
    }
}

// Appends what of some fields stands in the line to a text, one after another.
fn push_fields(fields: &[Field<'_>], out: &mut Vec<u8>) -> Result<(), AllocError>
    ensures { OnOk result (out.new.items ≡ out.old.items ++ flat_map in_line (seen_fields fields.now)) }
{
    let mut rest = fields;
    while let [field, behind @ ..] = rest {
        push_field(field, out)?;
        rest = behind;
    }
    Ok(())
}

// Puts a file, and a place in it, if there is one, into a record.
fn put_file_place(
    alloc: Global,
    path: &[u8],
    place: Option<LinePlace>,
    into: &mut Record,
) -> Result<(), AllocError>
    ensures { OnOk result (seen_record into.new ≡ with_file_place path.now place (seen_record into.old)) }
{
    match place {
        Some(place) => put_place(alloc, path, place, into),
        None => into.put_text(alloc, "file", path),
    }
}

// Puts what of a field stands in the record into it.
fn put_field(alloc: Global, field: &Field<'_>, into: &mut Record) -> Result<(), AllocError>
    ensures { OnOk result (seen_record into.new ≡ with_field (seen_field field.now) (seen_record into.old)) }
{
    match field {
        Field::Words(_) | Field::Bytes(_) => Ok(()),
        Field::Text(name, text)
        | Field::Plain(name, text)
        | Field::Quoted(name, text)
        | Field::Member(name, text) => into.put_text(alloc, name, text),
        Field::Word(name, word) | Field::MemberWord(name, word) => {
            into.put_text(alloc, name, word.as_bytes())
        }
        Field::Number(name, number)
        | Field::Times(name, number)
        | Field::Share(name, number, _)
        | Field::MemberNumber(name, number) => into.put_number(alloc, name, *number),
        Field::Place(path, place) => put_file_place(alloc, path, *place, into),
        Field::MemberTexts(name, texts) => into.put_texts(alloc, name, texts),
    }
}

// Puts what of some fields stands in the record into it, the first of them first.
fn put_fields(alloc: Global, fields: &[Field<'_>], into: &mut Record) -> Result<(), AllocError>
    ensures { OnOk result (seen_record into.new ≡ with_fields (seen_fields fields.now) (seen_record into.old)) }
{
    let mut rest = fields;
    while let [field, behind @ ..] = rest {
        put_field(alloc, field, into)?;
        rest = behind;
    }
    Ok(())
}

// The record of a kind with some fields.
fn record_of_fields(alloc: Global, kind: &str, fields: &[Field<'_>]) -> Result<Record, AllocError>
    ensures { IfOk result (λ made. seen_record made ≡ with_fields (seen_fields fields.now) (record_of kind.now)) }
{
    let mut made = Record::new(alloc, kind)?;
    put_fields(alloc, fields, &mut made)?;
    Ok(made)
}

/// Appends what is reported to a text: a line of the fields, one after another, or a record of a kind with them.
///
/// # Errors
///
/// Where memory runs out. A beginning may have been appended then.
pub fn tell(
    teller: Teller,
    kind: &str,
    fields: &[Field<'_>],
    out: &mut Vec<u8>,
) -> Result<(), AllocError>
    ensures { OnOk result (out.new.items ≡ out.old.items ++ told teller.form kind.now (seen_fields fields.now)) }
{
    match teller.form {
        Form::Lines => {
            push_fields(fields, out)?;
            out.push(b'\n')?;
            Ok(())
        }
        Form::Records => record_of_fields(teller.alloc, kind, fields)?.push(teller.alloc, out),
    }
}
