//! A name that lets a request through, as it is told.

ghost use Rattle.std.specs.Prelude.{◌≡◌, ◌++◌, OnOk};
ghost use Rattle.std.specs.Option.{option_copied};
ghost use Rattle.aatry_report.specs.SeenFields.{seen_field};
ghost use Rattle.aatry_who.specs.Sought.{led, seen_sought};
ghost use Rattle.aatry_who.specs.Telling.{let_line, let_told, member_if};

use crate::sought::{Sought, led};
use aa_set_answers::Answered;
use aatry_report::{Field, Form, Teller, tell};
use aatry_why::{destination_base, destination_text};
use std::alloc::AllocError;

// A text by a name, of the record alone, if there is one.
fn member_if<'x>(name: &'x str, text: Option<&'x [u8]>) -> Field<'x>
    ensures { seen_field result ≡ member_if name.now (option_copied text.entry) }
{
    match text {
        None => Field::Words(""),
        Some(text) => Field::Member(name, text),
    }
}

// Appends a name that lets the request through to a text, by the answer, and where a program runs that it starts, if it starts one.
fn push_let_by<'x>(
    teller: Teller,
    name: &'x [u8],
    answer: &'x [u8],
    to: Field<'x>,
    base: Field<'x>,
    out: &mut Vec<u8>,
) -> Result<(), AllocError>
    ensures { OnOk result (out.new.items
        ≡ out.old.items ++ let_told teller.form name.now answer.now (seen_field to.entry) (seen_field base.entry)) }
{
    tell(
        teller,
        "let",
        &[
            Field::Text("name", name),
            Field::Words(": "),
            Field::Plain("answer", answer),
            to,
            base,
        ],
        out,
    )
}

/// Appends a name that lets the request through to a text: a line with the name and the answer, or a record of the kind `let`, with the texts `name`
/// and `answer`, and of a program that is started `leads_to` and `on`.
///
/// # Errors
///
/// Where memory runs out. A beginning may have been appended then.
pub fn push_let(
    text: &mut Vec<u8>,
    teller: Teller,
    sought: &Sought<'_>,
    name: &[u8],
    told: &Answered,
) -> Result<(), AllocError>
    ensures { OnOk result (text.new.items ≡ text.old.items
        ++ let_line teller.form name.now told.now.text (led (seen_sought sought.now) name.now told.now.answer)) }
{
    let records = Teller {
        alloc: teller.alloc,
        form: Form::Records,
        verbose: false,
    };
    let to = led(teller.alloc, sought, name, told.answer)?;
    let leads_to = destination_text(records, &sought.slots, to)?;
    let base = destination_base(teller.alloc, &sought.slots, to)?;
    let leads_to = member_if("leads_to", leads_to.as_deref());
    let on = member_if("on", base.as_deref());
    push_let_by(teller, name, told.text.as_slice(), leads_to, on, text)
}
