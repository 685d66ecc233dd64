//! Abstractions that allow some of the wanted requests of an asker, as they are printed.

ghost use Rattle.std.specs.Prelude.{◌≡◌, ◌++◌, IfOk, OnOk, flat_map, map, slice_get};
ghost use Rattle.aatry_abstractions.specs.SeenLetting.{seen_letting};
ghost use Rattle.aatry_log_rules.specs.Offers.{first_offers, is_wanted_by, offer_of, offer_text, offers, offers_of, others_line, own_count};
ghost use Rattle.aatry_log_rules.specs.SeenTelling.{seen_offer, seen_telling};
ghost use Rattle.aatry_log_rules.specs.SeenWanted.{seen_wanted};

use crate::telling_by::RuleTelling;
use crate::wanted::Wanted;
use aatry_abstractions::LettingAbstraction;
use aatry_report::{Field, Form, Teller, push_number, tell};
use std::alloc::AllocError;

// Whether the wanted request at an index is the asker's.
fn is_own(wanted: &[Wanted<'_>], who: &[u8], place: usize) -> bool
    ensures { result ≡ is_wanted_by who.now (slice_get (map seen_wanted wanted.now) place) }
{
    match wanted.get(place) {
        Some(wanted) => wanted.who == who,
        None => false,
    }
}

// How many of these indexes are those of wanted requests of the asker.
fn own_count(wanted: &[Wanted<'_>], who: &[u8], places: &[usize]) -> usize
    ensures { result ≡ own_count (map seen_wanted wanted.now) who.now places.now }
{
    let mut count = 0;
    let mut rest = places;
    while let [place, behind @ ..] = rest {
        if is_own(wanted, who, *place) {
            count += 1;
        }
        rest = behind;
    }
    count
}

// An abstraction that allows some of the asker's wanted requests.
#[derive(Clone, Copy)]
pub struct Offer<'l> {
    // Its name.
    name: &'l [u8],
    // How many it allows.
    number: usize,
}

// Appends an abstraction to `found`, if it allows some of the asker's wanted requests.
fn push_offer<'l>(
    wanted: &[Wanted<'_>],
    who: &[u8],
    abstraction: &'l LettingAbstraction,
    found: &mut Vec<Offer<'l>>,
) -> Result<(), AllocError>
    ensures { OnOk result (map seen_offer found.new.items
        ≡ map seen_offer found.old.items ++ offer_of (map seen_wanted wanted.now) who.now (seen_letting abstraction.now)) }
{
    let number = own_count(wanted, who, &abstraction.places);
    if number == 0 {
        return Ok(());
    }
    found.push(Offer {
        name: &abstraction.name,
        number,
    })?;
    Ok(())
}

// The abstractions that allow some of the asker's wanted requests, in their order.
fn offers_of<'l>(telling: &RuleTelling<'l, '_>, who: &[u8]) -> Result<Vec<Offer<'l>>, AllocError>
    ensures { IfOk result (λ found. map seen_offer found.items ≡ offers_of (seen_telling telling.now).wanted who.now (seen_telling telling.now).lettings) }
{
    let mut found = Vec::new(telling.teller.alloc);
    let mut rest = telling.abstractions;
    while let [abstraction, behind @ ..] = rest {
        push_offer(telling.wanted, who, abstraction, &mut found)?;
        rest = behind;
    }
    Ok(found)
}

// How many lines there are of them at most.
const MOST_LINES: usize = 5;

// Appends how many more abstractions there are to a text, if there are any.
fn push_others(number: usize, out: &mut Vec<u8>) -> Result<(), AllocError>
    ensures { OnOk result (out.new.items ≡ out.old.items ++ others_line number) }
{
    if number == 0 {
        return Ok(());
    }
    push_number(out, "#   and ", number)?;
    out.extend_from_slice(b" more would let some of these\n")
}

// Appends an abstraction that allows some of the asker's wanted requests to a text, by the path of the asker's file.
fn push_told<'x>(
    teller: Teller,
    path: &'x [u8],
    who: &'x [u8],
    offer: Offer<'x>,
    out: &mut Vec<u8>,
) -> Result<(), AllocError>
    ensures { OnOk result (out.new.items ≡ out.old.items ++ offer_text teller.form path.now who.now (seen_offer offer.entry)) }
{
    tell(
        teller,
        "abstraction",
        &[
            Field::Words("#   include <"),
            Field::Text("name", offer.name),
            Field::Words("> would let "),
            Field::Number("lets", offer.number),
            Field::Words(" of these"),
            Field::Member("profile", who),
            Field::Member("file", path),
        ],
        out,
    )
}

// Appends some abstractions to a text.
fn push_each(
    teller: Teller,
    path: &[u8],
    who: &[u8],
    offers: &[Offer<'_>],
    out: &mut Vec<u8>,
) -> Result<(), AllocError>
    ensures { OnOk result (out.new.items ≡ out.old.items ++ flat_map (offer_text teller.form path.now who.now) (map seen_offer offers.now)) }
{
    let mut rest = offers;
    while let [offer, behind @ ..] = rest {
        push_told(teller, path, who, *offer, out)?;
        rest = behind;
    }
    Ok(())
}

// Appends the first few abstractions to a text, and how many more there are.
fn push_first(
    teller: Teller,
    path: &[u8],
    who: &[u8],
    offers: &[Offer<'_>],
    out: &mut Vec<u8>,
) -> Result<(), AllocError>
    ensures { OnOk result (out.new.items ≡ out.old.items ++ first_offers teller.form path.now who.now (map seen_offer offers.now)) }
{
    let told = offers.len().min(MOST_LINES);
    push_each(teller, path, who, &offers[..told], out)?;
    push_others(offers.len() - told, out)
}

/// Appends the abstractions that allow some of the asker's wanted requests to a text, by the path of its file, and how many: a comment for each of
/// the first five, and one for how many more there are; or a record of the kind `abstraction` for each, with the texts `name`, `profile` and `file`
/// and the number `lets`.
///
/// # Errors
///
/// Where memory runs out. A beginning may have been appended then.
pub fn push_offers(
    telling: &RuleTelling<'_, '_>,
    path: &[u8],
    who: &[u8],
    out: &mut Vec<u8>,
) -> Result<(), AllocError>
    ensures { OnOk result (out.new.items ≡ out.old.items
        ++ offers telling.now.teller.form (seen_telling telling.now).wanted (seen_telling telling.now).lettings path.now who.now) }
{
    let offers = offers_of(telling, who)?;
    match telling.teller.form {
        Form::Lines => push_first(telling.teller, path, who, &offers, out),
        Form::Records => push_each(telling.teller, path, who, &offers, out),
    }
}
