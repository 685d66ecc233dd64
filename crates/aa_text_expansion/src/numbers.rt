//! The numbers of the names in texts, collected in a set.

ghost use Rattle.std.specs.Prelude.{OnOk};
ghost use Rattle.std.specs.Fn.{FnReturnsAt};
ghost use Rattle.aa_text_expansion.specs.Numbers.{Gathers, numbers_in, numbers_of, numbers_within};
ghost use Rattle.aa_text_expansion.specs.code.TextParts.{parts_of};

use crate::parts::{TextPart, first_part};
use aa_bytes::Sequence;
use indexmap::IndexSet;
use std::alloc::AllocError;

// Adds the number of the name that a part of a text is, if it has one, to a set.
fn gather_part<F: Fn(&[u8]) -> Option<usize>>(
    part: TextPart<'_>,
    number: &F,
    gathered: &mut IndexSet<usize>,
) -> Result<(), AllocError>
    requires { F.IsAlwaysCallable number.now }
    ensures { OnOk result (Gathers (FnReturnsAt F.Fn number.now) (λ n. numbers_of n (parts_of part.entry)) gathered.old.keys gathered.new.keys) }
{
    let name = match part {
        TextPart::Text(_) => return Ok(()),
        TextPart::Name(name) => name,
        TextPart::Unclosed => return Ok(()),
    };
    if let Some(index) = number(name) {
        gathered.insert(index)?;
    }
    Ok(())
}

// Adds the numbers of the names in a text to a set.
fn gather<F: Fn(&[u8]) -> Option<usize>>(
    text: &[u8],
    number: &F,
    gathered: &mut IndexSet<usize>,
) -> Result<(), AllocError>
    requires { F.IsAlwaysCallable number.now }
    ensures { OnOk result (Gathers (FnReturnsAt F.Fn number.now) (λ n. numbers_in n text.now) gathered.old.keys gathered.new.keys) }
{
    let mut rest = text;
    while let Some((part, after)) = first_part(rest) {
        gather_part(part, number, gathered)?;
        rest = after;
    }
    Ok(())
}

/// Adds the numbers of the names in a text, as far as they have one, to a set, after those that are in it.
///
/// # Errors
///
/// Memory ran out. Some of the numbers may then be added.
pub fn gather_numbers<F: Fn(&[u8]) -> Option<usize>>(
    text: &[u8],
    number: F,
    gathered: &mut IndexSet<usize>,
) -> Result<(), AllocError>
    requires { F.IsAlwaysCallable number }
    // For each function in definitions that `number` computes.
    ensures { OnOk result (Gathers (FnReturnsAt F.Fn number) (λ n. numbers_in n text.now) gathered.old.keys gathered.new.keys) }
{
    gather(text, &number, gathered)
}

/// Adds the numbers of the names in some words, as far as they have one, to a set, after those that are in it.
///
/// # Errors
///
/// Memory ran out. Some of the numbers may then be added.
pub fn gather_numbers_within<F: Fn(&[u8]) -> Option<usize>>(
    words: &[Sequence<u8>],
    number: F,
    gathered: &mut IndexSet<usize>,
) -> Result<(), AllocError>
    requires { F.IsAlwaysCallable number }
    ensures { OnOk result (Gathers (FnReturnsAt F.Fn number) (λ n. numbers_within n words.now) gathered.old.keys gathered.new.keys) }
{
    for word in words {
        gather(word.as_slice(), &number, gathered)?;
    }
    Ok(())
}
