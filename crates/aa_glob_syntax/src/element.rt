//! The elements of a pattern's text, read one after the other. It takes no memory.

ghost use Rattle.std.specs.Prelude.{◌≡◌, ◌≢◌, ◌∷◌, ◌<◌, ◌≤◌, length, IfOk, IfErr, IfSome};
ghost use Rattle.aa_bytes.specs.Bytes.{opening_bracket, star};
ghost use Rattle.aa_glob_syntax.specs.Cursor.{BeginWithFault, context_behind, elements_from, left, meaning};
ghost use Rattle.aa_glob_syntax.specs.Elements.{context_after, elements, stars};
ghost use Rattle.aa_glob_syntax.specs.Symbols.{symbols};
ghost use Rattle.aa_glob_syntax.specs.declared.context.Context.TheVariants.{AfterStar};
ghost use Rattle.aa_glob_syntax.specs.declared.pattern_error.PatternError.TheVariants.{Memory};
ghost use Rattle.aa_glob_syntax.specs.declared.symbol.Symbol.TheVariants.{Plain};

use crate::class::Class;
use crate::context::{Context, context_after};
use crate::literals::is_literal;
use crate::pattern_error::PatternError;
use crate::star::{begins_plain, behind_stars, is_whole_segment};
use crate::symbol::{Symbol, first_symbol};

/// An element of a pattern's text.
#[derive(Clone, Copy)]
pub enum Element<'a> {
    /// A byte that stands for itself.
    Byte(u8),
    /// `?`: one byte within a segment.
    Inside,
    /// One byte of a class.
    Class(Class<'a>),
    /// `*`: any bytes within a segment.
    Star,
    /// `**`: any bytes.
    DoubleStar,
    /// The brace that begins a group.
    Open,
    /// A comma. Outside groups it stands for itself.
    Comma,
    /// The brace that closes a group.
    Close,
}

/// An element, and what follows it.
#[derive(Clone, Copy)]
pub struct Next<'a> {
    /// The element.
    pub element: Element<'a>,
    /// The context of the rest.
    pub context: Context,
    /// What is left to read. It begins with the same star again where a run of stars is a whole segment: such a run needs one byte at least, and
    /// that byte was returned as an element of its own.
    pub rest: &'a [u8],
}

/// Reads the next element of a text whose first symbol has this context; returns `None` at the text's end. It takes no memory. Braces and commas are
/// returned as they are: which groups they belong to is for the caller to find.
///
/// # Errors
///
/// The fault with which the text begins: `BadEscape`, or in a class `UnclosedClass`, `EmptyClass` or `BadRange`. Never `Memory`.
pub fn next_element<'a>(context: Context, text: &'a [u8]) -> Result<Option<Next<'a>>, PatternError>
    ensures ok { IfOk result (λ next. elements context (symbols text.now) ≡ elements_from next) }
    ensures context { IfOk result (λ next. IfSome next (λ found. found.context ≡ context_behind found.element)) }
    ensures shorter { IfOk result (λ next. IfSome next (λ found. left found.context found.rest.now < left context text.now)) }
    ensures refused { IfErr result (λ error. BeginWithFault error (elements context (symbols text.now))) }
    ensures memory { IfErr result (λ error. error ≢ Memory) }
{
    // Most bytes of most patterns stand for themselves, whatever the context.
    if let [byte, rest @ ..] = text {
        if is_literal(*byte) {
            return Ok(Some(next_byte(*byte, rest)));
        }
    }
    match context {
        Context::AfterStar => next_outside(Context::Elsewhere, behind_stars(text)),
        Context::AfterSlash | Context::Elsewhere => next_outside(context, text),
    }
}

// Reads the next element where no run of stars continues.
fn next_outside<'a>(context: Context, text: &'a [u8]) -> Result<Option<Next<'a>>, PatternError>
    requires { context ≢ AfterStar }
    ensures ok { IfOk result (λ next. elements context (symbols text.now) ≡ elements_from next) }
    ensures context { IfOk result (λ next. IfSome next (λ found. found.context ≡ context_behind found.element)) }
    ensures shorter { IfOk result (λ next. IfSome next (λ found. left found.context found.rest.now < left context text.now)) }
    ensures refused { IfErr result (λ error. BeginWithFault error (elements context (symbols text.now))) }
    ensures memory { IfErr result (λ error. error ≢ Memory) }
{
    match first_symbol(text) {
        None => Ok(None),
        Some((Symbol::Broken, _)) => Err(PatternError::BadEscape),
        Some((Symbol::Escaped(byte), rest)) => Ok(Some(next_byte(byte, rest))),
        Some((Symbol::Plain(b'*'), rest)) => Ok(Some(next_star(context, text, rest))),
        Some((Symbol::Plain(byte), rest)) => Ok(Some(next_plain(byte, rest)?)),
    }
}

// A byte that stands for itself, and what follows it.
fn next_byte<'a>(byte: u8, rest: &'a [u8]) -> Next<'a>
    ensures element { result.element ≡ Element.Byte byte }
    ensures context { result.context ≡ context_after byte }
    ensures rest { result.rest.now ≡ rest.now }
{
    Next {
        element: Element::Byte(byte),
        context: context_after(byte),
        rest,
    }
}

// Reads a run of stars with which the text begins. What is left begins after the run's first star, or with it where the run is a whole segment.
fn next_star<'a>(context: Context, text: &'a [u8], rest: &'a [u8]) -> Next<'a>
    requires begins { symbols text.now ≡ Plain star ∷ symbols rest.now }
    requires shorter { length rest.now < length text.now }
    requires first { context ≢ AfterStar }
    ensures ok { elements context (symbols text.now) ≡ elements_from (Some result) }
    ensures context { result.context ≡ context_behind result.element }
    ensures shorter { left result.context result.rest.now < left context text.now }
{
    if is_whole_segment(context, rest) {
        return Next {
            element: Element::Inside,
            context: Context::Elsewhere,
            rest: text,
        };
    }
    Next {
        element: run_element(rest),
        context: Context::AfterStar,
        rest,
    }
}

// What a run of stars reads as, by what follows its first star: `**` is two stars or more.
fn run_element<'a>(rest: &'a [u8]) -> Element<'a>
    ensures meaning { meaning result ≡ stars (symbols rest.now) }
    ensures context { context_behind result ≡ AfterStar }
{
    if begins_plain(b'*', rest) {
        Element::DoubleStar
    } else {
        Element::Star
    }
}

// The element that begins with this byte, which has no backslash and is no star; `rest` is what follows the byte.
fn next_plain<'a>(byte: u8, rest: &'a [u8]) -> Result<Next<'a>, PatternError>
    requires { byte ≢ star }
    ensures ok { IfOk result (λ next. (context : Context) → elements context (Plain byte ∷ symbols rest.now) ≡ elements_from (Some next)) }
    ensures context { IfOk result (λ next. next.context ≡ context_behind next.element) }
    ensures within { IfOk result (λ next. length next.rest.now ≤ length rest.now) }
    ensures refused { IfErr result (λ error. (context : Context) → BeginWithFault error (elements context (Plain byte ∷ symbols rest.now))) }
    ensures memory { IfErr result (λ error. error ≢ Memory) }
{
    let element = match byte {
        b'[' => return next_class(rest),
        b'?' => Element::Inside,
        b'{' => Element::Open,
        b',' => Element::Comma,
        b'}' => Element::Close,
        _ => return Ok(next_byte(byte, rest)),
    };
    Ok(Next {
        element,
        context: Context::Elsewhere,
        rest,
    })
}

// Reads a class from the text after its `[`.
fn next_class<'a>(text: &'a [u8]) -> Result<Next<'a>, PatternError>
    ensures ok { IfOk result (λ next. (context : Context)
        → elements context (Plain opening_bracket ∷ symbols text.now) ≡ elements_from (Some next)) }
    ensures context { IfOk result (λ next. next.context ≡ context_behind next.element) }
    ensures within { IfOk result (λ next. length next.rest.now ≤ length text.now) }
    ensures refused { IfErr result (λ error. (context : Context)
        → BeginWithFault error (elements context (Plain opening_bracket ∷ symbols text.now))) }
    ensures memory { IfErr result (λ error. error ≢ Memory) }
{
    let (class, rest) = Class::read(text)?;
    Ok(Next {
        element: Element::Class(class),
        context: Context::Elsewhere,
        rest,
    })
}
