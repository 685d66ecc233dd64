//! Whether lines are to be in colours.

ghost use Rattle.std.specs.Prelude.{◌≡◌, IfOk, map, string_bytes};
ghost use Rattle.std.specs.Option.{option_map};
ghost use Rattle.aatry_hints.specs.Wishes.{is_colored, seen_wished, wish_named, wish_of, wished, wished_by};
ghost use Rattle.aatry_arguments.specs.SeenValues.{seen_value};

use aatry_arguments::{NamedOption, WithValue, value_of};
use std::alloc::{AllocError, Global};

/// When lines are to be in colours.
#[derive(Clone, Copy)]
pub enum ColorWish {
    /// At a terminal that takes them.
    AtTerminal,
    /// Always.
    Always,
    /// Never.
    Never,
}

/// The wish of words for colours, and the words without it.
#[derive(Drop)]
pub struct WithWish {
    /// The wish.
    pub wish: ColorWish,
    /// The other words, in their order.
    pub words: Vec<String>,
}

// The option for colours.
const COLOR: NamedOption = NamedOption {
    word: "--color",
    opening: "--color=",
};

// The wish of a value; `None` where it is no valid one.
fn wish_of(value: &[u8]) -> Option<ColorWish>
    ensures { result ≡ wish_of value.now }
{
    if value == b"auto".as_slice() {
        Some(ColorWish::AtTerminal)
    } else if value == b"always".as_slice() {
        Some(ColorWish::Always)
    } else if value == b"never".as_slice() {
        Some(ColorWish::Never)
    } else {
        None
    }
}

// The wish of a value; at a terminal, where it is missing.
fn wish_named(value: &Option<Vec<u8>>) -> Option<ColorWish>
    ensures { result ≡ wish_named (option_map (λ value. value.items) value.now) }
{
    match value {
        Some(value) => wish_of(value),
        None => Some(ColorWish::AtTerminal),
    }
}

// The wish, by what was read of the option.
fn wished_by(read: Option<WithValue>) -> Option<WithWish>
    ensures { option_map seen_wished result ≡ wished_by (option_map seen_value read) }
{
    let WithValue { value, words } = read?;
    Some(WithWish {
        wish: wish_named(&value)?,
        words,
    })
}

/// The wish of words for colours, before the first `--`, and the words without it: by `--color` and `auto`, `always` or `never` in the next word, or
/// after a `=` in the same. Where it is given again, the last counts. `None` where the value is missing or another.
///
/// # Errors
///
/// Where memory runs out.
pub fn wished(alloc: Global, words: &[String]) -> Result<Option<WithWish>, AllocError>
    ensures { IfOk result (λ read. option_map seen_wished read ≡ wished (map string_bytes words.now)) }
{
    let read = value_of(alloc, COLOR, words)?;
    Ok(wished_by(read))
}

/// Whether lines are to be in colours, by whether they go to a terminal that takes colours. It takes no memory.
pub fn is_colored(wish: ColorWish, takes_colors: bool) -> bool
    ensures { result ≡ is_colored wish takes_colors }
{
    match wish {
        ColorWish::AtTerminal => takes_colors,
        ColorWish::Always => true,
        ColorWish::Never => false,
    }
}
