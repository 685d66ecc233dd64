//! Texts in records.

ghost use Rattle.std.specs.Prelude.{◌≡◌, IfOk, map};
ghost use Rattle.aatry_report.specs.Records.{digits_data, text_data, texts_data};
ghost use Rattle.serde_json.specs.Data.{array};
ghost use Rattle.serde_json.specs.View.{view};

use serde_json::{Value, json};
use std::alloc::{AllocError, Global};

// A text that isn't UTF-8, by its bytes in hexadecimal digits.
fn by_digits(alloc: Global, text: &[u8]) -> Result<Value, AllocError>
    ensures { IfOk result (λ value. view value ≡ digits_data text.now) }
{
    let digits = hex::encode(alloc, text)?;
    json!(in alloc; {"hex": digits})
}

/// A text in a record.
///
/// # Errors
///
/// Where memory runs out.
pub fn text_value(alloc: Global, text: &[u8]) -> Result<Value, AllocError>
    ensures { IfOk result (λ value. view value ≡ text_data text.now) }
{
    match std::str::from_utf8(text) {
        Ok(text) => Value::try_from_str(alloc, text),
        Err(_) => by_digits(alloc, text),
    }
}

// The values of texts, in their order.
fn text_values(alloc: Global, texts: &[&[u8]]) -> Result<Vec<Value>, AllocError>
    ensures { IfOk result (λ values. map view values.items ≡ map text_data (map (λ text. text.now) texts.now)) }
{
    let mut values = Vec::with_capacity(alloc, texts.len())?;
    for text in texts {
        values.push(text_value(alloc, text)?)?;
    }
    Ok(values)
}

/// Texts in a record, in their order.
///
/// # Errors
///
/// Where memory runs out.
pub fn texts_value(alloc: Global, texts: &[&[u8]]) -> Result<Value, AllocError>
    ensures { IfOk result (λ value. view value ≡ array (texts_data (map (λ text. text.now) texts.now))) }
{
    Ok(Value::Array(text_values(alloc, texts)?))
}
