//! Logs that gzip wrote, whose bytes are no lines.

ghost use Rattle.std.specs.Prelude.{◌≡◌, IfOk, option_map, string_bytes};
ghost use Rattle.aatry_logs.specs.Compressed.{IsNamedCompressed, is_compressed, told_name};

use aa_bytes::begins_with;
use aatry_folder::Fault;
use std::alloc::{AllocError, Global};

// The bytes with which a file of gzip begins.
const GZIP_MARK: &[u8] = b"\x1f\x8b";

/// Whether some bytes, those of a file or of its first line, begin like a file of gzip (RFC 1952, section 2.3.1). It takes no memory.
pub fn is_compressed(bytes: &[u8]) -> bool
    ensures { result ≡ is_compressed bytes.now }
{
    begins_with(GZIP_MARK, bytes)
}

// The name by which a log is reported: its path, or that of standard input.
fn told_name(alloc: Global, file: Option<&str>) -> Result<String, AllocError>
    ensures { IfOk result (λ name. string_bytes name ≡ told_name (option_map (λ path. path.now) file.entry)) }
{
    match file {
        Some(path) => String::from_str(alloc, path),
        None => String::from_str(alloc, "-"),
    }
}

/// The fault of a log that gzip wrote: its path, or `-` for standard input.
///
/// # Errors
///
/// Where memory runs out.
pub fn compressed(alloc: Global, file: Option<&str>) -> Result<Fault, AllocError>
    ensures { IfOk result (IsNamedCompressed (option_map (λ path. path.now) file.entry)) }
{
    Ok(Fault::Compressed(told_name(alloc, file)?))
}
