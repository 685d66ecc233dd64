//! What AppArmor's own variables stand for at the beginning of a path.

ghost use Rattle.std.specs.Prelude.{◌≡◌, ◌≤◌, ◌-◌, ◌++◌, IfOk, OnOk, length};
ghost use Rattle.aa_bytes.specs.Bytes.{is_digit};
ghost use Rattle.aatry_log_globs.specs.Variables.{bytes_of, front_parts, home_size, name_size, process_parts, size_behind, task_parts, texts_of};

use aa_bytes::{begins_with, begins_with_byte, behind, length_while};
use std::alloc::AllocError;

// How many bytes the front has after which the name, or the number, of a folder follows: `/home/`, `/proc/` and `/task/`.
const FRONT_SIZE: usize = 6;

// How many bytes the name has that a text has between `/home/` and a slash; 0, where it has none there.
fn name_size(path: &[u8]) -> usize
    ensures value { result ≡ name_size path.now }
    ensures within { result ≤ length path.now - 6 }
{
    if !begins_with(b"/home/", path) {
        return 0;
    }
    let rest = behind(FRONT_SIZE, path);
    let size = length_while(rest, |byte| byte != b'/');
    if begins_with_byte(b'/', behind(size, rest)) {
        size
    } else {
        0
    }
}

// How many digits a text has between a front and a slash; 0, where it has none there.
fn number_size(front: &[u8], text: &[u8]) -> usize
    ensures value { result ≡ size_behind front.now is_digit text.now }
    ensures within { result ≤ length text.now - 6 }
{
    if !begins_with(front, text) {
        return 0;
    }
    let rest = behind(FRONT_SIZE, text);
    let size = length_while(rest, |byte| byte.is_ascii_digit());
    if begins_with_byte(b'/', behind(size, rest)) {
        size
    } else {
        0
    }
}

// How many bytes the home folder has that a path lies in; 0, where it lies in none.
fn home_size(path: &[u8]) -> usize
    ensures { result ≡ home_size path.now }
{
    if begins_with(b"/root/", path) {
        return 5;
    }
    let size = name_size(path);
    if size == 0 { 0 } else { FRONT_SIZE + size }
}

// Appends the pattern for the folder of a task with which a text begins to `out`, and returns how many bytes of the text that covers; 0, where it
// begins with none.
fn push_task(out: &mut Vec<u8>, text: &[u8]) -> Result<usize, AllocError>
    ensures pattern { OnOk result (out.new.items ≡ out.old.items ++ texts_of (task_parts text.now)) }
    ensures size { IfOk result (λ size. size ≡ length (bytes_of (task_parts text.now))) }
{
    let size = number_size(b"/task/", text);
    if size == 0 {
        return Ok(0);
    }
    out.extend_from_slice(b"/task/@{tid}")?;
    Ok(FRONT_SIZE + size)
}

// Appends the pattern for the folder of a process that a path lies in to `out`, with that of its task, and returns how many bytes of the path that
// covers; 0, where it lies in none.
fn push_process(out: &mut Vec<u8>, path: &[u8]) -> Result<usize, AllocError>
    ensures pattern { OnOk result (out.new.items ≡ out.old.items ++ texts_of (process_parts path.now)) }
    ensures size { IfOk result (λ size. size ≡ length (bytes_of (process_parts path.now))) }
{
    let size = number_size(b"/proc/", path);
    if size == 0 {
        return Ok(0);
    }
    out.extend_from_slice(b"@{PROC}/@{pid}")?;
    let task = push_task(out, behind(FRONT_SIZE + size, path))?;
    Ok(FRONT_SIZE + size + task)
}

/// Appends the pattern for the beginning of a path to a text, and returns how many bytes of the path that stands for: `@{HOME}` for the home folder
/// that the path lies in, `@{PROC}/@{pid}` for the folder of a process below `/proc`, followed by `/task/@{tid}` for that of a task; nothing for any
/// other.
///
/// # Errors
///
/// Where memory runs out. A beginning may have been appended then.
pub fn push_front(out: &mut Vec<u8>, path: &[u8]) -> Result<usize, AllocError>
    ensures pattern { OnOk result (out.new.items ≡ out.old.items ++ texts_of (front_parts path.now)) }
    ensures size { IfOk result (λ size. size ≡ length (bytes_of (front_parts path.now))) }
{
    let size = home_size(path);
    if size == 0 {
        return push_process(out, path);
    }
    out.extend_from_slice(b"@{HOME}")?;
    Ok(size)
}
