//! Reading a line, as JSON alone or as a request.
ghost use Rattle.std.specs.Prelude.{◌≡◌, ◌≤◌, IfOk, IsUtf8, is_ok, is_some, length};
ghost use Rattle.serde_json.specs.Read.{read as read_text};
ghost use Rattle.gd_runs.specs.Input.{line_from as line_of};

use crate::trouble::Trouble;
use gd_mql::fault::LineFault;
use gd_mql::line::{LINE_LIMIT, line_from};
use serde_json::Value;
use std::alloc::Global;

/// What a line is read as.
#[derive(Clone, Copy)]
pub(crate) enum Form {
    Json,
    Request,
}

/// Whether the bytes are JSON. `Memory`: there was no memory to read them.
fn is_json(alloc: Global, bytes: &[u8]) -> Result<bool, Trouble>
    ensures { IfOk result (λ json. IsUtf8 bytes.now → json ≡ is_some (read_text bytes.now)) }
{
    match Value::from_slice(alloc, bytes) {
        Ok(_) => Ok(true),
        Err(error) => {
            if error.is_memory() {
                Err(Trouble::Memory)
            } else {
                Ok(false)
            }
        }
    }
}

/// Whether the bytes are a request. `Memory`: there was no memory to read them.
fn is_request(alloc: Global, bytes: &[u8]) -> Result<bool, Trouble>
    requires { length bytes.now ≤ LINE_LIMIT }
    ensures { IfOk result (λ request. request ≡ is_ok (line_of bytes.now)) }
{
    match line_from(alloc, bytes) {
        Ok(_) => Ok(true),
        Err(LineFault::Memory) => Err(Trouble::Memory),
        Err(_) => Ok(false),
    }
}

/// A line without the newline that ended it.
fn body(line: &[u8]) -> &[u8] {
    match line.strip_suffix(b"\n") {
        Some(body) => body,
        None => line,
    }
}

/// Whether a line is of the form that it is read as. JSON lets its newline stand behind a value. A
/// line that is too long is no request.
pub(crate) fn is_of_form(alloc: Global, form: Form, line: &[u8]) -> Result<bool, Trouble> {
    match form {
        Form::Json => is_json(alloc, line),
        Form::Request => {
            let body = body(line);
            if body.len() > LINE_LIMIT {
                return Ok(false);
            }
            is_request(alloc, body)
        }
    }
}
