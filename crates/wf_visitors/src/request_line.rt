//! The first line of a request, and that of its response's body.

/// The most bytes of a method or a path that a log has.
const MOST_LOGGED: usize = 200;

/// The method and the path of a request, empty where there is none.
#[derive(Clone, Copy)]
pub(crate) struct RequestLine<'a> {
    pub(crate) method: &'a str,
    pub(crate) path: &'a str,
}

/// The method and the path of a request that has come in part or whole; of a long line its
/// beginning.
pub(crate) fn request_line(bytes: &[u8]) -> RequestLine<'_> {
    let line = first_line(bytes);
    let (method, rest) = line.split_once(' ').unwrap_or((line, ""));
    let (target, _) = rest.split_once(' ').unwrap_or((rest, ""));
    let (path, _) = target.split_once('?').unwrap_or((target, ""));
    RequestLine { method, path }
}

/// What the response to a request of this method says, if it was sent to change something: the
/// first line of its body.
pub(crate) fn said_to<'a>(method: &str, response: &'a [u8]) -> Option<&'a str> {
    if method != "POST" {
        return None;
    }
    let text = str::from_utf8(response).ok()?;
    let (_, body) = text.split_once("\r\n\r\n")?;
    Some(first_line(body.as_bytes()))
}

/// The first line of some bytes, at most a beginning of it.
fn first_line(bytes: &[u8]) -> &str {
    let length = bytes
        .iter()
        .take_while(|byte| **byte != b'\r' && **byte != b'\n')
        .count();
    let length = length.min(bytes.len()).min(MOST_LOGGED);
    match str::from_utf8(bytes.split_at(length).0) {
        Ok(line) => line,
        Err(_) => "",
    }
}
