//! The target of a request.
ghost use Rattle.std.specs.Prelude.{◌≡◌, ◌≤◌, length};
ghost use Rattle.std.specs.List.{position_or_len};
ghost use Rattle.wf_http.specs.Target.{is_question_mark, path_of, query_of};

// The length of the target's path.
fn path_length(target: &[u8]) -> usize
    ensures value { result ≡ position_or_len is_question_mark target.now }
    ensures within { result ≤ length target.now }
{
    target.iter().take_while(|byte| **byte != b'?').count()
}

/// The bytes before the first question mark of a target.
pub fn path_of(target: &[u8]) -> &[u8]
    ensures { result.now ≡ path_of target.now }
{
    target.split_at(path_length(target)).0
}

/// The bytes after the first question mark of a target; none if it has none.
pub fn query_of(target: &[u8]) -> &[u8]
    ensures { result.now ≡ query_of target.now }
{
    let behind = target.split_at(path_length(target)).1;
    match behind {
        [_, query @ ..] => query,
        [] => behind,
    }
}
