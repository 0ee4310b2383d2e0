ghost use Rattle.std.specs.Prelude.{◌≡◌, ◌+◌, ◌^◌, ◌<◌, ◌≤◌, ◌++◌, length, vec_len, vec_capacity};
ghost use Rattle.wf_ballot.specs.Field.{frame};
ghost use Rattle.wf_frame.specs.Frame.{header_length};

/// Appends bytes for which there is room.
pub fn put(out: &mut Vec<u8>, bytes: &[u8])
    requires { vec_len out.old + length bytes.now ≤ vec_capacity out.old }
    ensures items { out.new.items ≡ out.old.items ++ bytes.now }
    ensures len { vec_len out.new ≡ vec_len out.old + length bytes.now }
    ensures capacity { vec_capacity out.old ≤ vec_capacity out.new }
{
    out.extend_from_slice(bytes).unwrap();
}

/// Appends the header of a frame, for which there is room: it makes a frame with a body of `count`
/// bytes, which the caller appends.
pub fn put_header(out: &mut Vec<u8>, version: u8, kind: u8, count: usize)
    requires room { vec_len out.old + header_length ≤ vec_capacity out.old }
    requires four_bytes { count < 2 ^ 32 }
    ensures frame { (body : _) → length body ≡ count →
        out.new.items ++ body ≡ out.old.items ++ frame version kind body }
    ensures len { vec_len out.new ≡ vec_len out.old + header_length }
    ensures capacity { vec_capacity out.old ≤ vec_capacity out.new }
{
    put(out, &[version, kind]);
    put(out, &(count as u32).to_be_bytes());
}
