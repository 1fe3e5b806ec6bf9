//! Comments.

ghost use Rattle.std.specs.Prelude.{◌≡◌, ◌+◌, ◌<◌, ◌≤◌, ◌&&◌, ◌==◌, length, not, slice_index, IfSome, IsTrue};
ghost use Rattle.std.specs.List.{prefix_len};
ghost use Rattle.dscript_lex.specs.Scanning.{close_len, comment_len, NeverCloses};

/// Whether `*/` begins at this place.
fn closes(bytes: &[u8], at: usize) -> bool
    requires { at + 1 < length bytes.now }
    ensures { result
        ≡ (slice_index bytes.now at == 0x2a && slice_index bytes.now (at + 1) == 0x2f) }
{
    bytes[at] == b'*' && bytes[at + 1] == b'/'
}

/// How many bytes there are up to the end of the first `*/`.
fn close_len(bytes: &[u8]) -> Option<usize>
    ensures len { result ≡ close_len bytes.now }
    ensures in_range { IfSome result (λ len. len ≤ length bytes.now) }
{
    let mut at = 0;
    'search: while at + 1 < bytes.len() {
        if closes(bytes, at) {
            return Some(at + 2);
        }
        at += 1;
    }
    None
}

/// How many bytes there are before the next newline, or before the end.
fn line_len(bytes: &[u8]) -> usize
    ensures len { result ≡ prefix_len (λ c. not (c == 0x0a)) bytes.now }
    ensures in_range { result ≤ length bytes.now }
{
    bytes.iter().take_while(|byte| **byte != b'\n').count()
}

/// How many bytes a comment takes after its `/*`. `unclosed` says that no `*/` follows, so that none is
/// searched for again.
fn block_len(bytes: &[u8], unclosed: &mut bool) -> Option<usize>
    requires { IsTrue unclosed.old → close_len bytes.now ≡ None }
    ensures len { result ≡ close_len bytes.now }
    ensures in_range { IfSome result (λ len. len ≤ length bytes.now) }
    ensures unclosed { IsTrue unclosed.new → close_len bytes.now ≡ None }
{
    if *unclosed {
        return None;
    }
    let len = close_len(bytes);
    *unclosed = len.is_none();
    len
}

/// How many bytes the comment at the start takes. `unclosed` says that no `/*` here is closed.
pub(crate) fn comment_len(bytes: &[u8], unclosed: &mut bool) -> Option<usize>
    requires { IsTrue unclosed.old → NeverCloses bytes.now }
    ensures len { result ≡ comment_len bytes.now }
    ensures in_range { IfSome result (λ len. (0 < len) × (len ≤ length bytes.now)) }
    ensures unclosed { IsTrue unclosed.new → NeverCloses bytes.now }
{
    let (first, others) = bytes.split_first()?;
    let (second, rest) = others.split_first()?;
    if *first != b'/' {
        return None;
    }
    match *second {
        b'/' => Some(2 + line_len(rest)),
        b'*' => Some(2 + block_len(rest, unclosed)?),
        _ => None,
    }
}
