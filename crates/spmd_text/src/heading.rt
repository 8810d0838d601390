//! Which text is an SPMD text.

ghost use Rattle.std.specs.Prelude.{◌≡◌};
ghost use Rattle.spmd_text.specs.Headings.{is_blank, comment_after, begins_with_spmd, is_spmd};

/// Whether the byte is the end of a line, a blank, a tab or a CR.
fn is_blank(byte: u8) -> bool
    ensures { result ≡ is_blank byte }
{
    byte == b'\n' || byte == b' ' || byte == b'\t' || byte == b'\r'
}

/// Whether a comment is going on behind the byte; none, where the first word begins with it.
fn comment_after(comment: bool, byte: u8) -> Option<bool>
    ensures { result ≡ comment_after comment byte }
{
    if comment {
        return Some(byte != b'\n');
    }
    if byte == b'#' {
        return Some(true);
    }
    if is_blank(byte) {
        return Some(false);
    }
    None
}

/// Whether the first four bytes are `spmd`.
fn begins_with_spmd(bytes: &[u8]) -> bool
    ensures { result ≡ begins_with_spmd bytes.now }
{
    if bytes.len() < 4 {
        return false;
    }
    &bytes[..4] == b"spmd".as_slice()
}

/// Whether the text is an SPMD text: behind blanks, blank lines and comments, in which any byte may
/// stand, its first word begins with `spmd`. The text of a program begins with `ranks`.
pub fn is_spmd(bytes: &[u8]) -> bool
    ensures { result ≡ is_spmd bytes.now }
{
    let mut comment = false;
    for at in 0..bytes.len() {
        match comment_after(comment, bytes[at]) {
            None => return begins_with_spmd(&bytes[at..]),
            Some(next) => comment = next,
        }
    }
    false
}
