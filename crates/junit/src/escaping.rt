//! Texts in XML.

ghost use Rattle.std.specs.Prelude.{◌≡◌, ◌++◌, OnOk};
ghost use Rattle.junit.specs.Report.{escaped_byte, escaped, printable_byte};

use std::alloc::AllocError;

/// Writes a byte, or a question mark where it is no printable ASCII.
fn put_plain(out: &mut Vec<u8>, byte: u8) -> Result<(), AllocError>
    ensures { OnOk result (out.new.items ≡ out.old.items ++ printable_byte byte) }
{
    if byte < 32 || byte > 126 {
        out.push(b'?')?;
    } else {
        out.push(byte)?;
    }
    Ok(())
}

/// Writes what stands for a byte.
fn put_escape(out: &mut Vec<u8>, byte: u8) -> Result<(), AllocError>
    ensures { OnOk result (out.new.items ≡ out.old.items ++ escaped_byte byte) }
{
    if byte == b'&' {
        out.extend_from_slice(b"&amp;")
    } else if byte == b'<' {
        out.extend_from_slice(b"&lt;")
    } else if byte == b'>' {
        out.extend_from_slice(b"&gt;")
    } else if byte == b'"' {
        out.extend_from_slice(b"&quot;")
    } else if byte == b'\n' {
        out.extend_from_slice(b"\n")
    } else {
        put_plain(out, byte)
    }
}

/// Writes a text.
pub fn put_escaped(out: &mut Vec<u8>, text: &[u8]) -> Result<(), AllocError>
    ensures { OnOk result (out.new.items ≡ out.old.items ++ escaped text.now) }
{
    for byte in text {
        put_escape(out, *byte)?;
    }
    Ok(())
}
