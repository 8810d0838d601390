//! What is wrong with a line that has no shape, whatever its words say.

/// Whether the line is a comment, or ends with one.
fn has_comment(line: &[u8]) -> bool {
    line.contains(&b'#')
        || line.starts_with(b";")
        || line.starts_with(b"!")
        || line
            .split(|byte| *byte == b' ')
            .any(|word| word.starts_with(b"//"))
}

/// What is wrong with the blanks of a line.
fn blank_fault(line: &[u8]) -> Option<&'static str> {
    if line.contains(&b'\t') {
        Some("a tab stands in it: exactly one blank parts two words")
    } else if line.starts_with(b" ") {
        Some("it begins with a blank: no line may be indented")
    } else if line.ends_with(b" ") {
        Some("it ends with a blank")
    } else if line.windows(2).any(|pair| pair == b"  ".as_slice()) {
        Some("two blanks stand side by side: exactly one parts two words")
    } else {
        None
    }
}

/// What is wrong with the spelling of a line, where something is.
pub fn spelling_fault(line: &[u8]) -> Option<&'static str> {
    if line.ends_with(b"\r") {
        Some("it ends with CR LF: LF alone ends a line")
    } else if line.trim_ascii().is_empty() {
        Some("blank lines may not stand in a program")
    } else if has_comment(line.trim_ascii_start()) {
        Some("comments may not stand in a program")
    } else {
        blank_fault(line)
    }
}
