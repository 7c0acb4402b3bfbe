// Lines of a text that was read.

/// The line of this number, from 1, without its newline.
pub fn line_of(text: &[u8], number: u64) -> Option<&[u8]> {
    let mut at = 0u64;
    for line in text.split(|byte| *byte == b'\n') {
        at = at.saturating_add(1);
        if at == number {
            return Some(line);
        }
    }
    None
}
