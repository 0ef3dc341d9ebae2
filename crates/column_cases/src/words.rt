// The words of a line, with one space between two: two spaces in a row have an empty word between them.

// How many words there are. An empty line has none.
pub(crate) fn count(line: &[u8]) -> usize {
    if line.is_empty() {
        return 0;
    }
    line.split(|byte| *byte == b' ').count()
}

// The word behind so many others, or an empty one where there is none.
pub(crate) fn word(line: &[u8], others: usize) -> &[u8] {
    line.split(|byte| *byte == b' ').nth(others).unwrap_or(b"")
}
