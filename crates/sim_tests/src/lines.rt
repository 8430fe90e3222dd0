//! Lines and words.
use std::test::Fail;
use text_lines::lines::Lines;
use text_lines::words::Words;

// How many lines a text has.
fn line_count(text: &[u8]) -> usize {
    let mut count = 0usize;
    for _ in Lines::new(text) {
        count = count.saturating_add(1);
    }
    count
}

// How many words a line has.
fn word_count(line: &[u8]) -> usize {
    let mut count = 0usize;
    for _ in Words::new(line) {
        count = count.saturating_add(1);
    }
    count
}

#[test]
fn texts_have_lines_and_lines_words(rt: HostRuntime) -> Result<(), Fail> {
    assert_eq!(rt; line_count(b"a bc\n\n \t\r\nlast"), 4);
    assert_eq!(rt; line_count(b""), 0);
    assert_eq!(rt; word_count(b" a\tbc\r d "), 3);
    assert_eq!(rt; word_count(b" \t\r"), 0);
    Ok(())
}
