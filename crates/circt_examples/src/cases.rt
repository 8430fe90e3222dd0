//! The cases of a file, and the commands that it names.
use std::alloc::{AllocError, Global};

// The line between two cases, before its end and blanks there.
const SEPARATOR: &str = "// -----";

// What the line of a label begins with, before the label.
const COMMENT: &str = "// ";

// What a line that names a command begins with, before the words of the command.
const RUN: &str = "// RUN: circt ";

/// A case of a file.
#[derive(Drop)]
pub struct Case {
    /// What it shows.
    pub label: String,
    /// Its text, without the line of the label.
    pub text: String,
}

// The texts between the lines `// -----` of a text, without the lines that name commands.
fn pieces_of(alloc: Global, text: &str) -> Result<Vec<String>, AllocError> {
    let mut pieces = Vec::new(alloc);
    let mut piece = String::new(alloc);
    for line in text.split_inclusive('\n') {
        if line.trim_end() == SEPARATOR {
            pieces.push(piece)?;
            piece = String::new(alloc);
        } else if !line.starts_with(RUN) {
            piece.push_str(line)?;
        }
    }
    pieces.push(piece)?;
    Ok(pieces)
}

// The case that a piece says, or none where its first line `// LABEL` is missing.
fn case_of(alloc: Global, piece: &str) -> Result<Option<Case>, AllocError> {
    let (line, text) = match piece.split_once('\n') {
        Some((line, text)) => (line, text),
        None => (piece, ""),
    };
    match line.strip_prefix(COMMENT) {
        Some(label) => Ok(Some(Case {
            label: String::from_str(alloc, label)?,
            text: String::from_str(alloc, text)?,
        })),
        None => Ok(None),
    }
}

/// Whether one of these cases has a label.
fn is_labelled(cases: &[Case], label: &str) -> bool {
    for case in cases {
        if case.label.as_str() == label {
            return true;
        }
    }
    false
}

/// The cases of a text, or none where one has no label, or that of an earlier one. A line `// -----` stands between two, and the first
/// line of each is `// LABEL`. Lines that name commands are in no case. The error comes only when out of memory.
pub fn cases(alloc: Global, text: &str) -> Result<Option<Vec<Case>>, AllocError> {
    let mut cases = Vec::new(alloc);
    for piece in &pieces_of(alloc, text)? {
        let Some(case) = case_of(alloc, piece.as_str())? else {
            return Ok(None);
        };
        if is_labelled(cases.as_slice(), case.label.as_str()) {
            return Ok(None);
        }
        cases.push(case)?;
    }
    Ok(Some(cases))
}

/// Whether cases have the same labels, in the same order.
pub fn are_labelled_alike(cases: &[Case], others: &[Case]) -> bool {
    let mut alike = cases.len() == others.len();
    for (case, other) in cases.iter().zip(others) {
        alike &= case.label.as_str() == other.label.as_str();
    }
    alike
}

/// The words of the commands that a text names by lines `// RUN: circt WORDS`: of those that begin so, or of this command alone where
/// there are none. The error comes only when out of memory.
pub fn commands(
    alloc: Global,
    text: &str,
    begin: &str,
    command: &str,
) -> Result<Vec<String>, AllocError> {
    let mut commands = Vec::new(alloc);
    for line in text.lines() {
        if let Some(words) = line.strip_prefix(RUN) {
            if words.starts_with(begin) {
                commands.push(String::from_str(alloc, words)?)?;
            }
        }
    }
    if commands.is_empty() {
        commands.push(String::from_str(alloc, command)?)?;
    }
    Ok(commands)
}
