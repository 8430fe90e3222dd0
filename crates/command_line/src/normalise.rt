//! Words made regular.
ghost use Rattle.std.specs.Prelude.{◌≡◌, IfOk, IfErr, OnOk, ◌++◌, [], map, string_bytes, codes, Some, None};
ghost use Rattle.command_line.specs.Normal.{normal, unless, with_second_dash, wants_dash, characters, is_end, is_reserved, begins, all_dashed, has_reserved, flag_of, flags, without_flags, passes_word, passes_words, with_passes_word, takes_passes, with_passes};
ghost use Rattle.std.specs.List.{cons_option};
ghost use Rattle.pass_pipeline.specs.Passes.{pass_name};
ghost use Rattle.command_line.specs.declared.normalise.WordsFail.TheVariants.{Reserved};

use pass_pipeline::pass::{Pass, pass_named};
use std::alloc::{AllocError, Global};

/// Why words were not made regular.
#[derive(Clone, Copy, PartialEq, Eq)]
pub enum WordsFail {
    /// A word is kept for the program itself.
    Reserved,
    /// There was no memory for them.
    NoMemory,
}

impl From<AllocError> for WordsFail {
    ghost use Rattle.std.specs.Prelude.{◌≡◌};
    ghost use Rattle.command_line.specs.declared.normalise.WordsFail.TheVariants.{NoMemory};

    ghost from_gives = { λ _ fail. fail ≡ NoMemory };

    fn from(_error: AllocError) -> WordsFail {
        WordsFail::NoMemory
    }
}

/// The words made regular: a long option with one dash gets its second one, and after a first word
/// that takes passes the flags of passes of `offered` become one word `--passes=`. Words after a
/// word `--` stay as they are. It is `Reserved` exactly where a word before that is then `--passes`
/// or begins with `--passes=`.
#[tactic(auto, unfolding(crate::specs::Normal::normal))]
pub fn normalise(
    alloc: Global,
    words: &[String],
    offered: &[Pass],
) -> Result<Vec<String>, WordsFail>
    ensures ok { IfOk result (λ v. normal offered.now (map string_bytes words.now) ≡ Some (map string_bytes v.items)) }
    ensures reserved { IfErr result (λ e. e ≡ Reserved → normal offered.now (map string_bytes words.now) ≡ None) }
{
    match with_dashes(alloc, words) {
        Ok(dashed) => unless_reserved(alloc, dashed, offered),
        Err(_) => Err(WordsFail::NoMemory),
    }
}

/// Words with their second dashes made regular, unless one is kept for the program itself.
fn unless_reserved(
    alloc: Global,
    words: Vec<String>,
    offered: &[Pass],
) -> Result<Vec<String>, WordsFail>
    ensures ok { IfOk result (λ v. unless (has_reserved (map string_bytes words.items)) (with_passes offered.now (map string_bytes words.items)) ≡ Some (map string_bytes v.items)) }
    ensures reserved { IfErr result (λ e. e ≡ Reserved → unless (has_reserved (map string_bytes words.items)) (with_passes offered.now (map string_bytes words.items)) ≡ None) }
{
    if has_reserved(&words) {
        return Err(WordsFail::Reserved);
    }
    match with_passes(alloc, words, offered) {
        Ok(regular) => Ok(regular),
        Err(_) => Err(WordsFail::NoMemory),
    }
}

/// The words with their second dashes.
fn with_dashes(alloc: Global, words: &[String]) -> Result<Vec<String>, AllocError>
    ensures { IfOk result (λ v. map string_bytes v.items ≡ all_dashed (map string_bytes words.now)) }
{
    let mut out = Vec::new(alloc);
    let mut open = true;
    for word in words {
        let regular = if open {
            with_dash(alloc, word)?
        } else {
            String::from_str(alloc, word)?
        };
        if is_end(&regular) {
            open = false;
        }
        out.push(regular)?;
    }
    Ok(out)
}

/// A word with its second dash, where it wants one.
fn with_dash(alloc: Global, word: &str) -> Result<String, AllocError>
    ensures { IfOk result (λ s. string_bytes s ≡ with_second_dash word.now) }
{
    match word.as_bytes() {
        [b'-', rest @ ..] if wants_dash(rest) => format!(in alloc; "-{word}"),
        _ => String::from_str(alloc, word),
    }
}

/// Whether the text after one dash asks for a second one.
fn wants_dash(rest: &[u8]) -> bool
    ensures { result ≡ wants_dash rest.now }
{
    match rest {
        [] | [b'-', ..] => false,
        _ => characters(rest) > 1,
    }
}

/// How many characters stand before the first `=`.
fn characters(bytes: &[u8]) -> usize
    ensures { result ≡ characters bytes.now }
{
    let mut count: usize = 0;
    for byte in bytes {
        if *byte == b'=' {
            return count;
        }
        if byte >> 6 != 2 {
            count = count.saturating_add(1);
        }
    }
    count
}

/// Whether the word ends the options.
fn is_end(word: &str) -> bool
    ensures { result ≡ is_end word.now }
{
    word == "--"
}

/// Whether a word before `--` is kept for the program itself.
fn has_reserved(words: &[String]) -> bool
    ensures { result ≡ has_reserved (map string_bytes words.now) }
{
    for word in words {
        if is_end(word) {
            return false;
        }
        if is_reserved(word) {
            return true;
        }
    }
    false
}

/// Whether the word is kept for the program itself.
fn is_reserved(word: &str) -> bool
    ensures { result ≡ is_reserved word.now }
{
    word == "--passes" || begins(b"--passes=", word.as_bytes())
}

/// Whether a word begins with this prefix.
fn begins(prefix: &[u8], word: &[u8]) -> bool
    ensures { result ≡ begins prefix.now word.now }
{
    word.starts_with(prefix)
}

/// The words with the passes of flags as one word after the first one, where that takes passes.
fn with_passes(
    alloc: Global,
    words: Vec<String>,
    offered: &[Pass],
) -> Result<Vec<String>, AllocError>
    ensures { IfOk result (λ v. map string_bytes v.items ≡ with_passes offered.now (map string_bytes words.items)) }
{
    match words.as_slice() {
        [first, others @ ..] if takes_passes(first) => {
            with_passes_word(alloc, first, others, offered)
        },
        _ => Ok(words),
    }
}

/// Whether a first word names a command that takes passes.
fn takes_passes(word: &str) -> bool
    ensures { result ≡ takes_passes word.now }
{
    word == "opt" || word == "translate"
}

/// The first word, the passes of flags among the others as one word, and the other words.
fn with_passes_word(
    alloc: Global,
    first: &str,
    others: &[String],
    offered: &[Pass],
) -> Result<Vec<String>, AllocError>
    ensures { IfOk result (λ v. map string_bytes v.items ≡ with_passes_word first.now (flags offered.now (map string_bytes others.now)) (without_flags offered.now (map string_bytes others.now))) }
{
    let passes = flags(alloc, others, offered)?;
    let mut words = Vec::new(alloc);
    match push_words(alloc, &mut words, first, passes.as_slice(), others, offered) {
        Ok(()) => Ok(words),
        Err(error) => Err(error),
    }
}

/// Adds the first word, passes as one word, and those of the other words that are no flags of passes.
fn push_words(
    alloc: Global,
    words: &mut Vec<String>,
    first: &str,
    passes: &[Pass],
    others: &[String],
    offered: &[Pass],
) -> Result<(), AllocError>
    ensures { OnOk result (map string_bytes words.new.items ≡ map string_bytes words.old.items ++ with_passes_word first.now passes.now (without_flags offered.now (map string_bytes others.now))) }
{
    words.push(String::from_str(alloc, first)?)?;
    push_passes(alloc, words, passes)?;
    push_others(alloc, words, others, offered)
}

/// The passes of flags, in order.
fn flags(alloc: Global, words: &[String], offered: &[Pass]) -> Result<Vec<Pass>, AllocError>
    ensures { IfOk result (λ v. v.items ≡ flags offered.now (map string_bytes words.now)) }
{
    let mut passes = Vec::new(alloc);
    for word in words {
        if is_end(word) {
            return Ok(passes);
        }
        push_pass(&mut passes, flag_of(offered, word.as_bytes()))?;
    }
    Ok(passes)
}

/// Adds a pass, if there is one.
fn push_pass(passes: &mut Vec<Pass>, pass: Option<Pass>) -> Result<(), AllocError>
    ensures { OnOk result (passes.new.items ≡ passes.old.items ++ cons_option pass []) }
{
    if let Some(pass) = pass {
        passes.push(pass)?;
    }
    Ok(())
}

/// The pass of which a word is the flag.
fn flag_of(offered: &[Pass], word: &[u8]) -> Option<Pass>
    ensures { result ≡ flag_of offered.now word.now }
{
    match word {
        [b'-', b'-', name @ ..] => pass_named(offered, name),
        _ => None,
    }
}

/// Adds the word that has these passes, if there are any.
fn push_passes(alloc: Global, words: &mut Vec<String>, passes: &[Pass]) -> Result<(), AllocError>
    ensures { OnOk result (map string_bytes words.new.items ≡ map string_bytes words.old.items ++ passes_words passes.now) }
{
    if let [first, more @ ..] = passes {
        words.push(passes_word(alloc, *first, more)?)?;
    }
    Ok(())
}

/// The word that has these passes.
fn passes_word(alloc: Global, first: Pass, more: &[Pass]) -> Result<String, AllocError>
    ensures { IfOk result (λ s. string_bytes s ≡ passes_word first more.now) }
{
    let name = first.name();
    let mut word = format!(in alloc; "--passes={name}")?;
    for pass in more {
        push_name(&mut word, *pass)?;
    }
    Ok(word)
}

/// Adds a comma and the name of a pass.
fn push_name(word: &mut String, pass: Pass) -> Result<(), AllocError>
    ensures { OnOk result (string_bytes word.new ≡ string_bytes word.old ++ (codes "," ++ pass_name pass)) }
{
    word.push_str(",")?;
    word.push_str(pass.name())
}

/// Adds the words that are no flags of passes.
fn push_others(
    alloc: Global,
    words: &mut Vec<String>,
    others: &[String],
    offered: &[Pass],
) -> Result<(), AllocError>
    ensures { OnOk result (map string_bytes words.new.items ≡ map string_bytes words.old.items ++ without_flags offered.now (map string_bytes others.now)) }
{
    let mut ended = false;
    for word in others {
        ended = ended || is_end(word);
        if ended || flag_of(offered, word.as_bytes()).is_none() {
            words.push(String::from_str(alloc, word)?)?;
        }
    }
    Ok(())
}
