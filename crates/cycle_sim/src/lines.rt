//! The lines of steps.
ghost use Rattle.std.specs.Prelude.{◌≡◌, ◌++◌, OnOk};
ghost use Rattle.cycle_sim.specs.RunLines.{word_text, more_words, words_line};

use bits_core::Bits;
use io_edge::byte_text::Text;
use std::alloc::AllocError;
use verilog_model::push_literal;

/// Adds the line of a step whose outputs have leaves of these words: as literals, joined by one blank.
pub(crate) fn push_line(text: &mut Text, words: &[Bits]) -> Result<(), AllocError>
    ensures { OnOk result (text.new ≡ text.old ++ words_line words.now) }
{
    if let Some((first, others)) = words.split_first() {
        push_word(text, first)?;
        push_more(text, others)?;
    }
    text.push_bytes(b"\n")?;
    Ok(())
}

// Adds words as literals, each behind a blank.
fn push_more(text: &mut Text, words: &[Bits]) -> Result<(), AllocError>
    ensures { OnOk result (text.new ≡ text.old ++ more_words words.now) }
{
    for word in words {
        text.push_bytes(b" ")?;
        push_word(text, word)?;
    }
    Ok(())
}

// Adds a word as a literal.
#[tactic(auto, unfolding(crate::specs::RunLines::word_text))]
fn push_word(text: &mut Text, word: &Bits) -> Result<(), AllocError>
    ensures { OnOk result (text.new ≡ text.old ++ word_text word.now) }
{
    push_literal(text, u64::from(word.width()), false, word.value())?;
    Ok(())
}
