//! What may stand next in a pipeline, token by token.
ghost use Rattle.std.specs.Prelude.{◌≡◌};
ghost use Rattle.pass_pipeline.specs.Steps.{step_over, root, opening, first_item, item, pass_item, nested, separator, closed};

use crate::pass::{Anchor, Pass, pass_named};
use crate::pipeline::PipelineFail;
use crate::token::is_name;

/// What may stand next.
#[derive(Clone, Copy)]
pub(crate) enum Expected {
    /// `builtin.module`, at the start.
    Root,
    /// `(` after the name of an anchor.
    Opening(Anchor),
    /// An item or `)`.
    FirstItem(Anchor),
    /// An item, after a comma.
    Item(Anchor),
    /// `,` or `)`, after an item.
    Separator(Anchor),
    /// The end of the text.
    End,
}

/// A token that may stand in its place.
#[derive(Clone, Copy)]
pub(crate) struct Step {
    /// The pass that it names.
    pub(crate) pass: Option<Pass>,
    /// What may stand after it.
    pub(crate) next: Expected,
}

/// The step over a token with this offset. Fails as [`crate::pipeline::read_pipeline`] does.
#[tactic(auto, unfolding(crate::specs::Steps::step_over))]
pub(crate) fn step_over(
    offered: &[Pass],
    expected: Expected,
    at: u64,
    token: &[u8],
) -> Result<Step, PipelineFail>
    ensures { result ≡ step_over offered.now expected at token.now }
{
    match expected {
        Expected::Root => root(offered, at, token),
        Expected::Opening(anchor) => opening_parenthesis(anchor, at, token),
        Expected::FirstItem(anchor) => first_item(offered, anchor, at, token),
        Expected::Item(anchor) => item(offered, anchor, at, token),
        Expected::Separator(anchor) => separator(anchor, at, token),
        Expected::End => Err(PipelineFail::BadText(at)),
    }
}

// `builtin.module`.
#[tactic(auto, unfolding(crate::specs::Steps::root))]
fn root(offered: &[Pass], at: u64, token: &[u8]) -> Result<Step, PipelineFail>
    ensures { result ≡ root offered.now at token.now }
{
    if token == b"builtin.module".as_slice() {
        return Ok(Step {
            pass: None,
            next: Expected::Opening(Anchor::BuiltinModule),
        });
    }
    if !is_name(token) {
        return Err(PipelineFail::BadText(at));
    }
    match pass_named(offered, token) {
        Some(_) => Err(PipelineFail::WrongPlace(at)),
        None => Err(PipelineFail::UnknownPass(at)),
    }
}

// `(`.
#[tactic(auto, unfolding(crate::specs::Steps::opening))]
fn opening_parenthesis(anchor: Anchor, at: u64, token: &[u8]) -> Result<Step, PipelineFail>
    ensures { result ≡ opening anchor at token.now }
{
    if token == b"(".as_slice() {
        Ok(Step {
            pass: None,
            next: Expected::FirstItem(anchor),
        })
    } else {
        Err(PipelineFail::BadText(at))
    }
}

// `)` or an item.
#[tactic(auto, unfolding(crate::specs::Steps::first_item))]
fn first_item(offered: &[Pass], anchor: Anchor, at: u64, token: &[u8]) -> Result<Step, PipelineFail>
    ensures { result ≡ first_item offered.now anchor at token.now }
{
    if token == b")".as_slice() {
        Ok(closing_parenthesis(anchor))
    } else {
        item(offered, anchor, at, token)
    }
}

// The name of a pass or of an anchor.
#[tactic(auto, unfolding(crate::specs::Steps::item))]
fn item(offered: &[Pass], anchor: Anchor, at: u64, token: &[u8]) -> Result<Step, PipelineFail>
    ensures { result ≡ item offered.now anchor at token.now }
{
    if !is_name(token) {
        return Err(PipelineFail::BadText(at));
    }
    match pass_named(offered, token) {
        Some(pass) => pass_item(pass, anchor, at),
        None => nested_anchor(anchor, at, token),
    }
}

// The name of this pass.
#[tactic(auto, unfolding(crate::specs::Steps::pass_item))]
fn pass_item(pass: Pass, anchor: Anchor, at: u64) -> Result<Step, PipelineFail>
    ensures { result ≡ pass_item pass anchor at }
{
    if pass.runs_on(anchor) {
        Ok(Step {
            pass: Some(pass),
            next: Expected::Separator(anchor),
        })
    } else {
        Err(PipelineFail::WrongPlace(at))
    }
}

// A name that is no pass: `hw.module`, in `builtin.module` alone.
#[tactic(auto, unfolding(crate::specs::Steps::nested))]
fn nested_anchor(anchor: Anchor, at: u64, token: &[u8]) -> Result<Step, PipelineFail>
    ensures { result ≡ nested anchor at token.now }
{
    match anchor {
        Anchor::BuiltinModule if token == b"hw.module".as_slice() => Ok(Step {
            pass: None,
            next: Expected::Opening(Anchor::HwModule),
        }),
        _ => Err(PipelineFail::UnknownPass(at)),
    }
}

// `,` or `)`.
#[tactic(auto, unfolding(crate::specs::Steps::separator))]
fn separator(anchor: Anchor, at: u64, token: &[u8]) -> Result<Step, PipelineFail>
    ensures { result ≡ separator anchor at token.now }
{
    if token == b",".as_slice() {
        return Ok(Step {
            pass: None,
            next: Expected::Item(anchor),
        });
    }
    if token == b")".as_slice() {
        return Ok(closing_parenthesis(anchor));
    }
    Err(PipelineFail::BadText(at))
}

// What may stand after the items of an anchor.
#[tactic(auto, unfolding(crate::specs::Steps::closed))]
fn closing_parenthesis(anchor: Anchor) -> Step
    ensures { result ≡ closed anchor }
{
    let next = match anchor {
        Anchor::BuiltinModule => Expected::End,
        Anchor::HwModule => Expected::Separator(Anchor::BuiltinModule),
    };
    Step { pass: None, next }
}
