//! What stands in the header of a module (CIRCT, HW dialect: `hw.module`).
ghost use Rattle.std.specs.Prelude.{◌≡◌, ◌≤◌, length, map, Ok, OnOk};
ghost use Rattle.ir_store.specs.DictionaryViews.{entries_in};
ghost use Rattle.hw_model.specs.TypeViews.{type_of};
ghost use Rattle.mlir_operations.specs.ModuleText.{header, port_name, port_type, input_port, output_port, port_text, older_input, older_outputs, older_ports, ports_text, attributes_text, private_text};
ghost use Rattle.mlir_operations.specs.PortForms.{port_in};
ghost use Rattle.mlir_lexer.specs.declared.token.TokenKind.TheVariants as kind;
ghost use Rattle.mlir_syntax.specs.Reads.{some_items, items_until};
ghost use Rattle.mlir_syntax.specs.Views.{ReadsAs};
ghost use Rattle.mlir_operations.specs.Views.{port_text_of};

use crate::operand_text::value_name;
use crate::operation_text::HEADER;
use crate::syntax::PortText;
use diag::refusal::OpName;
use hw_model::types::Ty;
use io_edge::byte_text::Text;
use ir_store::dictionary::Dictionary;
use mlir_lexer::token::TokenKind;
use mlir_syntax::dictionary_text::StringKeys;
use mlir_syntax::fail::ReadFail;
use mlir_syntax::reader::Reader;

/// `private`, or nothing.
#[tactic(auto, unfolding(crate::specs::ModuleText::private_text))]
pub fn private_text(reader: &mut Reader<'_>) -> bool
    ensures gives { private_text reader.old ≡ Ok (result, reader.new) }
    ensures shorter { length reader.new ≤ length reader.old }
{
    reader.pass_word(b"private")
}

/// `attributes {..}`, or nothing.
///
/// Refuses the first token that no dictionary has there.
#[tactic(auto, unfolding(crate::specs::ModuleText::attributes_text))]
pub fn header_attributes(reader: &mut Reader<'_>, op: OpName) -> Result<Dictionary, ReadFail>
    ensures gives { ReadsAs entries_in result reader.new (attributes_text op reader.old) }
    ensures shorter { OnOk result (length reader.new ≤ length reader.old) }
{
    if reader.pass_word(b"attributes") {
        reader.dictionary_text(op, StringKeys::Hint)
    } else {
        Ok(Dictionary::new(reader.alloc()))
    }
}

/// How a port is written.
#[derive(Clone, Copy)]
enum PortForm {
    /// `in %v ["name"] : T` or `out name : T`.
    Directed,
    /// `%v : T`, an input of the older header.
    OlderInput,
    /// `name : T`, an output of the older header.
    OlderOutput,
}

/// `(PORTS)`, or `(INPUTS) [-> (OUTPUTS)]` of the older header, whose inputs begin with their values.
///
/// Refuses the first token that no list of ports has there; the two kinds of ports are not mixed.
#[tactic(auto, unfolding(crate::specs::ModuleText::ports_text, mlir_syntax::specs::Reads::items_until))]
pub fn ports_text<'s>(reader: &mut Reader<'s>) -> Result<Vec<PortText<'s>>, ReadFail>
    ensures gives { ReadsAs (λ ports. map port_text_of ports.items) result reader.new (ports_text reader.old) }
    ensures shorter { OnOk result (length reader.new ≤ length reader.old) }
{
    reader.want(HEADER, TokenKind::LeftParenthesis)?;
    if reader.is_next(TokenKind::ValueName) || reader.is_next(TokenKind::RightParenthesis) {
        return older_ports(reader);
    }
    ports_until(reader, PortForm::Directed)
}

// `INPUTS) [-> (OUTPUTS)]`, the ports of the older header after their parenthesis.
#[tactic(auto, unfolding(crate::specs::ModuleText::older_ports))]
fn older_ports<'s>(reader: &mut Reader<'s>) -> Result<Vec<PortText<'s>>, ReadFail>
    ensures gives { ReadsAs (λ ports. map port_text_of ports.items) result reader.new (older_ports reader.old) }
    ensures shorter { OnOk result (length reader.new ≤ length reader.old) }
{
    let mut ports = ports_until(reader, PortForm::OlderInput)?;
    let mut outputs = older_outputs(reader)?;
    ports.append(&mut outputs)?;
    Ok(ports)
}

// `-> (OUTPUTS)`, or nothing.
#[tactic(auto, unfolding(crate::specs::ModuleText::older_outputs))]
fn older_outputs<'s>(reader: &mut Reader<'s>) -> Result<Vec<PortText<'s>>, ReadFail>
    ensures gives { ReadsAs (λ ports. map port_text_of ports.items) result reader.new (older_outputs reader.old) }
    ensures shorter { OnOk result (length reader.new ≤ length reader.old) }
{
    if !reader.pass(TokenKind::Arrow) {
        return Ok(Vec::new(reader.alloc()));
    }
    reader.want(HEADER, TokenKind::LeftParenthesis)?;
    ports_until(reader, PortForm::OlderOutput)
}

// Ports of a form up to the closing parenthesis.
#[tactic(auto, unfolding(mlir_syntax::specs::Reads::items_until))]
fn ports_until<'s>(reader: &mut Reader<'s>, form: PortForm) -> Result<Vec<PortText<'s>>, ReadFail>
    ensures gives { ReadsAs (λ ports. map port_text_of ports.items) result reader.new (items_until header kind.RightParenthesis (port_in form) reader.old) }
    ensures shorter { OnOk result (length reader.new ≤ length reader.old) }
{
    if reader.pass(TokenKind::RightParenthesis) {
        return Ok(Vec::new(reader.alloc()));
    }
    let ports = some_ports(reader, form)?;
    reader.want(HEADER, TokenKind::RightParenthesis)?;
    Ok(ports)
}

// One port or more.
fn some_ports<'s>(reader: &mut Reader<'s>, form: PortForm) -> Result<Vec<PortText<'s>>, ReadFail>
    ensures gives { ReadsAs (λ ports. map port_text_of ports.items) result reader.new (some_items header (port_in form) reader.old) }
    ensures shorter { OnOk result (length reader.new ≤ length reader.old) }
{
    let mut ports = Vec::new(reader.alloc());
    loop {
        match port_in(reader, form) {
            Ok(port) => ports.push(port)?,
            Err(fail) => return Err(fail),
        }
        if !reader.pass(TokenKind::Comma) {
            return Ok(ports);
        }
    }
}

// A port of a form.
fn port_in<'s>(reader: &mut Reader<'s>, form: PortForm) -> Result<PortText<'s>, ReadFail>
    ensures gives { ReadsAs port_text_of result reader.new (port_in form reader.old) }
    ensures shorter { OnOk result (length reader.new ≤ length reader.old) }
{
    match form {
        PortForm::Directed => port_text(reader),
        PortForm::OlderInput => older_input(reader),
        PortForm::OlderOutput => output_port(reader),
    }
}

// `%v : T`, an input of the older header.
#[tactic(auto, unfolding(crate::specs::ModuleText::older_input))]
fn older_input<'s>(reader: &mut Reader<'s>) -> Result<PortText<'s>, ReadFail>
    ensures gives { ReadsAs port_text_of result reader.new (older_input reader.old) }
    ensures shorter { OnOk result (length reader.new ≤ length reader.old) }
{
    let value = value_name(reader, HEADER)?;
    let ty = port_type(reader)?;
    Ok(PortText {
        value: Some(value),
        name: Text::of(reader.alloc(), value)?,
        ty,
    })
}

// A port with its direction.
#[tactic(auto, unfolding(crate::specs::ModuleText::port_text))]
fn port_text<'s>(reader: &mut Reader<'s>) -> Result<PortText<'s>, ReadFail>
    ensures gives { ReadsAs port_text_of result reader.new (port_text reader.old) }
    ensures shorter { OnOk result (length reader.new ≤ length reader.old) }
{
    if reader.pass_word(b"in") {
        return input_port(reader);
    }
    if reader.pass_word(b"out") {
        return output_port(reader);
    }
    Err(ReadFail::Refused(reader.unexpected_token(HEADER)))
}

// `%v ["name"] : T` after `in`.
#[tactic(auto, unfolding(crate::specs::ModuleText::input_port))]
fn input_port<'s>(reader: &mut Reader<'s>) -> Result<PortText<'s>, ReadFail>
    ensures gives { ReadsAs port_text_of result reader.new (input_port reader.old) }
    ensures shorter { OnOk result (length reader.new ≤ length reader.old) }
{
    let value = value_name(reader, HEADER)?;
    let name = port_name(reader, value)?;
    let ty = port_type(reader)?;
    Ok(PortText {
        value: Some(value),
        name,
        ty,
    })
}

// `name : T` after `out`.
#[tactic(auto, unfolding(crate::specs::ModuleText::output_port))]
fn output_port<'s>(reader: &mut Reader<'s>) -> Result<PortText<'s>, ReadFail>
    ensures gives { ReadsAs port_text_of result reader.new (output_port reader.old) }
    ensures shorter { OnOk result (length reader.new ≤ length reader.old) }
{
    let name = reader.name_text(HEADER)?;
    let ty = port_type(reader)?;
    Ok(PortText {
        value: None,
        name,
        ty,
    })
}

// `"name"`, or nothing, which means the name of the value.
#[tactic(auto, unfolding(crate::specs::ModuleText::port_name, mlir_syntax::specs::WordText::string_text))]
fn port_name<'s>(reader: &mut Reader<'s>, value: &'s [u8]) -> Result<Text, ReadFail>
    ensures gives { ReadsAs (λ name. name) result reader.new (port_name value.now reader.old) }
    ensures shorter { OnOk result (length reader.new ≤ length reader.old) }
{
    if reader.is_next(TokenKind::StringLiteral) {
        reader.string_text(HEADER)
    } else {
        Ok(Text::of(reader.alloc(), value)?)
    }
}

// `: T`
#[tactic(auto, unfolding(crate::specs::ModuleText::port_type))]
fn port_type(reader: &mut Reader<'_>) -> Result<Ty, ReadFail>
    ensures gives { ReadsAs type_of result reader.new (port_type reader.old) }
    ensures shorter { OnOk result (length reader.new ≤ length reader.old) }
{
    reader.want(HEADER, TokenKind::Colon)?;
    reader.any_type(HEADER)
}
