//! The forms of operations: which pieces stand after a name, before and after a dictionary
//! that stands before the types (CIRCT: assembly formats of the operations of HW, Comb and Seq).
ghost use Rattle.std.specs.Prelude.{◌≡◌};
ghost use Rattle.std.specs.Option.{option_map};
ghost use Rattle.mlir_lexer.specs.Tokens.{text_token};
ghost use Rattle.assembly_format.specs.Formats.{format_of, is_of, prefix_elements, type_elements, text_of_keyword};

use crate::elements::{Format, FormatElement, Keyword};
use mlir_lexer::token::{Token, TokenKind, is_kind};
use opcode::listed::Listed;

const COMMA: FormatElement = FormatElement::Mark(TokenKind::Comma);

const COLON: FormatElement = FormatElement::Mark(TokenKind::Colon);

const OPEN: FormatElement = FormatElement::Mark(TokenKind::LeftBracket);

const CLOSE: FormatElement = FormatElement::Mark(TokenKind::RightBracket);

const OPERANDS: [FormatElement; 1] = [FormatElement::Operands];

const BINARY: [FormatElement; 3] = [FormatElement::Operand, COMMA, FormatElement::Operand];

const COMPARISON: [FormatElement; 4] = [
    FormatElement::Predicate,
    FormatElement::Operand,
    COMMA,
    FormatElement::Operand,
];

const UNARY: [FormatElement; 1] = [FormatElement::Operand];

const EXTRACTION: [FormatElement; 3] = [
    FormatElement::Operand,
    FormatElement::Word(Keyword::From),
    FormatElement::Number,
];

const CHOICE: [FormatElement; 5] = [
    FormatElement::Operand,
    COMMA,
    FormatElement::Operand,
    COMMA,
    FormatElement::Operand,
];

const TRUTH: [FormatElement; 1] = [FormatElement::Truth];

const INTEGER: [FormatElement; 1] = [FormatElement::Integer];

const LITERALS: [FormatElement; 1] = [FormatElement::Literals];

const ELEMENT: [FormatElement; 4] = [FormatElement::Operand, OPEN, FormatElement::Operand, CLOSE];

const ELEMENT_CHANGE: [FormatElement; 6] = [
    FormatElement::Operand,
    OPEN,
    FormatElement::Operand,
    CLOSE,
    COMMA,
    FormatElement::Operand,
];

const GROUP: [FormatElement; 1] = [FormatElement::Group];

const FIELD: [FormatElement; 4] = [FormatElement::Operand, OPEN, FormatElement::Field, CLOSE];

const FIELD_CHANGE: [FormatElement; 6] = [
    FormatElement::Operand,
    OPEN,
    FormatElement::Field,
    CLOSE,
    COMMA,
    FormatElement::Operand,
];

const INSTANCE: [FormatElement; 1] = [FormatElement::Instance];

const REGISTER: [FormatElement; 4] = [
    FormatElement::Operand,
    COMMA,
    FormatElement::Operand,
    FormatElement::Reset,
];

const ENABLED_REGISTER: [FormatElement; 6] = [
    FormatElement::Operand,
    COMMA,
    FormatElement::Operand,
    COMMA,
    FormatElement::Operand,
    FormatElement::Reset,
];

const CLOCKED_REGISTER: [FormatElement; 4] = [
    FormatElement::Operand,
    FormatElement::Word(Keyword::Clock),
    FormatElement::Operand,
    FormatElement::SyncOrAsyncReset,
];

const ONE_TYPE: [FormatElement; 2] = [COLON, FormatElement::Type];

const TWO_TYPES: [FormatElement; 4] = [COLON, FormatElement::Type, COMMA, FormatElement::Type];

const TYPES: [FormatElement; 2] = [COLON, FormatElement::Types];

const FUNCTION_TYPE: [FormatElement; 6] = [
    COLON,
    FormatElement::Mark(TokenKind::LeftParenthesis),
    FormatElement::Type,
    FormatElement::Mark(TokenKind::RightParenthesis),
    FormatElement::Mark(TokenKind::Arrow),
    FormatElement::Type,
];

/// The form of an operation: two operands of one type where no other is stated. That of a constant
/// and of an output is told by the token after the name.
#[tactic(auto, unfolding(crate::specs::Formats::format_of))]
pub fn format_of(name: Listed, next: Option<Token>) -> Format
    ensures { result ≡ format_of name (option_map text_token next.entry) }
{
    match name {
        Listed::HwModule => Format::Nothing,
        Listed::CombAdd | Listed::CombMul | Listed::CombAnd | Listed::CombOr | Listed::CombXor => {
            Format::Variadic
        }
        Listed::CombIcmp => Format::Comparison,
        Listed::CombParity | Listed::HwStructExplode | Listed::HwWire => Format::Unary,
        Listed::CombExtract => Format::Extraction,
        Listed::CombConcat | Listed::HwArrayConcat => Format::Joined,
        Listed::CombReplicate | Listed::HwBitcast => Format::Conversion,
        Listed::CombMux => Format::Choice,
        Listed::HwConstant if is_of(TokenKind::BareName, next) => Format::Truth,
        Listed::HwConstant => Format::Integer,
        Listed::HwAggregateConstant => Format::Aggregate,
        Listed::HwArrayCreate => Format::Variadic,
        Listed::HwArrayGet => Format::Element,
        Listed::HwArraySlice => Format::Slice,
        Listed::HwArrayInject => Format::ElementChange,
        Listed::HwStructCreate => Format::Struct,
        Listed::HwStructExtract => Format::Field,
        Listed::HwStructInject => Format::FieldChange,
        Listed::HwInstance => Format::Instance,
        Listed::HwOutput if is_of(TokenKind::ValueName, next) => Format::Joined,
        Listed::HwOutput => Format::Nothing,
        Listed::SeqCompreg => Format::Register,
        Listed::SeqCompregCe => Format::EnabledRegister,
        Listed::SeqFirreg => Format::ClockedRegister,
        _ => Format::Binary,
    }
}

// Whether there is a token, and it is of this kind.
fn is_of(kind: TokenKind, token: Option<Token>) -> bool
    ensures { result ≡ is_of kind (option_map text_token token.entry) }
{
    match token {
        Some(token) => is_kind(token.kind, kind),
        None => false,
    }
}

/// The pieces before the types.
#[tactic(auto, unfolding(crate::specs::Formats::prefix_elements))]
pub fn prefix_elements(format: Format) -> &'static [FormatElement]
    ensures { result.now ≡ prefix_elements format }
{
    match format {
        Format::Variadic | Format::Joined => &OPERANDS,
        Format::Binary => &BINARY,
        Format::Comparison => &COMPARISON,
        Format::Unary | Format::Conversion => &UNARY,
        Format::Extraction => &EXTRACTION,
        Format::Choice => &CHOICE,
        Format::Truth => &TRUTH,
        Format::Integer => &INTEGER,
        Format::Aggregate => &LITERALS,
        Format::Element | Format::Slice => &ELEMENT,
        Format::ElementChange => &ELEMENT_CHANGE,
        Format::Struct => &GROUP,
        Format::Field => &FIELD,
        Format::FieldChange => &FIELD_CHANGE,
        Format::Instance => &INSTANCE,
        Format::Nothing => &[],
        Format::Register => &REGISTER,
        Format::EnabledRegister => &ENABLED_REGISTER,
        Format::ClockedRegister => &CLOCKED_REGISTER,
    }
}

/// The colon and the types.
#[tactic(auto, unfolding(crate::specs::Formats::type_elements))]
pub fn type_elements(format: Format) -> &'static [FormatElement]
    ensures { result.now ≡ type_elements format }
{
    match format {
        Format::Variadic | Format::Binary | Format::Comparison | Format::Unary => &ONE_TYPE,
        Format::Choice | Format::Integer | Format::Aggregate | Format::Struct => &ONE_TYPE,
        Format::Field | Format::FieldChange => &ONE_TYPE,
        Format::Register | Format::EnabledRegister | Format::ClockedRegister => &ONE_TYPE,
        Format::Extraction | Format::Conversion | Format::Slice => &FUNCTION_TYPE,
        Format::Element | Format::ElementChange => &TWO_TYPES,
        Format::Joined => &TYPES,
        Format::Truth | Format::Instance | Format::Nothing => &[],
    }
}

/// The text of a word.
pub fn text_of_keyword(word: Keyword) -> &'static [u8]
    ensures { result.now ≡ text_of_keyword word }
{
    match word {
        Keyword::From => b"from",
        Keyword::Clock => b"clock",
    }
}
