//! Dictionaries in a text (MLIR language reference: dictionary attributes).
ghost use Rattle.std.specs.Prelude.{◌≡◌, ◌≤◌, length, map, [], Some, Ok, IfOk, OnOk, codes, false};
ghost use Rattle.std.specs.Option.{option_map};
ghost use Rattle.hw_model.specs.Design.{same_name};
ghost use Rattle.hw_model.specs.Design.Attribute.{unit_value, text_value};
ghost use Rattle.ir_store.specs.DictionaryViews.{attribute_of, entry_of, entries_in};
ghost use Rattle.mlir_syntax.specs.AttributeText.{is_among, new_key, string_value, value_of_key, entry_value, entry_text, entries, dictionary_text, maybe_dictionary};
ghost use Rattle.mlir_syntax.specs.AttributeHeads.{keys_of};
ghost use Rattle.mlir_syntax.specs.Views.{ReadsAs};

use crate::attribute_text::text_value;
use crate::fail::ReadFail;
use crate::reader::Reader;
use crate::type_text::MOST_OPEN;
use diag::cause::Cause;
use diag::refusal::OpName;
use indexmap::IndexSet;
use io_edge::byte_text::Text;
use ir_store::dictionary::{Attribute, Dictionary, Entry};
use mlir_lexer::token::TokenKind;

/// The keys of a dictionary whose values are strings.
#[derive(Clone, Copy)]
pub enum StringKeys {
    /// `sv.namehint`
    Hint,
    /// `sv.namehint` and `name`
    HintAndName,
}

impl StringKeys {
    /// Whether a key is one of them.
    pub fn has(self, key: &[u8]) -> bool
        ensures { result ≡ is_among key.now (keys_of self) }
    {
        match self {
            StringKeys::Hint => is_hint(key),
            StringKeys::HintAndName => is_hint(key) || is_plain_name(key),
        }
    }
}

impl<'s> Reader<'s> {
    /// A dictionary, or nothing. The values of some keys are strings.
    ///
    /// Refuses as `dictionary_text` does.
    #[tactic(auto, unfolding(crate::specs::AttributeText::maybe_dictionary))]
    pub fn maybe_dictionary(
        &mut self,
        op: OpName,
        strings: StringKeys,
    ) -> Result<Option<Dictionary>, ReadFail>
        ensures gives { ReadsAs (option_map entries_in) result self.new (maybe_dictionary op (keys_of strings) self.old) }
        ensures shorter { OnOk result (length self.new ≤ length self.old) }
    {
        if !self.is_next(TokenKind::LeftBrace) {
            return Ok(None);
        }
        let dictionary = self.dictionary_text(op, strings)?;
        Ok(Some(dictionary))
    }

    /// `{K = V, ..}`, where the values of some keys are strings. In expected time linear in its
    /// length.
    ///
    /// Refuses what is no dictionary, and a key that stands twice, at its second location.
    #[tactic(auto, unfolding(crate::specs::AttributeText::dictionary_text))]
    pub fn dictionary_text(
        &mut self,
        op: OpName,
        strings: StringKeys,
    ) -> Result<Dictionary, ReadFail>
        ensures gives { ReadsAs entries_in result self.new (dictionary_text op (keys_of strings) self.old) }
        ensures shorter { OnOk result (length self.new ≤ length self.old) }
    {
        self.want(op, TokenKind::LeftBrace)?;
        if self.pass(TokenKind::RightBrace) {
            return Ok(Dictionary::new(self.alloc()));
        }
        let entries = self.entries(op, strings)?;
        self.want(op, TokenKind::RightBrace)?;
        Ok(Dictionary { entries })
    }

    // Entries with commas between them.
    fn entries(&mut self, op: OpName, strings: StringKeys) -> Result<Vec<Entry>, ReadFail>
        ensures gives { ReadsAs (λ es. map entry_of es.items) result self.new (entries 32 op (keys_of strings) [] (length self.old) self.old) }
        ensures shorter { OnOk result (length self.new ≤ length self.old) }
    {
        let mut entries = Vec::new(self.alloc());
        let mut keys = IndexSet::new(self.alloc());
        loop {
            let entry = match self.entry_text(op, strings, &keys) {
                Ok(entry) => entry,
                Err(fail) => return Err(fail),
            };
            if !self.pass(TokenKind::Comma) {
                entries.push(entry)?;
                return Ok(entries);
            }
            let key = entry.key.try_clone(self.alloc())?;
            entries.push(entry)?;
            keys.insert(key)?;
        }
    }

    // An entry whose key no earlier one has.
    #[tactic(auto, unfolding(crate::specs::AttributeText::entry_text))]
    fn entry_text(
        &mut self,
        op: OpName,
        strings: StringKeys,
        keys: &IndexSet<Text>,
    ) -> Result<Entry, ReadFail>
        ensures gives { ReadsAs entry_of result self.new (entry_text 32 op (keys_of strings) keys.now.keys self.old) }
        ensures new { IfOk result (λ entry. is_among entry.key keys.now.keys ≡ false) }
        ensures shorter { OnOk result (length self.new ≤ length self.old) }
    {
        let key = self.new_key(op, keys)?;
        let value = self.entry_value(op, strings, key.as_bytes())?;
        Ok(Entry { key, value })
    }

    // A key that no earlier entry has.
    #[tactic(auto, unfolding(crate::specs::AttributeText::new_key))]
    fn new_key(&mut self, op: OpName, keys: &IndexSet<Text>) -> Result<Text, ReadFail>
        ensures gives { ReadsAs (λ key. key) result self.new (new_key op keys.now.keys self.old) }
        ensures new { IfOk result (λ key. is_among key keys.now.keys ≡ false) }
        ensures shorter { OnOk result (length self.new ≤ length self.old) }
    {
        let twice = self.refusal_for(Cause::Unexpected, op);
        let key = self.name_text(op)?;
        if is_among(&key, keys) {
            Err(ReadFail::Refused(twice))
        } else {
            Ok(key)
        }
    }

    // `= V`, or nothing, which some keys do not have.
    #[tactic(auto, unfolding(crate::specs::AttributeText::entry_value))]
    fn entry_value(
        &mut self,
        op: OpName,
        strings: StringKeys,
        key: &[u8],
    ) -> Result<Attribute, ReadFail>
        ensures gives { ReadsAs attribute_of result self.new (entry_value 32 op (keys_of strings) key.now self.old) }
        ensures shorter { OnOk result (length self.new ≤ length self.old) }
    {
        if self.pass(TokenKind::Equals) {
            self.value_of_key(op, strings, key)
        } else if strings.has(key) {
            Err(ReadFail::Refused(self.unexpected_token(op)))
        } else {
            Ok(unit_value())
        }
    }

    // The value of a key: of some keys it is a string.
    #[tactic(auto, unfolding(crate::specs::AttributeText::value_of_key))]
    fn value_of_key(
        &mut self,
        op: OpName,
        strings: StringKeys,
        key: &[u8],
    ) -> Result<Attribute, ReadFail>
        ensures gives { ReadsAs attribute_of result self.new (value_of_key 32 op (keys_of strings) key.now self.old) }
        ensures shorter { OnOk result (length self.new ≤ length self.old) }
    {
        if strings.has(key) {
            self.string_value(op)
        } else {
            self.attribute_text(op, MOST_OPEN)
        }
    }

    // A value that is a string.
    #[tactic(auto, unfolding(crate::specs::AttributeText::string_value))]
    fn string_value(&mut self, op: OpName) -> Result<Attribute, ReadFail>
        ensures gives { ReadsAs attribute_of result self.new (string_value op self.old) }
        ensures shorter { OnOk result (length self.new ≤ length self.old) }
    {
        let token = self.want(op, TokenKind::StringLiteral)?;
        let text = self.string(token)?;
        Ok(text_value(text))
    }
}

// Whether a key is `sv.namehint`.
fn is_hint(key: &[u8]) -> bool
    ensures { result ≡ same_name (codes "sv.namehint") key.now }
{
    b"sv.namehint".as_slice() == key
}

// Whether a key is `name`.
fn is_plain_name(key: &[u8]) -> bool
    ensures { result ≡ same_name (codes "name") key.now }
{
    b"name".as_slice() == key
}

// Whether a key is one of those.
fn is_among(key: &Text, keys: &IndexSet<Text>) -> bool
    ensures { result ≡ is_among key.now keys.now.keys }
{
    keys.contains(key)
}

// The key alone.
fn unit_value() -> Attribute
    ensures { attribute_of result ≡ unit_value }
{
    Attribute::Unit
}
