//! Dictionaries: attributes by name (MLIR language reference: attributes).
ghost use Rattle.std.specs.Prelude.{◌≡◌, [], IfOk};
ghost use Rattle.ir_store.specs.DictionaryViews.{attribute_of, attributes_in, entry_of, entries_in};

use hw_model::kinds::Integer;
use hw_model::types::Ty;
use io_edge::byte_text::Text;
use std::alloc::{AllocError, Global};

/// The value of an entry of a dictionary. Contracts see it by `attribute_of`, as data without
/// pointers.
#[cycle(attribute)]
#[derive(Drop)]
pub enum Attribute {
    /// Nothing: the key alone.
    Unit,
    /// A string.
    String(Text),
    /// A symbol, without its `@`.
    Symbol(Text),
    /// A truth value.
    Bool(bool),
    /// An integer of a type.
    Integer(Integer, Ty),
    /// A list.
    Array(AttributeList),
}

/// Attributes in order.
#[cycle(attribute)]
#[derive(Drop)]
pub struct AttributeList {
    /// The attributes.
    pub attributes: Vec<Attribute>,
}

/// An entry of a dictionary.
#[derive(Drop)]
pub struct Entry {
    /// The key.
    pub key: Text,
    /// Its value.
    pub value: Attribute,
}

/// A dictionary: its entries in order.
#[derive(Drop)]
pub struct Dictionary {
    /// The entries.
    pub entries: Vec<Entry>,
}

impl Attribute {
    /// An equal attribute with memory of its own.
    #[cycle(copy_attribute)]
    pub fn try_clone(&self, alloc: Global) -> Result<Attribute, AllocError>
        ensures { IfOk result (λ copy. attribute_of copy ≡ attribute_of self.now) }
    {
        match self {
            Attribute::Unit => Ok(Attribute::Unit),
            Attribute::String(text) => Ok(Attribute::String(text.try_clone(alloc)?)),
            Attribute::Symbol(name) => Ok(Attribute::Symbol(name.try_clone(alloc)?)),
            Attribute::Bool(truth) => Ok(Attribute::Bool(*truth)),
            Attribute::Integer(value, ty) => Ok(Attribute::Integer(*value, ty.try_clone(alloc)?)),
            Attribute::Array(list) => Ok(Attribute::Array(list.try_clone(alloc)?)),
        }
    }
}

impl AttributeList {
    /// Equal attributes with memory of their own.
    #[cycle(copy_attribute)]
    pub fn try_clone(&self, alloc: Global) -> Result<AttributeList, AllocError>
        ensures { IfOk result (λ copy. attributes_in copy ≡ attributes_in self.now) }
    {
        let mut attributes = Vec::with_capacity(alloc, self.attributes.len())?;
        for attribute in &self.attributes {
            attributes.push(attribute.try_clone(alloc)?)?;
        }
        Ok(AttributeList { attributes })
    }
}

impl Entry {
    /// An equal entry with memory of its own.
    pub fn try_clone(&self, alloc: Global) -> Result<Entry, AllocError>
        ensures { IfOk result (λ copy. entry_of copy ≡ entry_of self.now) }
    {
        let key = self.key.try_clone(alloc)?;
        let value = self.value.try_clone(alloc)?;
        Ok(Entry { key, value })
    }
}

impl Dictionary {
    /// The dictionary without entries. It takes no memory.
    pub fn new(alloc: Global) -> Dictionary
        ensures { entries_in result ≡ [] }
    {
        Dictionary {
            entries: Vec::new(alloc),
        }
    }

    /// An equal dictionary with memory of its own.
    pub fn try_clone(&self, alloc: Global) -> Result<Dictionary, AllocError>
        ensures { IfOk result (λ copy. entries_in copy ≡ entries_in self.now) }
    {
        let mut entries = Vec::with_capacity(alloc, self.entries.len())?;
        for entry in &self.entries {
            entries.push(entry.try_clone(alloc)?)?;
        }
        Ok(Dictionary { entries })
    }
}
