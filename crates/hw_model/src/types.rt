//! The types of values.
ghost use Rattle.std.specs.Prelude.{◌≡◌, map, min, length, IfOk};
ghost use Rattle.hw_model.specs.Types.{width, width_of_fields, leaves, leaves_of_fields};
ghost use Rattle.hw_model.specs.Types.HwType.{int, clock};
ghost use Rattle.hw_model.specs.TypeViews.{type_of, field_of, fields_of, fields_in};
ghost use Rattle.hw_model.specs.SameType.{same_type, same_fields};
ghost use Rattle.hw_model.specs.Indices.{IsIndexWidth};

use io_edge::byte_text::Text;
use std::alloc::{AllocError, Global};

/// The type of a value (CIRCT, HW dialect: types). Contracts see it by `type_of`, as data
/// without pointers.
#[cycle(ty)]
#[derive(Drop)]
pub enum Ty {
    /// An integer of a number of bits.
    Int(u32),
    /// A clock.
    Clock,
    /// An array: how many elements, and their type.
    Array(u32, Box<Ty>),
    /// A struct: its fields, the first in the highest bits.
    Struct(FieldList),
}

/// A field of a struct type.
#[cycle(ty)]
#[derive(Drop)]
pub struct Field {
    /// The name, by which operations tell it.
    pub name: Text,
    /// The type of the part.
    pub ty: Ty,
}

/// The fields of a struct type, in order.
#[cycle(ty)]
#[derive(Drop)]
pub struct FieldList {
    /// The fields.
    pub fields: Vec<Field>,
}

impl Ty {
    /// The number of bits of a value, or `u64::MAX` where there are more.
    #[cycle(width)]
    pub fn width(&self) -> u64
        ensures { result ≡ min (width (type_of self.now)) u64.MAX }
    {
        match self {
            Ty::Int(width) => u64::from(*width),
            Ty::Clock => 1,
            Ty::Array(length, element) => u64::from(*length).saturating_mul(element.width()),
            Ty::Struct(list) => list.width(),
        }
    }

    /// The number of parts that have no parts, or `u64::MAX` where there are more.
    #[cycle(leaf_count)]
    pub fn leaf_count(&self) -> u64
        ensures { result ≡ min (length (leaves (type_of self.now))) u64.MAX }
    {
        match self {
            Ty::Int(_) | Ty::Clock => 1,
            Ty::Array(length, element) => u64::from(*length).saturating_mul(element.leaf_count()),
            Ty::Struct(list) => list.leaf_count(),
        }
    }

    /// An equal type with memory of its own.
    #[cycle(copy)]
    pub fn try_clone(&self, alloc: Global) -> Result<Ty, AllocError>
        ensures { IfOk result (λ copy. type_of copy ≡ type_of self.now) }
    {
        match self {
            Ty::Int(width) => Ok(Ty::Int(*width)),
            Ty::Clock => Ok(Ty::Clock),
            Ty::Array(length, element) => {
                let element = element.try_clone(alloc)?;
                Ok(Ty::Array(*length, Box::new(alloc, element)?))
            }
            Ty::Struct(list) => Ok(Ty::Struct(list.try_clone(alloc)?)),
        }
    }
}

impl Ty {
    // whether it is the integer type of that width
    fn is_int(&self, width: u32) -> bool
        ensures { result ≡ same_type (int width) (type_of self.now) }
    {
        match self {
            Ty::Int(own) => width == *own,
            Ty::Clock | Ty::Array(..) | Ty::Struct(_) => false,
        }
    }

    fn is_clock(&self) -> bool
        ensures { result ≡ same_type clock (type_of self.now) }
    {
        match self {
            Ty::Clock => true,
            Ty::Int(_) | Ty::Array(..) | Ty::Struct(_) => false,
        }
    }
}

impl Field {
    /// An equal field with memory of its own.
    #[cycle(copy)]
    pub fn try_clone(&self, alloc: Global) -> Result<Field, AllocError>
        ensures { IfOk result (λ copy. field_of copy ≡ field_of self.now) }
    {
        let name = self.name.try_clone(alloc)?;
        let ty = self.ty.try_clone(alloc)?;
        Ok(Field { name, ty })
    }
}

impl FieldList {
    /// The number of bits of all fields, or `u64::MAX` where there are more.
    #[cycle(width)]
    pub fn width(&self) -> u64
        ensures { result ≡ min (width_of_fields (fields_in self.now)) u64.MAX }
    {
        let mut sum: u64 = 0;
        for field in &self.fields {
            sum = sum.saturating_add(field.ty.width());
        }
        sum
    }

    /// The number of parts without parts of all fields, or `u64::MAX` where there are more.
    #[cycle(leaf_count)]
    pub fn leaf_count(&self) -> u64
        ensures { result ≡ min (length (leaves_of_fields (fields_in self.now))) u64.MAX }
    {
        let mut sum: u64 = 0;
        for field in &self.fields {
            sum = sum.saturating_add(field.ty.leaf_count());
        }
        sum
    }

    /// Equal fields with memory of their own.
    #[cycle(copy)]
    pub fn try_clone(&self, alloc: Global) -> Result<FieldList, AllocError>
        ensures { IfOk result (λ copy. fields_in copy ≡ fields_in self.now) }
    {
        let mut fields = Vec::with_capacity(alloc, self.fields.len())?;
        for field in &self.fields {
            fields.push(field.try_clone(alloc)?)?;
        }
        Ok(FieldList { fields })
    }
}

/// The width of the indices of an array of `length` elements: the least of at least 1 that has a
/// number for each element.
pub fn index_width(length: u32) -> u32
    ensures { IsIndexWidth length result }
{
    let mut width: u32 = 1;
    while width < 32 && (1u64 << width) < u64::from(length) {
        width += 1;
    }
    width
}

impl PartialEq for Ty {
    ghost use Rattle.hw_model.specs.SameType.{same_type, same_type_laws};
    ghost use Rattle.hw_model.specs.TypeViews.{type_of};

    ghost eq = { λ a b. same_type (type_of a) (type_of b) };

    ghost laws = { same_type_laws };

    fn eq(&self, other: &Ty) -> bool {
        same(self, other)
    }
}

impl Eq for Ty {
    ghost use Rattle.hw_model.specs.SameType.{same_type_equivalence};

    ghost laws = { same_type_equivalence };
}

#[cycle(same)]
fn same(a: &Ty, b: &Ty) -> bool
    ensures { result ≡ same_type (type_of a.now) (type_of b.now) }
{
    match a {
        Ty::Int(width) => b.is_int(*width),
        Ty::Clock => b.is_clock(),
        Ty::Array(length, element) => match b {
            Ty::Array(other_length, other) => length == other_length && same(element, other),
            Ty::Int(_) | Ty::Clock | Ty::Struct(_) => false,
        },
        Ty::Struct(list) => match b {
            Ty::Struct(other) => same_lists(&list.fields, &other.fields),
            Ty::Int(_) | Ty::Clock | Ty::Array(..) => false,
        },
    }
}

#[cycle(same)]
fn same_lists(fs: &[Field], gs: &[Field]) -> bool
    ensures { result ≡ same_fields (fields_of (map field_of fs.now)) (fields_of (map field_of gs.now)) }
{
    if fs.len() != gs.len() {
        return false;
    }
    for (f, g) in fs.iter().zip(gs) {
        if f.name != g.name || !same(&f.ty, &g.ty) {
            return false;
        }
    }
    true
}
