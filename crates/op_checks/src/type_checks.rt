//! Tests of one type: the limits on widths and leaves, names of fields, clocks.
ghost use Rattle.std.specs.Prelude.{◌≡◌, map};
ghost use Rattle.hw_model.specs.TypeViews.{type_of, field_of, fields_of};
ghost use Rattle.op_checks.specs.TypeChecks.{is_without_fields, has_bad_part, has_bad_part_among, is_outside, has_name, has_name_twice, has_bad_field, has_bad_field_among, is_clock, has_clock, has_clock_among, has_clock_part, is_int};

use hw_model::types::{Field, Ty};
use io_edge::byte_text::Text;

/// The most bits of an integer.
const MOST_INTEGER_BITS: u32 = 128;

/// The most bits of a type.
const MOST_BITS: u64 = 4096;

/// The most leaves of a type.
const MOST_LEAVES: u64 = 1024;

/// Whether a type is outside the limits: it or a type within it is an integer of other than 1 to 128 bits, an array of
/// length 0 or a struct without fields, or the whole has more than 4,096 bits or 1,024 leaves.
#[tactic(auto, unfolding(crate::specs::TypeChecks::is_outside), using(crate::proofs::Owned::integer_outside, crate::proofs::Owned::clock_outside))]
pub fn is_outside(ty: &Ty) -> bool
    ensures { result ≡ is_outside (type_of ty.now) }
{
    match ty {
        Ty::Int(width) => *width == 0 || *width > MOST_INTEGER_BITS,
        Ty::Clock => false,
        Ty::Array(..) | Ty::Struct(_) => {
            has_bad_part(ty) || (ty.width() > MOST_BITS || ty.leaf_count() > MOST_LEAVES)
        }
    }
}

/// Whether the type or a type within it is none that a value can have.
#[cycle(bad_part)]
fn has_bad_part(ty: &Ty) -> bool
    ensures { result ≡ has_bad_part (type_of ty.now) }
{
    match ty {
        Ty::Int(width) => *width == 0 || *width > MOST_INTEGER_BITS,
        Ty::Clock => false,
        Ty::Array(length, element) => *length == 0 || has_bad_part(element),
        Ty::Struct(list) => is_without_fields(&list.fields) || has_bad_part_among(&list.fields),
    }
}

#[cycle(bad_part)]
fn has_bad_part_among(fields: &[Field]) -> bool
    ensures { result ≡ has_bad_part_among (fields_of (map field_of fields.now)) }
{
    for field in fields {
        if has_bad_part(&field.ty) {
            return true;
        }
    }
    false
}

/// Whether there are no fields.
fn is_without_fields(fields: &[Field]) -> bool
    ensures { result ≡ is_without_fields (fields_of (map field_of fields.now)) }
{
    fields.is_empty()
}

/// Whether the type or a type within it is a struct that has a name of a field twice. It takes the square of the number of
/// fields: a caller asks [`is_outside`] first, which leaves at most 1,024.
#[cycle(bad_field)]
pub fn has_bad_field(ty: &Ty) -> bool
    ensures { result ≡ has_bad_field (type_of ty.now) }
{
    match ty {
        Ty::Int(_) | Ty::Clock => false,
        Ty::Array(_, element) => has_bad_field(element),
        Ty::Struct(list) => has_name_twice(&list.fields) || has_bad_field_among(&list.fields),
    }
}

#[cycle(bad_field)]
fn has_bad_field_among(fields: &[Field]) -> bool
    ensures { result ≡ has_bad_field_among (fields_of (map field_of fields.now)) }
{
    for field in fields {
        if has_bad_field(&field.ty) {
            return true;
        }
    }
    false
}

/// Whether two fields have one name.
fn has_name_twice(fields: &[Field]) -> bool
    ensures { result ≡ has_name_twice (fields_of (map field_of fields.now)) }
{
    let mut rest = fields;
    while let Some((first, others)) = rest.split_first() {
        if has_name(&first.name, others) {
            return true;
        }
        rest = others;
    }
    false
}

/// Whether a field has the name.
fn has_name(name: &Text, fields: &[Field]) -> bool
    ensures { result ≡ has_name name.now (fields_of (map field_of fields.now)) }
{
    for field in fields {
        if field.name == *name {
            return true;
        }
    }
    false
}

/// Whether the type is the clock's.
pub fn is_clock(ty: &Ty) -> bool
    ensures { result ≡ is_clock (type_of ty.now) }
{
    match ty {
        Ty::Clock => true,
        Ty::Int(_) | Ty::Array(..) | Ty::Struct(_) => false,
    }
}

/// Whether the type or a type within it is the clock's.
#[cycle(clock)]
fn has_clock(ty: &Ty) -> bool
    ensures { result ≡ has_clock (type_of ty.now) }
{
    match ty {
        Ty::Int(_) => false,
        Ty::Clock => true,
        Ty::Array(_, element) => has_clock(element),
        Ty::Struct(list) => has_clock_among(&list.fields),
    }
}

#[cycle(clock)]
fn has_clock_among(fields: &[Field]) -> bool
    ensures { result ≡ has_clock_among (fields_of (map field_of fields.now)) }
{
    for field in fields {
        if has_clock(&field.ty) {
            return true;
        }
    }
    false
}

/// Whether the type is an aggregate with a clock within it.
pub fn has_clock_part(ty: &Ty) -> bool
    ensures { result ≡ has_clock_part (type_of ty.now) }
{
    match ty {
        Ty::Int(_) | Ty::Clock => false,
        Ty::Array(_, element) => has_clock(element),
        Ty::Struct(list) => has_clock_among(&list.fields),
    }
}

/// Whether the type is an integer's.
pub fn is_int(ty: &Ty) -> bool
    ensures { result ≡ is_int (type_of ty.now) }
{
    match ty {
        Ty::Int(_) => true,
        Ty::Clock | Ty::Array(..) | Ty::Struct(_) => false,
    }
}
