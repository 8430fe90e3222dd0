//! What stands for a struct, by its fields.
ghost use Rattle.std.specs.Prelude.{◌≡◌, IfOk, map};
ghost use Rattle.hw_model.specs.TypeViews.{type_of, field_of, fields_of};
ghost use Rattle.hw_model.specs.Value.{fields, nth_type};
ghost use Rattle.aggregate_laws.specs.OperationRules.{field_parts, with_field_parts};
ghost use Rattle.lowering_rules.specs.Reading.{plain_of, new_refs};

use crate::written_types::leaf_count;
use hw_model::types::{Field, Ty};
use io_edge::byte_text::Text;
use ir_store::body::Op;
use ir_store::operation::Value;
use std::alloc::{AllocError, Global};

/// The fields of the first type that an operation writes; what is no struct has none.
pub fn operand_fields<'b>(op: &Op<'b>) -> &'b [Field]
    ensures { fields_of (map field_of result.now) ≡ fields (nth_type (plain_of op.now).types 0) }
{
    match op.types.as_slice().first() {
        Some(ty) => fields_of(ty),
        None => &[],
    }
}

// The fields of a type; what is no struct has none.
fn fields_of(ty: &Ty) -> &[Field]
    ensures { fields_of (map field_of result.now) ≡ fields (type_of ty.now) }
{
    match ty {
        Ty::Struct(list) => &list.fields,
        Ty::Int(_) | Ty::Clock | Ty::Array(..) => &[],
    }
}

/// What stands for the field of a name.
pub fn field_parts<'v>(
    list: &[Field],
    name: &Text,
    values: &'v [Value],
) -> Result<&'v [Value], AllocError>
    ensures { IfOk result (λ own. new_refs own.now ≡ field_parts (fields_of (map field_of list.now)) name.now (new_refs values.now)) }
{
    let mut rest = values;
    for field in list {
        let count = leaf_count(&field.ty)? as usize;
        let (own, others) = rest.split_at(count.min(rest.len()));
        if field.name == *name {
            return Ok(own);
        }
        rest = others;
    }
    Ok(&[])
}

/// What stands for a struct, with other values for the field of a name.
pub fn with_field_parts(
    alloc: Global,
    list: &[Field],
    name: &Text,
    values: &[Value],
    given: &[Value],
) -> Result<Vec<Value>, AllocError>
    ensures { IfOk result (λ all. new_refs all.items ≡ with_field_parts (fields_of (map field_of list.now)) name.now (new_refs values.now) (new_refs given.now)) }
{
    let mut all = Vec::new(alloc);
    let mut rest = values;
    for field in list {
        let count = leaf_count(&field.ty)? as usize;
        let (own, others) = rest.split_at(count.min(rest.len()));
        if field.name == *name {
            all.extend_from_slice(given)?;
            all.extend_from_slice(others)?;
            return Ok(all);
        }
        all.extend_from_slice(own)?;
        rest = others;
    }
    all.extend_from_slice(rest)?;
    Ok(all)
}
