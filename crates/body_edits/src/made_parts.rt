//! Operands of which what an operation takes a part of was made (CIRCT, Comb and HW dialects).
ghost use Rattle.std.specs.Prelude.{◌≡◌, ◌<◌, map, option_map};
ghost use Rattle.fold_laws.specs.Parts.{joined_operand, covered_operand, covered_of_made, created_field, field_operand, field_of_made, created_element, element_operand, element_of_made};
ghost use Rattle.hw_model.specs.Design.{Ref};
ghost use Rattle.hw_model.specs.KindViews.{kind_of};
ghost use Rattle.hw_model.specs.Types.{width};
ghost use Rattle.hw_model.specs.TypeViews.{type_of, field_of, fields_of};
ghost use Rattle.hw_model.specs.Value.{fields, nth_type};
ghost use Rattle.ir_store.specs.OperationViews.{types_in};
ghost use Rattle.body_edits.specs.Sites.{ops_at, ref_at, refs_at, types_at, IsReadableSite};
ghost use Rattle.body_edits.specs.Widths.{counted_width};

use crate::reading::{constant_of, maker};
use crate::site::Site;
use hw_model::kinds::OpKind;
use hw_model::types::{Field, Ty};
use io_edge::byte_text::Text;
use ir_store::operation::{TyList, Value};

impl<'b> Site<'b> {
    /// The joined operand that the bits from `low` on are, as many as the second type that is written has, where the only
    /// operand of the operation is a `comb.concat`. Linear in the operands of that.
    pub fn covered_operand(&self, low: u32) -> Option<Value>
        requires { IsReadableSite self.now }
        ensures { option_map (ref_at self.now) result ≡ covered_of_made (ops_at self.now) low (width (nth_type (types_at self.now) 1)) (refs_at self.now) }
    {
        match self.op.operands {
            [joined] => match maker(self.body, *joined) {
                Some(op) => joined_operand(
                    low,
                    self.second_width(),
                    op.kind,
                    op.types,
                    op.operands,
                ),
                None => None,
            },
            _ => None,
        }
    }

    /// The width of the second type that the operation writes; 0 where there is none.
    fn second_width(&self) -> u64
        requires { IsReadableSite self.now }
        ensures { result ≡ width (nth_type (types_at self.now) 1) }
    {
        match self.op.types.as_slice() {
            [_, ty, ..] => ty.width(),
            _ => 0,
        }
    }

    /// The operand that is the field of a name of the only operand, where that is an `hw.struct_create`. Linear in the operands
    /// of that.
    pub fn made_field(&self, name: &Text) -> Option<Value>
        ensures { option_map (ref_at self.now) result ≡ field_of_made (ops_at self.now) (fields (nth_type (types_at self.now) 0)) name.now (refs_at self.now) }
    {
        match self.op.operands {
            [made] => match maker(self.body, *made) {
                Some(op) => created_field(self.first_fields(), name, op.kind, op.operands),
                None => None,
            },
            _ => None,
        }
    }

    /// The fields of the first type that the operation writes, where that is a struct.
    fn first_fields(&self) -> &[Field]
        ensures { fields_of (map field_of result.now) ≡ fields (nth_type (types_at self.now) 0) }
    {
        match self.op.types.as_slice().first() {
            Some(ty) => struct_fields(ty),
            None => &[],
        }
    }

    /// The operand that is the element of the first operand at the index that the second one is, where the first is an
    /// `hw.array_create` and the second a constant.
    pub fn made_element(&self) -> Option<Value>
        requires { IsReadableSite self.now }
        ensures { option_map (ref_at self.now) result ≡ element_of_made (ops_at self.now) (refs_at self.now) }
    {
        match self.op.operands {
            [array, index] => match constant_of(self.body, *index) {
                Some(word) => match maker(self.body, *array) {
                    Some(op) => created_element(word.value(), op.kind, op.operands),
                    None => None,
                },
                None => None,
            },
            _ => None,
        }
    }
}

/// The joined operand that so many bits from `low` on are, where the kind is `comb.concat`.
fn joined_operand(
    low: u32,
    width: u64,
    kind: &OpKind,
    types: &TyList,
    operands: &[Value],
) -> Option<Value>
    requires { width < u64.MAX }
    ensures { (f : Value → Ref) → option_map f result ≡ joined_operand low width (kind_of kind.now) (types_in types.now) (map f operands.now) }
{
    match kind {
        OpKind::Concat => covered_operand(low, width, types.as_slice(), operands),
        _ => None,
    }
}

/// The operand that so many bits from `low` on are, of joined operands of these types, the first in the highest bits.
fn covered_operand(low: u32, width: u64, types: &[Ty], operands: &[Value]) -> Option<Value>
    requires { width < u64.MAX }
    ensures { (f : Value → Ref) → option_map f result ≡ covered_operand low width (map type_of types.now) (map f operands.now) }
{
    let mut left = total_width(types);
    for (ty, value) in types.iter().zip(operands) {
        let own = ty.width();
        left -= u128::from(own);
        if left == u128::from(low) && own == width {
            return Some(*value);
        }
    }
    None
}

/// The sum of the widths of types, each counted as `u64::MAX` at most.
fn total_width(types: &[Ty]) -> u128
    ensures { result ≡ counted_width (map type_of types.now) }
{
    let mut sum = 0;
    for ty in types {
        sum += u128::from(ty.width());
    }
    sum
}

/// The fields of a struct type; none of another type.
fn struct_fields(ty: &Ty) -> &[Field]
    ensures { fields_of (map field_of result.now) ≡ fields (type_of ty.now) }
{
    match ty {
        Ty::Struct(list) => &list.fields,
        Ty::Int(_) | Ty::Clock | Ty::Array(..) => &[],
    }
}

/// The operand that is the field of a name, where the kind is `hw.struct_create`.
fn created_field(fields: &[Field], name: &Text, kind: &OpKind, operands: &[Value]) -> Option<Value>
    ensures { (f : Value → Ref) → option_map f result ≡ created_field (fields_of (map field_of fields.now)) name.now (kind_of kind.now) (map f operands.now) }
{
    match kind {
        OpKind::StructCreate => field_operand(fields, name, operands),
        _ => None,
    }
}

/// The operand that is the field of a name, of operands that are these fields.
fn field_operand(fields: &[Field], name: &Text, operands: &[Value]) -> Option<Value>
    ensures { (f : Value → Ref) → option_map f result ≡ field_operand (fields_of (map field_of fields.now)) name.now (map f operands.now) }
{
    for (field, value) in fields.iter().zip(operands) {
        if field.name == *name {
            return Some(*value);
        }
    }
    None
}

/// The operand that is the element at an index, where the kind is `hw.array_create`.
fn created_element(index: u128, kind: &OpKind, operands: &[Value]) -> Option<Value>
    ensures { (f : Value → Ref) → option_map f result ≡ created_element index (kind_of kind.now) (map f operands.now) }
{
    match kind {
        OpKind::ArrayCreate => element_operand(index, operands),
        _ => None,
    }
}

/// The operand that is the element at an index, of operands of which the first has the highest one.
fn element_operand(index: u128, operands: &[Value]) -> Option<Value>
    ensures { (f : Value → Ref) → option_map f result ≡ element_operand index (map f operands.now) }
{
    let count = operands.len();
    if index < count as u128 {
        Some(operands[count - 1 - index as usize])
    } else {
        None
    }
}
