//! The fields of structs.
ghost use Rattle.std.specs.Prelude.{◌≡◌, map, length, Some};
ghost use Rattle.std.specs.Option.{option_map};
ghost use Rattle.hw_model.specs.TypeViews.{type_of, field_of, fields_of};
ghost use Rattle.hw_model.specs.Sound.{field_list};
ghost use Rattle.type_inference.specs.ResultTypes.{fields_of as fields_in};

use hw_model::types::{Field, Ty};

/// The fields of a struct; of what is no struct none.
pub fn fields_in<'t>(ty: Option<&'t Ty>) -> &'t [Field]
    ensures { map Some (field_list (fields_of (map field_of result.now))) ≡ fields_in (option_map (λ t. type_of t.now) ty.entry) }
{
    match ty {
        Some(Ty::Struct(list)) => &list.fields,
        Some(Ty::Clock | Ty::Int(_) | Ty::Array(..)) | None => &[],
    }
}

/// How many fields there are.
pub fn field_count(fields: &[Field]) -> usize
    ensures { result ≡ length (field_list (fields_of (map field_of fields.now))) }
{
    fields.len()
}
