//! Lists with others in the place of an element.
ghost use Rattle.std.specs.Prelude.{◌≡◌, ◌<◌, ◌++◌, length, map, IfOk, OnOk};
ghost use Rattle.hw_model.specs.TypeViews.{type_of};
ghost use Rattle.ir_store.specs.OperationViews.{types_in};
ghost use Rattle.fold_laws.specs.Nested.{splice};

use hw_model::types::Ty;
use ir_store::operation::{TyList, Value};
use smallvec::SmallVec;
use std::alloc::{AllocError, Global};

/// Values with others in the place of that of a number.
pub fn spliced_values(
    alloc: Global,
    values: &[Value],
    number: usize,
    others: &[Value],
) -> Result<SmallVec<Value, 4, Global>, AllocError>
    requires { number < length values.now }
    ensures { IfOk result (λ all. all.items ≡ splice number others.now values.now) }
{
    let mut all = SmallVec::from_slice(alloc, &values[..number])?;
    all.extend_from_slice(others)?;
    all.extend_from_slice(&values[number + 1..])?;
    Ok(all)
}

/// Types with others in the place of that of a number.
pub fn spliced_types(
    alloc: Global,
    types: &[Ty],
    number: usize,
    others: &[Ty],
) -> Result<TyList, AllocError>
    requires { number < length types.now }
    ensures { IfOk result (λ all. types_in all ≡ splice number (map type_of others.now) (map type_of types.now)) }
{
    let mut all = TyList::new();
    push_types(alloc, &mut all, &types[..number])?;
    push_types(alloc, &mut all, others)?;
    push_types(alloc, &mut all, &types[number + 1..])?;
    Ok(all)
}

/// Puts types after those of a list.
fn push_types(alloc: Global, list: &mut TyList, types: &[Ty]) -> Result<(), AllocError>
    ensures { OnOk result (types_in list.new ≡ types_in list.old ++ map type_of types.now) }
{
    for ty in types {
        list.push(alloc, ty.try_clone(alloc)?)?;
    }
    Ok(())
}
