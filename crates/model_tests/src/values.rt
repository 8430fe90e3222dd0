//! The values of operations.

use crate::kinds::{kind_of, type_of, types_of, word};
use crate::value_rows::{AGGREGATES, INTEGERS, Outcome, Row};
use Outcome::{Empty, Is, Refused};
use hw_model::kinds::{Integer, Literal, LiteralList, OpKind};
use hw_model::types::Ty;
use operation_values::bit_string::{BitString, bits_of};
use operation_values::refusal::Refusal;
use operation_values::values::value_of;
use std::alloc::Global;
use std::test::Fail;

// What a value is.
fn outcome_of(value: Result<BitString, Refusal>) -> Result<Outcome, Refusal> {
    match value {
        Ok(bits) if bits.as_slice().is_empty() => Ok(Empty),
        Ok(bits) => Ok(Is(bits_of(bits.as_slice())?.value())),
        Err(Refusal::NotFitting) => Ok(Refused),
        Err(Refusal::NoMemory) => Err(Refusal::NoMemory),
    }
}

// The value of an operation on the operands of a row.
fn value_on(
    alloc: Global,
    row: &Row,
    kind: &OpKind,
    ty: &Ty,
) -> Result<Result<BitString, Refusal>, Refusal> {
    let mut words = Vec::new(alloc);
    for (width, number) in row.operands {
        words.push(word(alloc, *width, *number)?)?;
    }
    let types = types_of(alloc, row.types)?;
    Ok(value_of(
        alloc,
        kind,
        types.as_slice(),
        ty,
        row.index,
        words.as_slice(),
    ))
}

// Whether each operation of a row has its value.
fn is_well(alloc: Global, row: &Row) -> Result<bool, Refusal> {
    for (kind, shape, outcome) in row.values {
        let kind = kind_of(alloc, *kind)?;
        let ty = type_of(alloc, *shape)?;
        if outcome_of(value_on(alloc, row, &kind, &ty)?)? != *outcome {
            return Ok(false);
        }
    }
    Ok(true)
}

// The first row with another value, by its position.
fn first_other(alloc: Global, rows: &[Row]) -> Result<Option<usize>, Refusal> {
    for (at, row) in rows.iter().enumerate() {
        if !is_well(alloc, row)? {
            return Ok(Some(at));
        }
    }
    Ok(None)
}

#[test]
fn integers_have_their_values(rt: HostRuntime) -> Result<(), Fail> {
    assert_eq!(rt; first_other(rt.alloc(), &INTEGERS)?, None);
    Ok(())
}

#[test]
fn aggregates_have_their_values(rt: HostRuntime) -> Result<(), Fail> {
    assert_eq!(rt; first_other(rt.alloc(), &AGGREGATES)?, None);
    Ok(())
}

#[test]
fn constants_of_a_struct(rt: HostRuntime) -> Result<(), Fail> {
    let literals = vec![in rt.alloc();
        Literal::Leaf(Integer::NonNegative(0xab), Ty::Int(8)),
        Literal::Leaf(Integer::Negative(0), Ty::Int(4)),
    ]?;
    let kind = OpKind::AggregateConstant(LiteralList { literals });
    let value = value_of(rt.alloc(), &kind, &[], &Ty::Int(12), 0, &[]);
    assert_eq!(rt; outcome_of(value)?, Is(0xabf));
    Ok(())
}
