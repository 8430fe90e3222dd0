//! Which designs are in canonical form: for each reason one that is not, and one beside it that is.
use crate::one_operation::{Form, Plain, Said, Value, design_of};
use hw_model::kinds::Integer;
use std::alloc::{AllocError, Global};
use std::test::Fail;
use stored_form::is_canonical;

/// A form that is not canonical, and one beside it that is.
struct Row {
    other: Form,
    canonical: Form,
}

const CONSTANTS: [Row; 6] = [
    // -1 of eight bits is kept as 255
    Row {
        other: Form::Constant(Integer::Negative(0)),
        canonical: Form::Constant(Integer::NonNegative(255)),
    },
    // -128 is in range, -129 is not
    Row {
        other: Form::Constant(Integer::Negative(127)),
        canonical: Form::Constant(Integer::Negative(128)),
    },
    // the distance from 0 is below 2^128
    Row {
        other: Form::Constant(Integer::Negative(u128::MAX)),
        canonical: Form::Constant(Integer::Negative(u128::MAX - 1)),
    },
    Row {
        other: Form::Parts(Integer::Negative(0), 1),
        canonical: Form::Parts(Integer::NonNegative(255), 1),
    },
    Row {
        other: Form::Parts(Integer::Negative(u128::MAX), 1),
        canonical: Form::Parts(Integer::Negative(u128::MAX - 1), 1),
    },
    // 32 lists may be open
    Row {
        other: Form::Parts(Integer::NonNegative(0), 33),
        canonical: Form::Parts(Integer::NonNegative(0), 32),
    },
];

const DICTIONARIES: [Row; 10] = [
    // an empty hint
    Row {
        other: Form::Entries(
            Plain::Add,
            &[Said {
                key: b"sv.namehint",
                value: Value::Text(b""),
            }],
        ),
        canonical: Form::Entries(
            Plain::Add,
            &[Said {
                key: b"sv.namehint",
                value: Value::Text(b"x"),
            }],
        ),
    },
    // keys out of order
    Row {
        other: Form::Entries(
            Plain::Add,
            &[
                Said {
                    key: b"b",
                    value: Value::Unit,
                },
                Said {
                    key: b"a",
                    value: Value::Unit,
                },
            ],
        ),
        canonical: Form::Entries(
            Plain::Add,
            &[
                Said {
                    key: b"a",
                    value: Value::Unit,
                },
                Said {
                    key: b"b",
                    value: Value::Unit,
                },
            ],
        ),
    },
    // a key twice
    Row {
        other: Form::Entries(
            Plain::Add,
            &[
                Said {
                    key: b"a",
                    value: Value::Unit,
                },
                Said {
                    key: b"a",
                    value: Value::Unit,
                },
            ],
        ),
        canonical: Form::Entries(
            Plain::Add,
            &[
                Said {
                    key: b"a",
                    value: Value::Unit,
                },
                Said {
                    key: b"aa",
                    value: Value::Unit,
                },
            ],
        ),
    },
    // a hint is a string
    Row {
        other: Form::Entries(
            Plain::Add,
            &[Said {
                key: b"sv.namehint",
                value: Value::Number(Integer::NonNegative(1)),
            }],
        ),
        canonical: Form::Entries(
            Plain::Add,
            &[Said {
                key: b"name",
                value: Value::Number(Integer::NonNegative(1)),
            }],
        ),
    },
    Row {
        other: Form::Entries(
            Plain::Add,
            &[Said {
                key: b"sv.namehint",
                value: Value::Unit,
            }],
        ),
        canonical: Form::Entries(
            Plain::Add,
            &[Said {
                key: b"name",
                value: Value::Unit,
            }],
        ),
    },
    // what has a name of its own has no entry for it
    Row {
        other: Form::Entries(
            Plain::Wire,
            &[Said {
                key: b"name",
                value: Value::Text(b"x"),
            }],
        ),
        canonical: Form::Entries(
            Plain::Add,
            &[Said {
                key: b"name",
                value: Value::Text(b"x"),
            }],
        ),
    },
    // a unit stands in no list
    Row {
        other: Form::Entries(
            Plain::Add,
            &[Said {
                key: b"a",
                value: Value::UnitInList,
            }],
        ),
        canonical: Form::Entries(
            Plain::Add,
            &[Said {
                key: b"a",
                value: Value::TruthInList,
            }],
        ),
    },
    // 32 lists may be open
    Row {
        other: Form::Entries(
            Plain::Add,
            &[Said {
                key: b"a",
                value: Value::Lists(33),
            }],
        ),
        canonical: Form::Entries(
            Plain::Add,
            &[Said {
                key: b"a",
                value: Value::Lists(32),
            }],
        ),
    },
    // integers from -2^63 to 2^64 - 1
    Row {
        other: Form::Entries(
            Plain::Add,
            &[Said {
                key: b"a",
                value: Value::Number(Integer::NonNegative(1 << 64)),
            }],
        ),
        canonical: Form::Entries(
            Plain::Add,
            &[Said {
                key: b"a",
                value: Value::Number(Integer::NonNegative((1 << 64) - 1)),
            }],
        ),
    },
    Row {
        other: Form::Entries(
            Plain::Add,
            &[Said {
                key: b"a",
                value: Value::Number(Integer::Negative(1 << 63)),
            }],
        ),
        canonical: Form::Entries(
            Plain::Add,
            &[Said {
                key: b"a",
                value: Value::Number(Integer::Negative((1 << 63) - 1)),
            }],
        ),
    },
];

const OPERATIONS: [Row; 5] = [
    // an own name
    Row {
        other: Form::Named(Plain::Add),
        canonical: Form::Named(Plain::Wire),
    },
    // `bin`
    Row {
        other: Form::Bin(Plain::Wire),
        canonical: Form::Bin(Plain::Add),
    },
    // a result of another type than its kind gives
    Row {
        other: Form::Result(7),
        canonical: Form::Result(8),
    },
    // a result where the kind gives none has the type that stands for none
    Row {
        other: Form::Output(8),
        canonical: Form::Output(0),
    },
    // 32 aggregates may be open
    Row {
        other: Form::Arrays(33),
        canonical: Form::Arrays(32),
    },
];

// Whether the design of a form is in canonical form.
fn is_form_canonical(alloc: Global, form: Form) -> Result<bool, AllocError> {
    Ok(is_canonical(&design_of(alloc, form)?))
}

// The first row that is told otherwise, by its position.
fn first_other(alloc: Global, rows: &[Row]) -> Result<Option<usize>, AllocError> {
    for (at, row) in rows.iter().enumerate() {
        if is_form_canonical(alloc, row.other)? || !is_form_canonical(alloc, row.canonical)? {
            return Ok(Some(at));
        }
    }
    Ok(None)
}

#[test]
fn constants_are_kept_by_their_bits(rt: HostRuntime) -> Result<(), Fail> {
    assert_eq!(rt; first_other(rt.alloc(), &CONSTANTS)?, None);
    Ok(())
}

#[test]
fn dictionaries_are_kept_in_one_form(rt: HostRuntime) -> Result<(), Fail> {
    assert_eq!(rt; first_other(rt.alloc(), &DICTIONARIES)?, None);
    Ok(())
}

#[test]
fn operations_are_in_one_form(rt: HostRuntime) -> Result<(), Fail> {
    assert_eq!(rt; first_other(rt.alloc(), &OPERATIONS)?, None);
    Ok(())
}
