//! Lists that hold one item without memory of its own, with ample memory.
use hw_model::types::Ty;
use ir_store::operation::{NewResult, NewResultList, TyList};
use ir_store::short_list::ShortList;
use std::alloc::{AllocError, Global};
use std::test::Fail;

const WIDTHS: [u32; 3] = [3, 5, 8];

// Whether the list is of integers of these widths.
fn has_widths(list: &TyList, widths: &[u32]) -> bool {
    if list.len() != widths.len() {
        return false;
    }
    for (ty, width) in list.as_slice().iter().zip(widths) {
        if ty.width() != u64::from(*width) {
            return false;
        }
    }
    true
}

// Whether a list and its copy have these widths.
fn is_held(alloc: Global, list: &TyList, widths: &[u32]) -> Result<bool, AllocError> {
    Ok(has_widths(list, widths) && has_widths(&list.try_clone(alloc)?, widths))
}

// Whether an empty list grows by each width, room for two more reserved before each where that is said.
fn grows(alloc: Global, list: TyList, reserves: bool) -> Result<bool, AllocError> {
    let mut list = list;
    for at in 0..WIDTHS.len() {
        if reserves {
            list.reserve(alloc, 2)?;
        }
        if !is_held(alloc, &list, &WIDTHS[..at])? {
            return Ok(false);
        }
        list.push(alloc, Ty::Int(WIDTHS[at]))?;
    }
    is_held(alloc, &list, &WIDTHS)
}

#[test]
fn a_list_grows_from_none_to_many(rt: HostRuntime) -> Result<(), Fail> {
    for reserves in [false, true] {
        assert!(rt; grows(rt.alloc(), TyList::new(), reserves)?);
        for room in [0, 1, 4] {
            let list = TyList::with_room(rt.alloc(), room)?;
            assert!(rt; grows(rt.alloc(), list, reserves)?, "of room {room}");
        }
    }
    Ok(())
}

#[test]
fn a_list_of_one_item_may_get_room(rt: HostRuntime) -> Result<(), Fail> {
    let mut list = TyList::new();
    list.push(rt.alloc(), Ty::Int(3))?;
    assert!(rt; matches!(list, ShortList::One(_)));
    list.reserve(rt.alloc(), 2)?;
    assert!(rt; has_widths(&list, &[3]));
    let list = TyList::of(vec![in rt.alloc(); Ty::Int(4), Ty::Int(6)]?);
    assert!(rt; has_widths(&list, &[4, 6]));
    Ok(())
}

#[test]
fn results_are_copied(rt: HostRuntime) -> Result<(), Fail> {
    let mut results = NewResultList::new();
    for (width, again) in [(1, false), (7, true)] {
        let ty = Ty::Int(width);
        results.push(rt.alloc(), NewResult { ty, again })?;
    }
    let copy = results.try_clone(rt.alloc())?;
    let [first, second] = copy.as_slice() else {
        panic!(rt; "two results");
    };
    assert_eq!(rt; (first.ty.width(), first.again), (1, false));
    assert_eq!(rt; (second.ty.width(), second.again), (7, true));
    Ok(())
}
