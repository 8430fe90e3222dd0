//! Values at the limits: an array of 1,024 elements, and 4,096 bits as an array of the widest integers. The expected texts are put together
//! leaf by leaf.
use crate::runs::run_long;
use std::alloc::{AllocError, AllocGlobal, Global};
use std::test::Fail;
use std::thread::Threads;

const ELEMENTS: u32 = 1024;

const SAME_ARRAY: &str = "hw.module @T(in %a : !hw.array<1024xi4>, out o : !hw.array<1024xi4>) {
  hw.output %a : !hw.array<1024xi4>
}
";

const ELEMENT: &str = "hw.module @T(in %a : !hw.array<1024xi4>, in %i : i10, out o : i4) {
  %0 = hw.array_get %a[%i] : !hw.array<1024xi4>, i10
  hw.output %0 : i4
}
";

const WIDEST: &str = "hw.module @T(in %a : !hw.array<32xi128>, out o : !hw.array<1024xi4>) {
  %0 = hw.bitcast %a : (!hw.array<32xi128>) -> !hw.array<1024xi4>
  hw.output %0 : !hw.array<1024xi4>
}
";

// Puts `, ` after what stands in a list that is begun.
fn push_comma(text: &mut String, is_first: bool) -> Result<(), AllocError> {
    if !is_first {
        text.push_str(", ")?;
    }
    Ok(())
}

// Puts the inputs of so many leaves, the highest first.
fn push_inputs(alloc: Global, text: &mut String, count: u32, width: u32) -> Result<(), AllocError> {
    for before in 0..count {
        push_comma(text, before == 0)?;
        let element = count.saturating_sub(before).saturating_sub(1);
        text.push_str(format!(in alloc; "in %a_{element} : i{width}")?.as_str())?;
    }
    Ok(())
}

// Puts the outputs of so many leaves of four bits, the highest first.
fn push_outputs(alloc: Global, text: &mut String, count: u32) -> Result<(), AllocError> {
    for before in 0..count {
        let element = count.saturating_sub(before).saturating_sub(1);
        text.push_str(format!(in alloc; ", out o_{element} : i4")?.as_str())?;
    }
    Ok(())
}

// Puts the type i4 so many times.
fn push_types(text: &mut String, count: u32) -> Result<(), AllocError> {
    for before in 0..count {
        push_comma(text, before == 0)?;
        text.push_str("i4")?;
    }
    Ok(())
}

// The module that gives its leaves as they are.
fn same_array(alloc: Global) -> Result<String, AllocError> {
    let mut text = String::from_str(alloc, "module {\n  hw.module @T(")?;
    push_inputs(alloc, &mut text, ELEMENTS, 4)?;
    push_outputs(alloc, &mut text, ELEMENTS)?;
    text.push_str(") {\n    hw.output ")?;
    for before in 0..ELEMENTS {
        push_comma(&mut text, before == 0)?;
        let element = ELEMENTS.saturating_sub(before).saturating_sub(1);
        text.push_str(format!(in alloc; "%a_{element}")?.as_str())?;
    }
    text.push_str(" : ")?;
    push_types(&mut text, ELEMENTS)?;
    text.push_str("\n  }\n}\n")?;
    Ok(text)
}

// Puts the tests of an index of ten bits, signed from 512 on.
fn push_tests(alloc: Global, text: &mut String) -> Result<(), AllocError> {
    for number in 0..ELEMENTS {
        let line = if number < 512 {
            format!(in alloc;
                "    %c{number}_i10 = hw.constant {number} : i10
    %{number} = comb.icmp eq %i, %c{number}_i10 : i10\n"
            )?
        } else {
            let below = ELEMENTS.saturating_sub(number);
            format!(in alloc;
                "    %c-{below}_i10 = hw.constant -{below} : i10
    %{number} = comb.icmp eq %i, %c-{below}_i10 : i10\n"
            )?
        };
        text.push_str(line.as_str())?;
    }
    Ok(())
}

// Puts the multiplexers, of which the last element's stands first; they have the numbers after those of the tests.
fn push_choices(alloc: Global, text: &mut String) -> Result<(), AllocError> {
    for before in 0..ELEMENTS {
        let number = ELEMENTS.saturating_add(before);
        let element = ELEMENTS.saturating_sub(before).saturating_sub(1);
        let line = if before == 0 {
            format!(in alloc; "    %{number} = comb.mux %{element}, %a_{element}, %c0_i4 : i4\n")?
        } else {
            let last = number.saturating_sub(1);
            format!(in alloc; "    %{number} = comb.mux %{element}, %a_{element}, %{last} : i4\n")?
        };
        text.push_str(line.as_str())?;
    }
    Ok(())
}

// The module that chooses an element.
fn element(alloc: Global) -> Result<String, AllocError> {
    let mut text = String::from_str(alloc, "module {\n  hw.module @T(")?;
    push_inputs(alloc, &mut text, ELEMENTS, 4)?;
    text.push_str(", in %i : i10, out o : i4) {\n")?;
    push_tests(alloc, &mut text)?;
    text.push_str("    %c0_i4 = hw.constant 0 : i4\n")?;
    push_choices(alloc, &mut text)?;
    text.push_str("    hw.output %2047 : i4\n  }\n}\n")?;
    Ok(text)
}

// The module that cuts 32 integers of 128 bits into 1,024 of four: 32 of each, the highest bits first.
fn cut(alloc: Global) -> Result<String, AllocError> {
    let mut text = String::from_str(alloc, "module {\n  hw.module @T(")?;
    push_inputs(alloc, &mut text, 32, 128)?;
    push_outputs(alloc, &mut text, ELEMENTS)?;
    text.push_str(") {\n")?;
    for number in 0..ELEMENTS {
        let from = ELEMENTS.saturating_sub(number).saturating_sub(1);
        let (leaf, low) = (from / 32, (from % 32).saturating_mul(4));
        let line = format!(in alloc;
            "    %{number} = comb.extract %a_{leaf} from {low} : (i128) -> i4\n"
        )?;
        text.push_str(line.as_str())?;
    }
    push_numbers(alloc, &mut text)?;
    Ok(text)
}

// Puts the output of the results of all numbers, and the end.
fn push_numbers(alloc: Global, text: &mut String) -> Result<(), AllocError> {
    text.push_str("    hw.output ")?;
    for number in 0..ELEMENTS {
        push_comma(text, number == 0)?;
        text.push_str(format!(in alloc; "%{number}")?.as_str())?;
    }
    text.push_str(" : ")?;
    push_types(text, ELEMENTS)?;
    text.push_str("\n  }\n}\n")
}

// Whether a text is lowered to another one.
fn is_lowered(
    rt: &(impl Threads + Sync + AllocGlobal),
    source: &str,
    lowered: &str,
) -> Result<bool, AllocError> {
    let run = run_long(rt, "opt --hw-lower-aggregates", source, &[])?;
    Ok(run.code == 0 && run.out.contents() == lowered.as_bytes())
}

#[test]
fn large_arrays_become_their_leaves(rt: HostRuntime) -> Result<(), Fail> {
    let alloc = rt.alloc();
    assert!(rt; is_lowered(&rt, SAME_ARRAY, same_array(alloc)?.as_str())?);
    assert!(rt; is_lowered(&rt, ELEMENT, element(alloc)?.as_str())?);
    Ok(())
}

#[test]
fn wide_values_become_their_leaves(rt: HostRuntime) -> Result<(), Fail> {
    let alloc = rt.alloc();
    assert!(rt; is_lowered(&rt, WIDEST, cut(alloc)?.as_str())?);
    Ok(())
}
