//! The names of the things of an operation.
ghost use Rattle.std.specs.Prelude.{◌≡◌, ◌++◌, ◌∷◌, [], map, Some, IfOk, OnOk};
ghost use Rattle.hw_model.specs.KindViews.{instance_of};
ghost use Rattle.name_legalise.specs.Legal.{legal_name, legal_after};
ghost use Rattle.name_legalise.specs.LegalViews.{legal_names};
ghost use Rattle.export_verilog.specs.Held.{op_seen, result_name_hints, op_name_hints, op_results, op_own_name};
ghost use Rattle.export_verilog.specs.EmissionViews.{emission_seen};

use crate::legal_names::MOST_NAMES;
use crate::name_hints::{Emission, own_name_hint, result_name_hint};
use hw_model::kinds::{Instance, OpKind};
use io_edge::byte_text::Text;
use ir_store::body::Op;
use name_legalise::names::Names;
use std::alloc::{AllocError, Global};
use verilog_expr::value_names::NameList;

/// The names of the things of an operation.
#[derive(Drop)]
pub struct OpNames {
    /// Of its results, as far as they have names.
    pub results: NameList,
    /// Its own, where it is an instance, or none.
    pub instance: Text,
}

/// Adds the legal name of a wanted one, and gives it. The error is out of memory, as with more than 4,000,000,000 names.
pub(crate) fn add_name(alloc: Global, names: &mut Names, wanted: &[u8]) -> Result<Text, AllocError>
    ensures names { OnOk result (legal_names names.new ≡ legal_names names.old ++ legal_name (legal_names names.old) wanted.now ∷ []) }
    ensures name { IfOk result (λ name. name ≡ legal_name (legal_names names.old) wanted.now) }
{
    if names.len() > MOST_NAMES {
        return Err(AllocError);
    }
    let id = names.add(wanted)?;
    let name = Text::of(alloc, names.name(id))?;
    Ok(name)
}

// Adds the names of so many results of an instance.
fn add_results(
    alloc: Global,
    names: &mut Names,
    instance: &Instance,
    count: usize,
) -> Result<NameList, AllocError>
    ensures names { OnOk result (legal_names names.new ≡ legal_names names.old ++ legal_after (legal_names names.old) (result_name_hints (instance_of instance.now) 0 count)) }
    ensures list { IfOk result (λ l. l.names.items ≡ map (λ (n : _). Some n) (legal_after (legal_names names.old) (result_name_hints (instance_of instance.now) 0 count))) }
{
    let mut list = Vec::new(alloc);
    for number in 0..count {
        let name_hint = result_name_hint(alloc, instance, number)?;
        let name = add_name(alloc, names, name_hint.as_bytes())?;
        list.push(Some(name))?;
    }
    Ok(NameList { names: list })
}

// Adds the names of an instance and of its results.
fn add_instance(
    alloc: Global,
    names: &mut Names,
    instance: &Instance,
    count: usize,
) -> Result<OpNames, AllocError>
    ensures names { OnOk result (legal_names names.new ≡ legal_names names.old ++ legal_after (legal_names names.old) ((instance_of instance.now).name ∷ result_name_hints (instance_of instance.now) 0 count)) }
    ensures results { IfOk result (λ r. r.results.names.items ≡ map (λ (n : _). Some n) (legal_after (legal_names names.old ++ legal_name (legal_names names.old) (instance_of instance.now).name ∷ []) (result_name_hints (instance_of instance.now) 0 count))) }
    ensures instance { IfOk result (λ r. r.instance ≡ legal_name (legal_names names.old) (instance_of instance.now).name) }
{
    let own = add_name(alloc, names, instance.name.as_bytes())?;
    let results = add_results(alloc, names, instance, count)?;
    Ok(OpNames {
        results,
        instance: own,
    })
}

// Adds the name of the one value of an operation.
fn add_value(alloc: Global, names: &mut Names, wanted: &[u8]) -> Result<OpNames, AllocError>
    ensures names { OnOk result (legal_names names.new ≡ legal_names names.old ++ legal_name (legal_names names.old) wanted.now ∷ []) }
    ensures results { IfOk result (λ r. r.results.names.items ≡ Some (legal_name (legal_names names.old) wanted.now) ∷ []) }
    ensures instance { IfOk result (λ r. r.instance ≡ []) }
{
    let name = add_name(alloc, names, wanted)?;
    let mut list = Vec::new(alloc);
    list.push(Some(name))?;
    Ok(OpNames {
        results: NameList { names: list },
        instance: Text::new(alloc),
    })
}

// No names.
fn no_names(alloc: Global) -> OpNames
    ensures results { result.results.names.items ≡ [] }
    ensures instance { result.instance ≡ [] }
{
    OpNames {
        results: NameList {
            names: Vec::new(alloc),
        },
        instance: Text::new(alloc),
    }
}

/// Adds the names of the things of an operation, and gives them. The error comes only when out of memory.
pub fn add_op(
    alloc: Global,
    names: &mut Names,
    op: &Op<'_>,
    emission: Emission,
) -> Result<OpNames, AllocError>
    ensures names { OnOk result (legal_names names.new ≡ legal_names names.old ++ legal_after (legal_names names.old) (op_name_hints (emission_seen emission) (op_seen op.now))) }
    ensures results { IfOk result (λ r. r.results.names.items ≡ op_results (legal_names names.old) (emission_seen emission) (op_seen op.now)) }
    ensures instance { IfOk result (λ r. r.instance ≡ op_own_name (legal_names names.old) (emission_seen emission) (op_seen op.now)) }
{
    match emission {
        Emission::Inline => Ok(no_names(alloc)),
        Emission::Wire | Emission::Reg => add_value(alloc, names, own_name_hint(op)),
        Emission::Instance => match op.kind {
            OpKind::Instance(instance) => { add_instance(alloc, names, instance, op.results.len()) }
            _ => Ok(no_names(alloc)),
        },
    }
}
