//! What is asked of ports across modules.
use crate::designs::{OUT, RESET, Row, design, design_of};
use diag::cause::Cause;
use hw_model::kinds::{Instance, OpKind};
use io_edge::byte_text::Text;
use ir_store::design::Design;
use port_checks::{ResetPorts, instance_cause};
use std::alloc::{AllocError, Global};
use std::test::Fail;

/// The number of a port that is not there.
const NO_PORT: u32 = 4;

// The reset ports of a design among the first ones of its first modules, and of modules that are not there.
fn resets(alloc: Global, design: &Design) -> Result<Vec<(usize, usize)>, AllocError> {
    let found = ResetPorts::of(alloc, design)?;
    let mut resets = Vec::new(alloc);
    for module in 0..2 {
        for port in 0..6 {
            if found.has(module, port) {
                resets.push((module, port))?;
            }
        }
    }
    Ok(resets)
}

// An instance without ports of the module of a symbol.
fn instance(alloc: Global, symbol: &[u8]) -> Result<OpKind, AllocError> {
    let instance = Instance {
        name: Text::new(alloc),
        inner_symbol: None,
        symbol: Text::of(alloc, symbol)?,
        inputs: Vec::new(alloc),
        outputs: Vec::new(alloc),
    };
    Ok(OpKind::Instance(Box::new(alloc, instance)?))
}

// An output and a port that is not there reset nothing.
#[test]
fn reset_ports_are_found(rt: HostRuntime) -> Result<(), Fail> {
    let rows = [
        Row::Constant,
        Row::Register(OUT),
        Row::Register(NO_PORT),
        Row::Register(RESET),
    ];
    let design = design_of(rt.alloc(), &rows)?;
    let found = resets(rt.alloc(), &design)?;
    assert_eq!(rt; found.as_slice(), [(0, RESET as usize)].as_slice());
    Ok(())
}

// Why an instance without ports of the module of a symbol is refused in a design.
fn cause_in(alloc: Global, design: &Design, symbol: &[u8]) -> Result<Option<Cause>, AllocError> {
    let kind = instance(alloc, symbol)?;
    Ok(instance_cause(design, &kind, &[]))
}

// The same where the design has a module `T` without ports.
fn cause_without_ports(alloc: Global, symbol: &[u8]) -> Result<Option<Cause>, AllocError> {
    let design = design(alloc, Vec::new(alloc), Vec::new(alloc))?;
    cause_in(alloc, &design, symbol)
}

// The same where it has a module `T` with ports.
fn cause_with_ports(alloc: Global, symbol: &[u8]) -> Result<Option<Cause>, AllocError> {
    let design = design_of(alloc, &[])?;
    cause_in(alloc, &design, symbol)
}

#[test]
fn instances_are_refused_by_their_modules(rt: HostRuntime) -> Result<(), Fail> {
    let ports_differ = Some(Cause::InstancePorts);
    assert_eq!(rt; cause_without_ports(rt.alloc(), b"T")?, None);
    assert_eq!(rt; cause_with_ports(rt.alloc(), b"T")?, ports_differ);
    assert_eq!(rt;
        cause_without_ports(rt.alloc(), b"U")?,
        Some(Cause::UnknownModule)
    );
    Ok(())
}
