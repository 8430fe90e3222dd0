//! Whether values of a design have aggregate types.
ghost use Rattle.std.specs.Prelude.{◌≡◌};
ghost use Rattle.ir_store.specs.Bodies.{ops_of};
ghost use Rattle.ir_store.specs.Numbered.{ops_by_position};
ghost use Rattle.ir_store.specs.OperationViews.{results_in};
ghost use Rattle.ir_store.specs.Designs.{design_of, ports_in, module_of, numbered_module};
ghost use Rattle.aggregate_laws.specs.Scalars.{has_aggregates, has_aggregate_value, has_aggregate_port, has_aggregate_type, has_aggregate_result};

use ir_store::body::Body;
use ir_store::design::{Design, Module, PortList};
use ir_store::operation::NewResultList;
use lowering_rules::leaf_types::is_scalar;

/// Whether some port or some result of a design has an aggregate type. Linear in the design.
pub fn has_aggregates(design: &Design) -> bool
    ensures { result ≡ has_aggregates (design_of design.now) }
{
    for number in 0..design.module_count() {
        if has_aggregate_value(design.module(number)) {
            return true;
        }
    }
    false
}

// Whether some port or some result of a module has an aggregate type.
fn has_aggregate_value(one: &Module) -> bool
    ensures { result ≡ has_aggregate_value (numbered_module (module_of one.now)) }
{
    has_aggregate_port(&one.ports) || has_aggregate_result(&one.body)
}

// Whether some port has an aggregate type.
fn has_aggregate_port(ports: &PortList) -> bool
    ensures { result ≡ has_aggregate_port (ports_in ports.now) }
{
    for port in &ports.ports {
        if !is_scalar(&port.ty) {
            return true;
        }
    }
    false
}

// Whether some result in a body has an aggregate type.
fn has_aggregate_result(body: &Body) -> bool
    ensures { result ≡ has_aggregate_result (ops_by_position (ops_of body.now)) }
{
    for id in body.ops() {
        if has_aggregate_type(body.op(id).results) {
            return true;
        }
    }
    false
}

// Whether some of these results has an aggregate type.
fn has_aggregate_type(results: &NewResultList) -> bool
    ensures { result ≡ has_aggregate_type (results_in results.now) }
{
    for one in results.as_slice() {
        if !is_scalar(&one.ty) {
            return true;
        }
    }
    false
}
