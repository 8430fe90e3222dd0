//! The names of the things of a body.
ghost use Rattle.std.specs.Prelude.{◌≡◌, ◌++◌, IfOk, OnOk};
ghost use Rattle.name_legalise.specs.Legal.{legal_after};
ghost use Rattle.name_legalise.specs.LegalViews.{legal_names};
ghost use Rattle.verilog_expr.specs.Scopes.{scope_ports, scope_ops};
ghost use Rattle.verilog_expr.specs.PartTables.{AreWires};
ghost use Rattle.export_verilog.specs.Held.{op_results, op_own_name};
ghost use Rattle.export_verilog.specs.Walks.{body_name_hints, body_given, result_lists};

use crate::name_hints::emission_of;
use crate::op_names::add_op;
use io_edge::byte_text::Text;
use name_legalise::names::Names;
use std::alloc::{AllocError, Global};
use verilog_expr::scope::Scope;
use verilog_expr::value_names::ValueNames;
use verilog_expr::wires::Wires;

/// Adds the names of the things of a body to those of its ports, in one walk over the operations: of each result to the
/// names of values, and gives the operations' own names, which instances have. The error comes only when out of memory.
pub fn add_ops(
    alloc: Global,
    names: &mut Names,
    values: &mut ValueNames,
    scope: &Scope<'_>,
    wires: &Wires,
) -> Result<Vec<Text>, AllocError>
    requires wires { AreWires (scope_ports scope.now) (scope_ops scope.now) wires.now.wires.items }
    ensures names { OnOk result (legal_names names.new ≡ legal_names names.old ++ legal_after (legal_names names.old) (body_name_hints (scope_ports scope.now) (scope_ops scope.now) 0 (scope_ops scope.now))) }
    ensures results { OnOk result (result_lists values.new ≡ result_lists values.old ++ body_given op_results (scope_ports scope.now) (scope_ops scope.now) (legal_names names.old) 0 (scope_ops scope.now)) }
    ensures ports { OnOk result (values.new.ports ≡ values.old.ports) }
    ensures own { IfOk result (λ own. own.items ≡ body_given op_own_name (scope_ports scope.now) (scope_ops scope.now) (legal_names names.old) 0 (scope_ops scope.now)) }
{
    let mut own = Vec::new(alloc);
    for position in 0..scope.count() {
        let op = scope.op_at(position);
        let emission = emission_of(op.kind, wires.has_wire(position));
        let given = add_op(alloc, names, &op, emission)?;
        values.push_op(given.results)?;
        own.push(given.instance)?;
    }
    Ok(own)
}
