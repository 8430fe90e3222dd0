//! Bodies that are built at once.
ghost use Rattle.std.specs.Prelude.{◌≡◌, ◌≤◌, ◌^◌, map, length, IfOk};
ghost use Rattle.ir_store.specs.Bodies.{ops_of};
ghost use Rattle.ir_store.specs.Numbered.{op_by};
ghost use Rattle.generator.specs.Views.{op_seen, IsNumbered};

use crate::operations::MOST_OPS;
use ir_store::body::Body;
use ir_store::operation::NewOp;
use std::alloc::{AllocError, Global};

/// The most operands that the operations of a module have together.
const MOST_USES: u32 = 17;

/// The body of some operations, whose operands name operations by positions. The error comes only when out of memory.
pub fn body_with(alloc: Global, ops: Vec<NewOp>) -> Result<Body, AllocError>
    requires { length ops.items ≤ 2 ^ 16 }
    ensures ops { IfOk result (λ body. map (op_by (λ i. i)) (ops_of body) ≡ map op_seen ops.items) }
    ensures numbered { IfOk result IsNumbered }
{
    let mut body = Body::new(alloc);
    body.reserve(MOST_OPS, MOST_USES)?;
    for op in ops {
        body.add_op(None, op)?;
    }
    Ok(body)
}
