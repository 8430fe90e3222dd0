//! The rule of the shared table.

use crate::pieces::Pieces;
use crate::plan::Plan;
use crate::slot::Slot;
use crate::view::View;
use atomic_table::TableRule;
use std::marker::PhantomData;

/// The rule of the table: its words, slots and views show a sound state of the plan's schedule.
pub struct Kept<P> {
    marker: PhantomData<P>,
}

impl<P: Pieces> TableRule<Slot<P::Body>, View<P>, Plan<P>> for Kept<P> {
    ghost use Rattle.std.specs.Prelude.{Some};
    ghost use Rattle.shared_schedule.specs.Rule.{Rule};
    ghost use Rattle.shared_schedule.specs.Views.{new_view};

    ghost holds = { Rule P.first P.finished P.copied };

    ghost first = { λ plan. new_view (Some plan) };
}
