//! The ids of a body's operations in text order.
ghost use Rattle.std.specs.Prelude.{◌≡◌};

use crate::operation::OpId;
use crate::order::Order;
use linked_lists::links::{Link, next_of};

/// The ids of a body's operations in text order: a walk along the links between them.
#[derive(Drop)]
pub struct Ops<'b> {
    links: &'b [Link],
    at: u32,
    left: usize,
}

impl<'b> Iterator for Ops<'b> {
    ghost use Rattle.std.specs.Iterator.{YieldsFirst, item_count};
    ghost use Rattle.ir_store.specs.Bodies.{ids_left};

    type Item = OpId;

    ghost next_gives = { YieldsFirst ids_left };

    ghost remaining = { item_count ids_left };

    fn next(&mut self) -> Option<OpId> {
        let first = self.first()?;
        self.advance();
        Some(first)
    }
}

impl<'b> Ops<'b> {
    ghost use Rattle.std.specs.Prelude.{drop};
    ghost use Rattle.ir_store.specs.Bodies.{ids_left, first_id};
    ghost use Rattle.linked_lists.specs.Links.{walk};
    ghost use Rattle.ir_store.specs.Orders.{live_ids};

    /// The ids of an order.
    pub(crate) fn along(order: &'b Order) -> Ops<'b>
        ensures ids { walk result.links.now result.left result.at ≡ live_ids order.now }
    {
        Ops {
            links: order.links(),
            at: order.first(),
            left: order.count(),
        }
    }

    /// The first of those that are left.
    pub(crate) fn first(&self) -> Option<OpId>
        ensures { result ≡ first_id (ids_left self.now) }
    {
        if self.left == 0 {
            return None;
        }
        Some(OpId { index: self.at })
    }

    /// Leaves the first out, where there is one.
    pub(crate) fn advance(&mut self)
        ensures { ids_left self.new ≡ drop 1 (ids_left self.old) }
    {
        if self.left > 0 {
            self.at = next_of(self.links, self.at);
            self.left -= 1;
        }
    }
}
