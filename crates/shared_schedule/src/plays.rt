//! What the steps of a worker tell. These types are for the proofs alone.

ghost use Rattle.shared_schedule.specs.declared.view.Hold.TheVariants.{Begun, Over};
ghost use Rattle.shared_schedule.specs.Plays.{Draws, LendsBody, GivesBody, LendsCopy, LendsBare, GivesEdge, Reports, Looks};

use crate::pieces::Pieces;
use crate::slot::Slot;
use crate::view::View;
use atomic_table::{Join, Play, Split};
use std::marker::PhantomData;

pub struct Draw<P> {
    marker: PhantomData<P>,
}

impl<P: Pieces> Play<Slot<P::Body>, View<P>> for Draw<P> {
    ghost then = { Draws P.first P.copied };
}

pub struct LendBody<P> {
    marker: PhantomData<P>,
}

impl<P: Pieces> Play<Slot<P::Body>, View<P>> for LendBody<P> {
    ghost then = { LendsBody P.first P.copied };
}

pub struct GiveBegun<P> {
    marker: PhantomData<P>,
}

impl<P: Pieces> Play<Slot<P::Body>, View<P>> for GiveBegun<P> {
    ghost then = { GivesBody P.first P.copied Begun };
}

pub struct GiveOver<P> {
    marker: PhantomData<P>,
}

impl<P: Pieces> Play<Slot<P::Body>, View<P>> for GiveOver<P> {
    ghost then = { GivesBody P.first P.copied Over };
}

pub struct LendCopy<P> {
    marker: PhantomData<P>,
}

impl<P: Pieces> Play<Slot<P::Body>, View<P>> for LendCopy<P> {
    ghost then = { LendsCopy P.first P.copied };
}

pub struct LendBare<P> {
    marker: PhantomData<P>,
}

impl<P: Pieces> Play<Slot<P::Body>, View<P>> for LendBare<P> {
    ghost then = { LendsBare P.first P.copied };
}

pub struct GiveEdge<P> {
    marker: PhantomData<P>,
}

impl<P: Pieces> Play<Slot<P::Body>, View<P>> for GiveEdge<P> {
    ghost then = { GivesEdge P.first P.copied };
}

pub struct Tell<P> {
    marker: PhantomData<P>,
}

impl<P: Pieces> Play<Slot<P::Body>, View<P>> for Tell<P> {
    ghost then = { Reports P.first P.copied };
}

pub struct Look<P> {
    marker: PhantomData<P>,
}

impl<P: Pieces> Play<Slot<P::Body>, View<P>> for Look<P> {
    ghost then = { Looks P.first P.copied };
}

/// How the first worker's view is cut in two.
pub struct Cut;

impl<P> Split<View<P>> for Cut {
    ghost use Rattle.shared_schedule.specs.Plays.{split_view};
    ghost use Rattle.shared_schedule.specs.Views.{new_view};

    ghost left = { split_view };

    ghost right = { λ v. new_view v.plan };
}

/// How a worker's view becomes part of another's.
pub struct Gather;

impl<P> Join<View<P>> for Gather {
    ghost use Rattle.shared_schedule.specs.Views.{both_views, spent_view};

    ghost both = { both_views };

    ghost spent = { spent_view };
}
