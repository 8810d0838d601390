//! The calls of a pool, for whoever shares one with others.

use crate::assembly::AssembleFault;
use crate::entry::{CloseFault, FetchFault, FoundFault, PathFault, PublishFault, SplitFault};
use crate::reading::Status;
use crate::why::Why;
use clauses::Lit;
use pages::Lines;
use prooflog::Evidence;
use refutations::Batch;
use semantics::Step;
use std::alloc::{AllocError, Global};
use std::sync::Wait;

/// The calls of [`Pool`](crate::Pool) through a shared reference. A worker makes its calls with its
/// seat; `status`, `path` and `assemble` take none. Nothing is promised of the replies: whoever
/// works over a `Share` meets whatever it says.
pub trait Share {
    /// What a worker makes its calls with.
    type Seat;

    /// As [`Pool::publish`](crate::Pool::publish).
    fn publish<R: Wait>(
        &self,
        rt: &R,
        alloc: Global,
        seat: &mut Self::Seat,
        batch: &Batch,
    ) -> Result<u32, PublishFault>;

    /// As [`Pool::fetch`](crate::Pool::fetch).
    fn fetch<R: Wait>(
        &self,
        rt: &R,
        alloc: Global,
        seat: &mut Self::Seat,
        from: usize,
    ) -> Result<Lines, FetchFault>;

    /// As [`Pool::close`](crate::Pool::close).
    fn close<R: Wait>(
        &self,
        rt: &R,
        seat: &mut Self::Seat,
        leaf: u32,
        number: u32,
    ) -> Result<(), CloseFault>;

    /// As [`Pool::split_leaf`](crate::Pool::split_leaf).
    fn split_leaf<R: Wait>(
        &self,
        rt: &R,
        alloc: Global,
        seat: &mut Self::Seat,
        leaf: u32,
        variable: u32,
    ) -> Result<(u32, u32), SplitFault>;

    /// As [`Pool::found`](crate::Pool::found).
    fn found<R: Wait>(
        &self,
        rt: &R,
        alloc: Global,
        seat: &mut Self::Seat,
        steps: Vec<Step>,
    ) -> Result<(), FoundFault>;

    /// As [`Pool::leave`](crate::Pool::leave).
    fn leave<R: Wait>(
        &self,
        rt: &R,
        seat: &mut Self::Seat,
        why: Option<Why>,
    ) -> Result<(), AllocError>;

    /// As [`Pool::status`](crate::Pool::status).
    fn status<R: Wait>(&self, rt: &R) -> Status;

    /// As [`Pool::path`](crate::Pool::path).
    fn path<R: Wait>(&self, rt: &R, alloc: Global, leaf: u32) -> Result<Vec<Lit>, PathFault>;

    /// As [`Pool::assemble`](crate::Pool::assemble).
    fn assemble<R: Wait>(&self, rt: &R, alloc: Global) -> Result<Evidence, AssembleFault>;
}
