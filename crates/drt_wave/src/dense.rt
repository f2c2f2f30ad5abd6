//! A table that was worked to its end.

use crate::column::Column;
use crate::plan::Plan;
use arrayvec::ArrayVec;
use drt_model::MOST_VERTICES;
use std::marker::Model;

/// The greatest works of a graph's walks, by vertex and offset. Contracts see it as its plan and the cells of each vertex. There is a place for
/// as many vertices as a graph may have, so to close a table takes no memory.
#[derive(Drop)]
pub struct DenseFront {
    pub(crate) plan: Plan,
    pub(crate) columns: ArrayVec<Column, MOST_VERTICES>,
}

impl Model for DenseFront {
    ghost use Rattle.drt_wave.specs.Cells.{IsWavePlan};
    ghost use Rattle.drt_wave.specs.Dense.{Dense, AreBest, AreWhole};

    ghost Value = { Dense };

    ghost view = { λ d. record { plan = d.plan; columns = d.columns.items } };

    ghost invariant = { λ d. IsWavePlan d.plan × AreWhole d.plan d.columns.items × AreBest d.plan d.columns.items };
}
