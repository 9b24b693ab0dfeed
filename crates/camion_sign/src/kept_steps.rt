// The steps of a signing, if they are kept.
ghost use Rattle.std.specs.Prelude.{◌≡◌, ◌<◌, ◌++◌, [], ◌∷◌, ℕ, List, OnOk};
ghost use Rattle.cmr_base.specs.Matrix.{height};
ghost use Rattle.cmr_base.specs.declared.line_set.LineSet.{LineSet};
ghost use Rattle.chains.specs.declared.step.SignStep.{SignStep};
ghost use Rattle.chains.specs.declared.step.SignStep.TheVariants.{Free, Forced};
ghost use Rattle.camion_sign.specs.SignOrder.{IsCycleLines, IsPlaceOf};
ghost use Rattle.camion_sign.specs.KeptSteps.{HasKept};
ghost use Rattle.camion_sign.specs.Signings.{KnowsPlaces};

use crate::row_places::{ForcedOne, RowPlaces};
use chains::{SignStep, SignStepList};
use cmr_base::{Matrix, Memory, RowsAndColumns};
use std::alloc::Global;

/// The steps so far. If they are not kept, the list is empty.
#[derive(Drop)]
pub struct KeptSteps {
    pub are_kept: bool,
    pub list: SignStepList,
}

impl KeptSteps {
    /// No steps.
    pub fn new(alloc: Global, are_kept: bool) -> KeptSteps
        ensures kept { HasKept [] result }
        ensures flag { result.are_kept ≡ are_kept }
    {
        KeptSteps {
            are_kept,
            list: SignStepList::new(alloc),
        }
    }

    /// Adds a free step.
    pub fn free(&mut self, row: u32, column: u32) -> Result<(), Memory>
        ensures kept { OnOk result ((steps : List SignStep) → HasKept steps self.old
            → HasKept (steps ++ Free row column ∷ []) self.new) }
        ensures flag { OnOk result (self.new.are_kept ≡ self.old.are_kept) }
    {
        if self.are_kept {
            self.list.push(SignStep::Free { row, column })?;
        }
        Ok(())
    }

    /// Adds a forced step. Only steps that are kept need the lines of the cycle.
    pub fn forced(
        &mut self,
        alloc: Global,
        matrix: &RowsAndColumns<'_>,
        signs: &Matrix,
        places: &mut RowPlaces,
        row: u32,
        forced: ForcedOne,
    ) -> Result<(), Memory>
        requires row { row < height matrix.now }
        requires places { KnowsPlaces matrix.now signs.now row places.old }
        requires place { (path : List ℕ)
            × IsPlaceOf matrix.now row forced.partner forced.column path }
        ensures kept { OnOk result ((cycle : LineSet)
            × IsCycleLines matrix.now row forced.partner forced.column cycle
            × ((steps : List SignStep) → HasKept steps self.old
            → HasKept (steps ++ Forced row forced.column cycle ∷ []) self.new)) }
        ensures flag { OnOk result (self.new.are_kept ≡ self.old.are_kept) }
        ensures places { OnOk result (KnowsPlaces matrix.now signs.now row places.new) }
    {
        if !self.are_kept {
            return Ok(());
        }
        let ForcedOne {
            column,
            partner,
            ..
        } = forced;
        let cycle = places.cycle(alloc, matrix, signs, row, column, partner)?;
        self.list.push(SignStep::Forced { row, column, cycle })?;
        Ok(())
    }
}
