ghost use Rattle.std.specs.Prelude.{◌≡◌, IfOk, length, map};
ghost use Rattle.cb_model.specs.Bits.{bits_of};
ghost use Rattle.cb_levels.specs.Inverse.{IsInverse};
ghost use Rattle.cb_verify.specs.Places.{ArePlaces};

use cb_levels::{fan_in_order, levels};
use cb_model::Circuit;
use std::alloc::{AllocError, Global};

/// The places of a circuit's inputs among the levels: the input of each level, and the level of each input.
#[derive(Drop)]
pub struct Places {
    pub order: Vec<u32>,
    pub levels: Vec<u32>,
}

impl Places {
    /// The places in the order in which a walk of the fan-in meets the inputs.
    pub fn of(alloc: Global, circuit: &Circuit) -> Result<Places, AllocError>
        ensures { IfOk result (λ p. ArePlaces circuit.now.inputs p.order.items p.levels.items) }
    {
        let order = fan_in_order(alloc, circuit)?;
        let levels = levels(alloc, order.as_slice())?;
        Ok(Places { order, levels })
    }

    /// The bits of the levels, where these are those of the inputs.
    pub fn by_level(&self, alloc: Global, row: &[bool]) -> Result<Vec<bool>, AllocError>
        requires places { IsInverse self.now.order.items self.now.levels.items }
        requires as_many { length row.now ≡ length self.now.order.items }
        ensures { IfOk result (λ v. map (bits_of v.items) self.now.levels.items ≡ row.now) }
    {
        let mut bits = Vec::with_capacity(alloc, row.len())?;
        for input in &self.order {
            bits.push(row[*input as usize])?;
        }
        Ok(bits)
    }
}
