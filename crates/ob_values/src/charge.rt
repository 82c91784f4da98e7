//! The limits of an action.
ghost use Rattle.std.specs.Prelude.{◌≡◌};
ghost use Rattle.ob_values.specs.Operators.{limited};
ghost use Rattle.ob_values.specs.Store.{IsOpen, elements_in};

use crate::regions::Regions;
use ob_items::{OpError, RegionKey};

impl Regions {
    /// Whether an action may be carried out that makes so many elements in a region and takes so many
    /// steps besides one for each of these, where `left` steps may be spent. It takes no memory, and
    /// nothing is charged.
    ///
    /// # Errors
    /// `HeapFull` exactly where the region's elements and these are more than 50,000, else `StepsOut`
    /// exactly where the elements and the steps are more than `left`.
    pub fn charge(
        &self,
        region: RegionKey,
        elements: usize,
        steps: usize,
        left: u64,
    ) -> Result<(), OpError>
        requires { IsOpen self.now region }
        ensures { result ≡ limited (elements_in self.now region) left elements steps tt }
    {
        if self.is_full_for(region, elements) {
            return Err(OpError::HeapFull);
        }
        if elements as u64 > left || steps as u64 > left - elements as u64 {
            return Err(OpError::StepsOut);
        }
        Ok(())
    }
}
