//! The text of answers: names, numbers and the values of diagrams.
#![tactic(auto)]

ghost use Rattle.std.specs.Prelude.{◌≡◌, ℕ, List, [], get_or};

use cb_dd::Stop;
use cb_host::Failed;
pub use plain::{number, plain_name, push_name};
use thiserror::Error;
pub use values::{MOST_PRODUCTS, push_value, value};

mod plain;
mod values;

/// Where the names and the constants of a text are looked up by their numbers. A number past the last has no bytes.
pub trait Names {
    // the names by number
    ghost names: { Self → List (List ℕ) };

    // the constants by number, in declared order
    ghost constants: { Self → List (List ℕ) };

    /// The bytes of the name with this number; none past the last name.
    fn name(&self, n: u32) -> &[u8]
        ensures { result.now ≡ get_or (names self.now) n [] };

    /// The bytes of the constant with this number; none past the last constant.
    fn constant(&self, k: u32) -> &[u8]
        ensures { result.now ≡ get_or (constants self.now) k [] };
}

/// Why a text was not written.
#[derive(Clone, Copy, PartialEq, Eq, Debug, Error)]
pub enum ShowError {
    /// The sink failed; a front of the text was written.
    #[error(transparent)]
    Failed(Failed),
    /// There is no memory for the text, or no node; nothing was written.
    #[error(transparent)]
    Stop(Stop),
}
