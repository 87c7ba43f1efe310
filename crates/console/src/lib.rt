// Standard input line by line, and standard output piece by piece.
#![tactic(auto)]

pub mod input;
pub mod output;

ghost use Rattle.std.specs.Prelude.{◌≡◌, None, OnOk};

use std::io::{Error, Result};

// What input or output ends with: the first error, where one was kept.
fn ended(failure: Option<Error>) -> Result<()>
    ensures { OnOk result (failure ≡ None) }
{
    match failure {
        Some(e) => Err(e),
        None => Ok(()),
    }
}
