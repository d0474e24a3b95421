//! Faults of matrices at their places in a source.

ghost use Rattle.std.specs.Prelude.{◌≡◌};
ghost use Rattle.tk_affine.specs.Faults as spec;

use crate::AffFault;
use tk_token::{Code, Fault};

/// What is found by matrices, or its fault at a place.
pub fn answer_at<T>(found: Result<T, AffFault>, at: u32) -> Result<T, Fault>
    ensures { result ≡ spec.answer_at at found }
{
    match found {
        Ok(value) => Ok(value),
        Err(fault) => Err(Fault::new(matrix_code(fault), at)),
    }
}

/// The code of a fault of matrices.
fn matrix_code(fault: AffFault) -> Code
    ensures { result ≡ spec.matrix_code fault }
{
    match fault {
        AffFault::TooLarge => Code::TooLarge,
        AffFault::Singular => Code::Singular,
    }
}
