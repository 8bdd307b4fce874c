// The exit status: 0 where a file is accepted, drawn or told, 1 where it is refused.
ghost use Rattle.std.specs.Prelude.{◌≡◌};
ghost use Rattle.drawing_text.specs.Status.{verdict_status, chain_status, info_status};

use crate::facts::check_shape;
use base::Rejection;
use draw::Drawing;

const DONE: u8 = 0;

const REFUSED: u8 = 1;

// Of `verify`: a file whose openings clash is accepted.
pub fn verdict_status(drawing: &Result<Drawing, Rejection>) -> u8
    ensures { result ≡ verdict_status drawing.now }
{
    match drawing {
        Ok(_) => DONE,
        Err(_) => REFUSED,
    }
}

// Of `chain`.
pub fn chain_status(drawing: &Result<Drawing, Rejection>) -> u8
    ensures { result ≡ chain_status drawing.now }
{
    match drawing {
        Ok(Drawing::Chain(_)) => DONE,
        Ok(Drawing::Clash(_)) | Err(_) => REFUSED,
    }
}

// Of `info`.
#[tactic(auto, unfolding(crate::specs::Status::info_status))]
pub fn info_status(file: &[u8]) -> u8
    ensures { result ≡ info_status file.now }
{
    match check_shape(file) {
        Ok(()) => DONE,
        Err(_) => REFUSED,
    }
}
