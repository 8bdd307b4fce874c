// Demands 2 and 3 speak of bytes below 256, which every slice's are: here they are the contracts of two calls, with nothing asked
// of the bytes.
#![tactic(auto)]

ghost use Rattle.std.specs.Prelude.{◌≡◌, true, ◌↔◌, length, ℕ, IfOk};
ghost use Rattle.check_theory.specs.IsProof.{IsProof};
ghost use Rattle.draw.specs.Drawing.{drawing_answer, drawing_of, HasInputs, first_drawn, second_drawn};
ghost use Rattle.demands.specs.Demand3.{Drawn};

use base::Rejection;
use draw::Drawing;
use proof_file::check_file;

// Demand 2: a file is accepted exactly if it is a proof, of some edition.
pub fn is_proof(file: &[u8], statement: [u8; 32], depth: u64, count: u64) -> bool
    ensures { (result ≡ true) ↔ ((edition : ℕ) × IsProof edition file.now statement depth count) }
{
    check_file(file, statement, depth, count).is_ok()
}

// Demand 3: whatever bytes come in as a proof.
pub fn chain_or_clash(
    file: &[u8],
    statement: [u8; 32],
    depth: u64,
    count: u64,
    list: &mut [u64],
) -> Result<Drawing, Rejection>
    ensures drawing_value { drawing_answer result ≡ drawing_of file.now statement depth count (length list.old) }
    ensures inputs_value { IfOk result
        (HasInputs (first_drawn file.now statement depth count (length list.old)) (second_drawn file.now statement depth count (length list.old))) }
    ensures drawn { Drawn file.now statement depth count list.old }
{
    draw::draw(file, statement, depth, count, list)
}
