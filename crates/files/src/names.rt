// The names of the files beside a proof: its own name with an ending.
ghost use Rattle.std.specs.Prelude.{◌≡◌};
ghost use Rattle.files.specs.Names.{path_of, beside};

use crate::{MAX_PATH, Name};
use base::put;
use std::fs::File;
use std::rt::Files;

impl Name {
    // The proof's name with an ending. Where that is longer than any path the name is empty, and the system refuses that one just as well.
    pub fn beside(proof: &[u8], ending: &[u8]) -> Name
        ensures { path_of result ≡ beside proof.now ending.now }
    {
        let mut text = [0u8; MAX_PATH];
        if MAX_PATH < proof.len().saturating_add(ending.len()) {
            return Name { text, length: 0 };
        }
        put(&mut text, 0, proof);
        put(&mut text, proof.len(), ending);
        Name {
            text,
            length: proof.len() + ending.len(),
        }
    }

    #[tactic(auto, unfolding(crate::specs::Names::path_of))]
    pub fn path(&self) -> &[u8]
        ensures { result.now ≡ path_of self.now }
    {
        &self.text[..self.length]
    }
}

// Removes the file of that name and ending, if it is there.
pub fn remove<R: Files<File = File>>(rt: &R, proof: &[u8], ending: &[u8]) {
    let _ = descriptors::remove(rt, Name::beside(proof, ending).path());
}
