// A seal taken up from the bytes of its checkpoint.
ghost use Rattle.std.specs.Prelude.{◌≡◌, ◌≤◌, IfOk, eqb, length, take};
ghost use Rattle.base.specs.Choice.{pick};
ghost use Rattle.base.specs.Limits.{max_depth, max_store, max_file};
ghost use Rattle.tree.specs.Walk.{nodes_in};
ghost use Rattle.checkpoint.specs.Reading.{fault_number, fault_of, run_found, IsFoundIn};
ghost use Rattle.checkpoint.specs.Openings.{openings_taken};
ghost use Rattle.sealing.specs.TakenUp.{openings_done, store_taken, file_taken, IsTakenUp};

use crate::{Seal, tree_of};
use base::{label_at, put};
use checkpoint::{Fault, Found, HEAD_SIZE, read_checkpoint, right_openings};
use file_head::file_size;
use run::{Run, nodes, store_size};

// How many openings stand behind the checkpoint: none before all labels are made.
fn openings_done(run: &Run, count: u64, behind: &[u8]) -> u64
    requires { (run.now.depth ≤ max_depth) × (run.now.made ≤ nodes_in run.now.depth) }
    ensures { result ≡ pick (eqb run.now.made (nodes_in run.now.depth))
        (openings_taken run.now.edition run.now.statement (take 32 run.now.held) run.now.depth count behind.now) 0 }
{
    if run.made < nodes(run.depth) {
        return 0;
    }
    let root = label_at(&run.held, 0);
    right_openings(&tree_of(run), root, count, behind)
}

// The store of a whole checkpoint goes over the front of `store`.
fn take_store(bytes: &[u8], memory: u64, store: &mut [u8])
    requires { (fault_of bytes.now ≡ 0) × (memory ≡ (run_found bytes.now).memory) × (max_store ≤ length store.old) }
    ensures { store.new ≡ store_taken bytes.now store.old }
{
    let from = HEAD_SIZE;
    let end = from + store_size(memory) as usize;
    put(store, 0, &bytes[from..end]);
}

// The openings behind a whole checkpoint go to their places in `file`. How many they are.
fn take_openings(bytes: &[u8], found: &Found, file: &mut [u8]) -> u64
    requires whole { fault_of bytes.now ≡ 0 }
    requires found { IsFoundIn bytes.now found.now }
    requires room { max_file ≤ length file.old }
    ensures value { result ≡ openings_done bytes.now }
    ensures file_after { file.new ≡ file_taken bytes.now file.old }
{
    let run = &found.run;
    let done = openings_done(run, found.count, &bytes[found.size..]);
    let size = (32 * (run.depth + 1)) as usize;
    let end = found.size + (done as usize) * size;
    let at = file_size(run.depth, found.count) - (found.count as usize) * size;
    put(file, at, &bytes[found.size..end]);
    done
}

// Reads a checkpoint: its store goes over the front of `store`, the openings behind it to their places in `file`.
pub fn take_up(bytes: &[u8], store: &mut [u8], file: &mut [u8]) -> Result<Seal, Fault>
    requires { (max_store ≤ length store.old) × (max_file ≤ length file.old) }
    ensures fault_value { fault_number result ≡ fault_of bytes.now }
    ensures taken_value { IfOk result (IsTakenUp bytes.now) }
    ensures store_after { store.new ≡ store_taken bytes.now store.old }
    ensures file_after { file.new ≡ file_taken bytes.now file.old }
{
    let found = read_checkpoint(bytes)?;
    take_store(bytes, found.run.memory, store);
    let done = take_openings(bytes, &found, file);
    Ok(Seal {
        count: found.count,
        done,
        run: found.run,
    })
}
