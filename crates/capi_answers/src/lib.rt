// Every exported call again, with its whole answer as one record of the definitions, proved from capi's contracts alone. A contract
// there that says less, an answer with a field that none decides, or parameters in another order are refused here.
#![tactic(auto)]

ghost use Rattle.std.specs.Prelude.{◌≡◌, length};
ghost use Rattle.sha256.specs.Portions.{new_hash};
ghost use Rattle.run.specs.Steps as runs;
ghost use Rattle.run_record.specs.Layout.{record_written};
ghost use Rattle.opening.specs.Names.{open_of};
ghost use Rattle.opening.specs.Steps as openings;
ghost use Rattle.unit.specs.Turns as units;
ghost use Rattle.opening_check.specs.OpeningCheck.{opening_row};
ghost use Rattle.file_head.specs.Layout.{head_row, head_written};
ghost use Rattle.proof_file.specs.FileCheck.{file_check};
ghost use Rattle.writing.specs.Possible.{written_of};
ghost use Rattle.writing.specs.Steps as writings;
ghost use Rattle.chain.specs.PlanRow.{planned_list};
ghost use Rattle.draw.specs.Drawing.{drawn_list};
ghost use Rattle.capi_answers.specs.Answers.{hash_update, hash_finish, digest, run_start, run_advance, run_record, run_resume, opening_start};
ghost use Rattle.capi_answers.specs.Answers.{opening_advance, challenge, read_head, opening_place, writing_start, writing_advance, plan, compare, draw};
ghost use Rattle.capi_answers.specs.Answers.{unit_advance, unit_store_place};

use capi::{
    Challenged, Compared, Drawn, HashDigest, HashFinished, HashUpdated, HeadRead, OpeningAdvanced,
    OpeningStarted, Planned, RunAdvanced, RunRecorded, RunStarted, UnitAdvanced, WritingAdvanced,
    WritingStarted,
};
use opening::Opening;
use proof_file::Place;
use run::Run;
use sha256::Hash;
use unit::{StampingUnit, StorePlace};
use writing::Writing;

pub fn hash_new() -> Hash
    ensures { result ≡ new_hash }
{
    capi::mastdock_hash_new()
}

pub fn hash_update(hash: Hash, part: &[u8]) -> HashUpdated
    ensures { result ≡ hash_update hash part.now }
{
    capi::mastdock_hash_update(hash, part)
}

pub fn hash_finish(hash: Hash) -> HashFinished
    ensures { result ≡ hash_finish hash }
{
    capi::mastdock_hash_finish(hash)
}

pub fn digest(message: &[u8]) -> HashDigest
    ensures { result ≡ digest message.now }
{
    capi::mastdock_digest(message)
}

pub fn run_start(statement: &[u8; 32], depth: u64, memory: u64, store: &[u8]) -> RunStarted
    ensures { result ≡ run_start statement.now depth memory store.now }
{
    capi::mastdock_run_start(statement, depth, memory, store)
}

pub fn run_advance(run: Run, budget: u64, store: &mut [u8]) -> RunAdvanced
    ensures value { result ≡ run_advance run budget store.old }
    ensures store_after { store.new ≡ (runs.advanced (runs.stamped run store.old) budget).store }
{
    capi::mastdock_run_advance(run, budget, store)
}

pub fn run_record(run: Run, out: &mut [u8]) -> RunRecorded
    ensures value { result ≡ run_record run out.old }
    ensures out_after { out.new ≡ record_written run out.old }
{
    capi::mastdock_run_record(run, out)
}

pub fn run_resume(bytes: &[u8]) -> RunStarted
    ensures { result ≡ run_resume bytes.now }
{
    capi::mastdock_run_resume(bytes)
}

pub fn opening_start(
    edition: u64,
    statement: &[u8; 32],
    depth: u64,
    memory: u64,
    leaf: u64,
    store: &[u8],
    out: &mut [u8],
) -> OpeningStarted
    ensures value { result ≡ opening_start edition statement.now depth memory leaf store.now out.old }
    ensures out_after { out.new ≡ openings.started_out edition depth memory leaf store.now out.old }
{
    capi::mastdock_opening_start(edition, statement, depth, memory, leaf, store, out)
}

pub fn opening_advance(
    opening: Opening,
    budget: u64,
    store: &[u8],
    out: &mut [u8],
) -> OpeningAdvanced
    ensures value { result ≡ opening_advance opening budget store.now out.old }
    ensures out_after { out.new ≡ (openings.advanced store.now (open_of opening out.old) budget).out }
{
    capi::mastdock_opening_advance(opening, budget, store, out)
}

pub fn unit_advance(unit: StampingUnit, budget: u64, store: &mut [u8]) -> UnitAdvanced
    ensures value { result ≡ unit_advance unit budget store.old }
    ensures store_after { store.new ≡ (units.advanced (units.carried unit store.old) budget).store }
{
    capi::mastdock_unit_advance(unit, budget, store)
}

pub fn unit_store_place(unit: StampingUnit, i: u64, store: &[u8]) -> StorePlace
    ensures { result ≡ unit_store_place unit i store.now }
{
    capi::mastdock_unit_store_place(unit, i, store)
}

pub fn challenge(
    edition: u64,
    statement: &[u8; 32],
    root: &[u8; 32],
    depth: u64,
    i: u64,
) -> Challenged
    ensures { result ≡ challenge edition statement.now root.now depth i }
{
    capi::mastdock_challenge(edition, statement, root, depth, i)
}

pub fn write_head(
    edition: u64,
    statement: &[u8; 32],
    root: &[u8; 32],
    depth: u64,
    count: u64,
    file: &mut [u8],
) -> u64
    ensures value { result ≡ head_row edition depth count (length file.old) }
    ensures file_after { file.new ≡ head_written edition statement.now root.now depth count file.old }
{
    capi::mastdock_write_head(edition, statement, root, depth, count, file)
}

pub fn read_head(file: &[u8]) -> HeadRead
    ensures { result ≡ read_head file.now }
{
    capi::mastdock_read_head(file)
}

pub fn opening_place(file: &[u8], i: u64) -> Place
    ensures { result ≡ opening_place file.now i }
{
    capi::mastdock_opening_place(file, i)
}

pub fn check_opening(
    edition: u64,
    statement: &[u8; 32],
    root: &[u8; 32],
    depth: u64,
    leaf: u64,
    opening: &[u8],
) -> u64
    ensures { result ≡ opening_row edition statement.now depth leaf root.now opening.now }
{
    capi::mastdock_check_opening(edition, statement, root, depth, leaf, opening)
}

pub fn check_file(file: &[u8], statement: &[u8; 32], depth: u64, count: u64) -> u64
    ensures { result ≡ file_check file.now statement.now depth count }
{
    capi::mastdock_check_file(file, statement, depth, count)
}

pub fn writing_start(
    edition: u64,
    statement: &[u8; 32],
    root: &[u8; 32],
    depth: u64,
    memory: u64,
    count: u64,
    store: &[u8],
    file: &mut [u8],
) -> WritingStarted
    ensures value { result ≡ writing_start edition statement.now root.now depth memory count store.now file.old }
    ensures file_after { file.new
        ≡ (writings.started edition statement.now root.now depth memory count store.now
        file.old).file }
{
    capi::mastdock_writing_start(edition, statement, root, depth, memory, count, store, file)
}

pub fn writing_advance(
    writing: Writing,
    budget: u64,
    store: &[u8],
    file: &mut [u8],
) -> WritingAdvanced
    ensures value { result ≡ writing_advance writing budget store.now file.old }
    ensures file_after { file.new ≡ (writings.advanced store.now (written_of writing file.old) budget).file }
{
    capi::mastdock_writing_advance(writing, budget, store, file)
}

pub fn plan(depth: u64, leaves: &[u64], list: &mut [u64]) -> Planned
    ensures value { result ≡ plan depth leaves.now list.old }
    ensures list_after { list.new ≡ planned_list depth leaves.now list.old }
{
    capi::mastdock_plan(depth, leaves, list)
}

pub fn compare(
    edition: u64,
    statement: &[u8; 32],
    depth: u64,
    leaves: &[u64],
    openings: &[u8],
) -> Compared
    ensures { result ≡ compare edition statement.now depth leaves.now openings.now }
{
    capi::mastdock_compare(edition, statement, depth, leaves, openings)
}

pub fn draw(file: &[u8], statement: &[u8; 32], depth: u64, count: u64, list: &mut [u64]) -> Drawn
    ensures value { result ≡ draw file.now statement.now depth count list.old }
    ensures list_after { list.new ≡ drawn_list file.now statement.now depth count list.old }
{
    capi::mastdock_draw(file, statement, depth, count, list)
}
