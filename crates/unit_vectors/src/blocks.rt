// W-207: the blocks of messages, and of calls on runs and openings of edition 2, one after another; the order hashed changes no length. The
// stored output has the lines of the shared vectors but that of 2^61 − 1 bytes, whose end digests.rt has.
use labelling::Tree;
use opening::Opening;
use run::Run;
use sha256::digest;
use std::io;
use std::io::Stdout;
use vector_helpers::NO_WORK;

// The message of so many zero bytes, if there is room for it.
fn message(to: Stdout, space: &[u8], len: usize) -> io::Result<()> {
    let Some(zeros) = space.get(..len) else {
        return Ok(());
    };
    let blocks = digest(zeros).map_or(0, |hashed| hashed.blocks);
    println!(to; "m {len} {blocks}")
}

fn space() -> [u8; 65536] {
    [0u8; 65536]
}

fn messages(to: Stdout) -> io::Result<()> {
    let space = space();
    for len in 0..200 {
        message(to, &space, len)?;
    }
    for len in [247, 248, 1321, 65535, 65536] {
        message(to, &space, len)?;
    }
    Ok(())
}

// A run from its start, by a call with each budget.
fn run_calls(to: Stdout, depth: u64, budgets: &[u64]) -> io::Result<()> {
    let mut store = [0u8; 32];
    let Ok(mut run) = Run::start([9u8; 32], depth, 0, &store) else {
        return Ok(());
    };
    for budget in budgets {
        let made = run.made;
        let work = run.advance(*budget, &mut store).unwrap_or(NO_WORK);
        println!(to; "r {depth} {made} {budget} {} {}", work.labels, work.blocks)?;
    }
    Ok(())
}

// An opening from its start over a store of zeros, on which no label's blocks depend, by a call with each budget.
fn opening_calls(
    to: Stdout,
    depth: u64,
    memory: u64,
    leaf: u64,
    budgets: &[u64],
) -> io::Result<()> {
    let store = [0u8; 992];
    let mut out = [0u8; 288];
    let tree = Tree {
        statement: [9u8; 32],
        edition: 2,
        depth,
    };
    let Ok(mut opening) = Opening::start(tree, memory, leaf, &store, &mut out) else {
        return Ok(());
    };
    for budget in budgets {
        let made = opening.made;
        let work = opening
            .advance(*budget, &store, &mut out)
            .unwrap_or(NO_WORK);
        print!(to; "o {depth} {memory} {leaf} {made} {budget}")?;
        println!(to; " {} {}", work.labels, work.blocks)?;
    }
    Ok(())
}

fn runs(to: Stdout) -> io::Result<()> {
    run_calls(to, 1, &[50])?;
    run_calls(to, 2, &[3, 2, 1000000])?;
    run_calls(to, 3, &[3, 50])?;
    run_calls(to, 4, &[7, 3, 1, 1000000])?;
    run_calls(to, 5, &[50, 7, 1, 1000000])?;
    run_calls(to, 6, &[7, 3, 3, 7, 50, 3, 50, 50])?;
    run_calls(to, 7, &[1000000])?;
    run_calls(
        to,
        8,
        &[
            2, 7, 50, 3, 2, 2, 1, 1, 2, 50, 2, 2, 1, 1, 50, 1, 7, 7, 7, 3, 1, 50, 1000000,
        ],
    )?;
    run_calls(to, 9, &[1000000])?;
    run_calls(to, 10, &[3, 7, 2, 3, 1000000])
}

fn openings(to: Stdout) -> io::Result<()> {
    opening_calls(to, 3, 1, 5, &[1, 1, 40])?;
    opening_calls(to, 5, 0, 31, &[40, 1, 1, 40])?;
    opening_calls(to, 6, 3, 40, &[1, 1, 5, 5, 40])?;
    opening_calls(to, 8, 2, 255, &[40, 1, 1000000])?;
    opening_calls(to, 4, 4, 9, &[5])
}

pub fn blocks(to: Stdout) -> io::Result<()> {
    messages(to)?;
    runs(to)?;
    openings(to)
}
