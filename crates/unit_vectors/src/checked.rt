// Openings of both editions checked upward to the root: as they were made, of a wrong length, by another edition, and with a byte of each
// label changed.
ghost use Rattle.std.specs.Prelude.{◌≤◌, length};

use base::{label_at, outcome_number};
use labelling::Tree;
use opening::Opening;
use opening_check::check_opening;
use std::io;
use std::io::Stdout;
use vector_helpers::{Stamping, hash};

// What an opening is checked against.
#[derive(Clone, Copy)]
struct Wanted {
    tree: Tree,
    leaf: u64,
    root: [u8; 32],
}

// The opening of a leaf, over output bytes that held something else.
fn opened(of: Stamping, leaf: u64, store: &[u8]) -> [u8; 1313] {
    let mut out = [90u8; 1313];
    if let Ok(mut opening) = Opening::start(of.tree(), of.memory, leaf, store, &mut out) {
        let _ = opening.advance(1000, store, &mut out);
    }
    out
}

impl Wanted {
    // The number of the answer to so many of the bytes.
    fn answer(self, to: Stdout, out: &[u8], size: usize) -> io::Result<()> {
        let Some(bytes) = out.get(..size) else {
            return Ok(());
        };
        let answer = check_opening(&self.tree, self.leaf, self.root, bytes);
        print!(to; " {}", outcome_number(answer))
    }

    // The same with the tree of an edition.
    fn answer_of(self, to: Stdout, edition: u64, out: &[u8], size: usize) -> io::Result<()> {
        let tree = Tree {
            edition,
            ..self.tree
        };
        Wanted { tree, ..self }.answer(to, out, size)
    }

    // As it is, a byte short and a byte more; then for another leaf, with another root, by the other edition, and by one that does not exist.
    fn answers(self, to: Stdout, other: u64, out: &[u8], size: usize) -> io::Result<()>
        requires some { 1 ≤ size }
        requires room { size ≤ 1312 }
    {
        self.answer(to, out, size)?;
        self.answer(to, out, size - 1)?;
        self.answer(to, out, size + 1)?;
        let leaf = self.leaf ^ 1;
        Wanted { leaf, ..self }.answer(to, out, size)?;
        let root = self.tree.statement;
        Wanted { root, ..self }.answer(to, out, size)?;
        self.answer_of(to, other, out, size)?;
        self.answer_of(to, 3, out, size)
    }

    // With a byte of the leaf's label changed, then of each sibling's from level n to level 1.
    fn each_changed(self, to: Stdout, out: [u8; 1313], size: usize) -> io::Result<()>
        requires { self.tree.depth ≤ 6 }
    {
        for label in 0..=self.tree.depth as usize {
            let mut changed = out;
            changed[33 * label + 5] ^= 4;
            self.answer(to, &changed, size)?;
        }
        Ok(())
    }
}

// One leaf's opening.
fn leaf_checked(to: Stdout, of: Stamping, other: u64, leaf: u64, store: &[u8]) -> io::Result<()>
    requires small { of.depth ≤ 6 }
    requires root_in { 32 ≤ length store.now }
{
    let size = 32 * (of.depth as usize + 1);
    let out = opened(of, leaf, store);
    let root = label_at(store, 0);
    let tree = of.tree();
    let wanted = Wanted { tree, leaf, root };
    print!(to; "leaf {leaf}")?;
    wanted.answers(to, other, &out, size)?;
    print!(to; " changed")?;
    wanted.each_changed(to, out, size)?;
    println!(to; "")
}

// One depth and memory level.
fn level_checked(to: Stdout, of: Stamping, other: u64, leaves: u64) -> io::Result<()>
    requires { of.depth ≤ 6 }
{
    println!(to;
        "edition {} depth {} memory {}",
        of.edition, of.depth, of.memory
    )?;
    let store = of.finished();
    for leaf in 0..leaves {
        leaf_checked(to, of, other, leaf, &store)?;
    }
    Ok(())
}

// Every leaf of small trees at each memory level.
pub fn checked(to: Stdout, edition: u64, other: u64) -> io::Result<()> {
    let statement = hash(b"openings");
    for (depth, leaves) in [(1, 2), (2, 4), (3, 8), (4, 16), (5, 32), (6, 64)] {
        for memory in 0..=depth {
            let of = Stamping {
                edition,
                statement,
                depth,
                memory,
            };
            level_checked(to, of, other, leaves)?;
        }
    }
    Ok(())
}
