// What a run stamps and an opening opens, by its numbers; its store and its proof file made whole. For the programs of the gate.
ghost use Rattle.std.specs.Prelude.{◌≡◌, take};
ghost use Rattle.base.specs.Bytes.{zeros};
ghost use Rattle.run.specs.Steps.{stamped, new_run, advanced};
ghost use Rattle.vector_helpers.specs.Whole.{whole_run, whole_file};

use base::label_at;
use labelling::Tree;
use run::{Run, new_run};
use writing::Writing;

// An edition, a statement, a depth and a memory level.
#[derive(Clone, Copy, Debug, PartialEq, Eq)]
pub struct Stamping {
    pub edition: u64,
    pub statement: [u8; 32],
    pub depth: u64,
    pub memory: u64,
}

// Room for memory level 12.
fn store_space() -> [u8; 262112]
    ensures { result ≡ zeros 262112 }
{
    [0u8; 262112]
}

impl Stamping {
    // The run with no label made.
    pub fn run(self) -> Run
        ensures { result ≡ new_run self.edition self.statement self.depth self.memory }
    {
        new_run(self.edition, self.statement, self.depth, self.memory)
    }

    // The tree that it stamps.
    pub fn tree(self) -> Tree
        ensures { result ≡ record { statement = self.statement; edition = self.edition; depth = self.depth } }
    {
        let Stamping {
            edition,
            statement,
            depth,
            ..
        } = self;
        Tree {
            statement,
            edition,
            depth,
        }
    }

    // The store after 1,000 labels, with room for memory level 6.
    pub fn finished(self) -> [u8; 4064]
        ensures { result ≡ (advanced (stamped (new_run self.edition self.statement self.depth self.memory) (zeros 4064)) 1000).store }
    {
        let mut store = [0u8; 4064];
        let _ = self.run().advance(1000, &mut store);
        store
    }

    // The store of a finished run.
    fn run_whole(self, store: &mut [u8])
        ensures { store.new ≡ whole_run self.edition self.statement self.depth self.memory store.old }
    {
        let _ = self.run().advance(u64::MAX, store);
    }

    // Writes the file whole.
    fn write_whole(self, root: [u8; 32], count: u64, store: &[u8], file: &mut [u8])
        ensures { file.new ≡ whole_file self.edition self.statement root self.depth self.memory count store.now file.old }
    {
        let Ok(mut writing) = Writing::start(self.tree(), root, self.memory, count, store, file)
        else {
            return;
        };
        let _ = writing.advance(u64::MAX, store, file);
    }

    // Runs and writes the file at a memory level of at most 12. The root.
    pub fn write_file(self, count: u64, file: &mut [u8]) -> [u8; 32]
        ensures value { result ≡ take 32 (whole_run self.edition self.statement self.depth self.memory (zeros 262112)) }
        ensures file_after { file.new
            ≡ whole_file self.edition self.statement result self.depth self.memory count
            (whole_run self.edition self.statement self.depth self.memory (zeros 262112)) file.old }
    {
        let mut store = store_space();
        self.run_whole(&mut store);
        let root = label_at(&store, 0);
        self.write_whole(root, count, &store, file);
        root
    }
}
