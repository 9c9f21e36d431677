// The making of an archive's sampled tree by the archive's second line, in lent arrays.
#![tactic(auto)]

ghost use Rattle.archivehead.specs.Head.{making_of_line};
ghost use Rattle.archivemaking.specs.Makes.{MadeBy, room};

use refusals::Refusal;
use samplerplustree::{Sample, SamplerPlusTree};
use treestore::NodeStore;

// An empty sampled tree of a line's numbers, its arrays cleared; or a refusal, and nothing written.
// Rules out the two shares swapped, and a line out of form taken for one that the tree refuses.
pub fn make(
    line: &[u8],
    store: &mut NodeStore,
    sample: &mut Sample,
) -> Result<SamplerPlusTree, Refusal>
    ensures { MadeBy (making_of_line line.now)
        (room store.old sample.old.weights sample.old.held)
        (room store.new sample.new.weights sample.new.held) result }
{
    match archivehead::read_making(line) {
        None => Err(Refusal::OutOfForm),
        Some(making) => SamplerPlusTree::new(
            casts::wide64(making.channels),
            casts::wide64(making.capacity),
            form::share_of(making.cached),
            form::share_of(making.initial),
            store,
            sample,
        ),
    }
}
