// The arrival of a byte run (docs/LAYOUT.md): read from its place in the run and carried out on the lent state, with its answer as numbers.
#![tactic(auto)]

ghost use Rattle.std.specs.Prelude.{◌≡◌, true, ◌+◌};
ghost use Rattle.std.specs.Float.{binary32};
ghost use Rattle.std.specs.Float.Ieee.{of_bits};
ghost use Rattle.samplerplustree.specs.State.{SomeSampled};
ghost use Rattle.arrivals.specs.Arrived.{Arrives, ReadsWords, WalksPath};
ghost use Rattle.runlayout.specs.Layout.{number, double, stands_at, arrival_words_at};

use answers::Reply;
use limits::{CAPACITY, Path, Words};
use pointstore::PointStore;
use samplerplustree::{Sample, SamplerPlusTree};
use treestore::NodeStore;

// The arrival at a place of the run: its answer's numbers in the reply, with 0 after them, and the header after it. What it evicts is gone before its
// words are read: those that are looked at go to the front of the lent ones, whose others stay. Of a long run most of the time would go to the rest. The
// path is working memory, whatever it holds before. After an arrival that is taken the walk of its reading stands in the first rows, over the walk to the
// index that it evicts, if any; each other row is as before.
// Rules out the word for the starting chance read from another place, and the last word of a walk unread.
pub fn arrival_at(
    tree: SamplerPlusTree,
    store: &mut NodeStore,
    table: &PointStore,
    sample: &mut Sample,
    run: &[u8],
    p: usize,
    words: &mut Words,
    path: &mut Path,
    reply: &mut Reply,
) -> SamplerPlusTree
    requires there { (number run.now p ≡ 6) × (stands_at run.now p ≡ true) }
    requires state { SomeSampled tree store.old table.now.points table.now.written sample.old.weights sample.old.held }
    ensures done { Arrives (number run.now (p + 1)) (of_bits binary32 (number run.now (p + 2))) (double run.now (p + 3)) (arrival_words_at run.now p)
        tree store.old table.now.points table.now.written sample.old.weights sample.old.held
        result store.new sample.new.weights sample.new.held reply.new }
    ensures words { ReadsWords (number run.now (p + 1)) (of_bits binary32 (number run.now (p + 2))) (double run.now (p + 3)) (arrival_words_at run.now p)
        tree store.old table.now.points table.now.written sample.old.weights sample.old.held
        words.old words.new }
    ensures path { WalksPath (number run.now (p + 1)) (of_bits binary32 (number run.now (p + 2))) (double run.now (p + 3)) (arrival_words_at run.now p)
        tree store.old table.now.points table.now.written sample.old.weights sample.old.held
        path.old path.new }
{
    let index = runlayout::number_at(run, p + 1);
    let weight = little::float_of(runlayout::bits_at(run, p + 2));
    let chance = runlayout::double_at(run, p + 3);
    let n = casts::at_most(runlayout::number_at(run, p + 5), CAPACITY);
    let offer = tree.test_arrival(
        &table.written,
        &sample.weights,
        index,
        weight,
        chance,
        &words[..n],
    );
    let points = &table.points;
    let remaining = tree.leave(offer, store, points, sample, path);
    let found = remaining.find(offer, store, points, index, path);
    let used = casts::at_most(n, found.walk);
    rungiven::read_words(run, p + 6, &mut words[..used]);
    arrivals::enter(
        remaining,
        offer,
        store,
        points,
        sample,
        index,
        weight,
        path,
        found,
        &words[..n],
        reply,
    )
}
