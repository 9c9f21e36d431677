// What is printed where an archive ends, written to a lent buffer: the sample, a line for each arrival that is kept, and the printed tree.
#![tactic(auto)]

ghost use Rattle.std.specs.Prelude.{◌+◌, ◌≤◌, ◌<◌};
ghost use Rattle.limits.specs.Limits.{capacity_limit};
ghost use Rattle.sampler.specs.Sample.{entries_in};
ghost use Rattle.lines.specs.Lines.{Wrote};
ghost use Rattle.archiveend.specs.End.{entry_line, entry_lines, end_limit};
ghost use Rattle.archiveend.specs.Prints.{PrintsEnd, SomeEnd};

use limits::CAPACITY;
use listing::TREE;
use samplerplustree::{Sample, SamplerPlusTree};
use treestore::NodeStore;

// A buffer of so many bytes has room for what any sampled tree prints: `end_limit`.
pub const END: usize = 13 + CAPACITY * 14 + TREE;

// The line of an arrival that is kept.
fn put_entry(out: &mut [u8], at: usize, bits: usize, index: usize) -> usize
    requires { at < 100000000000 }
    ensures wrote { Wrote out.old at (entry_line bits index) result out.new }
    ensures few { result ≤ at + 30 }
{
    let p = lines::put_hex(out, at, 8, bits);
    let q = lines::put_bytes(out, p, b" ");
    lines::put_last(out, q, index)
}

// The lines of the first n slots.
fn put_entries(sample: &Sample, n: usize, out: &mut [u8], at: usize) -> usize
    requires { (n ≤ capacity_limit) × (at < 10000000000) }
    ensures wrote { Wrote out.old at (entry_lines (entries_in n sample.now.weights sample.now.held)) result out.new }
    ensures few { result ≤ at + 7680 }
{
    let mut p = at;
    for i in 0..n {
        let bits = casts::wide32(little::pattern_of(sample.weights[i]));
        p = put_entry(out, p, bits, casts::wide16(sample.held[i]));
    }
    p
}

// What a sampled tree prints where its archive ends, as far as the buffer goes; the next place, which is at most `END` bytes on.
// Rules out a line for each slot in place of one for each arrival kept, and the tree before the sample.
pub fn print_end(
    tree: SamplerPlusTree,
    store: &NodeStore,
    sample: &Sample,
    out: &mut [u8],
    at: usize,
) -> usize
    requires near { at < 1000000000 }
    requires stands { SomeEnd tree store.now.nodes store.now.cuts store.now.copies sample.now.weights sample.now.held }
    ensures wrote { PrintsEnd tree store.now.nodes store.now.cuts store.now.copies sample.now.weights sample.now.held at out.old result out.new }
    ensures fits { result ≤ at + end_limit }
{
    let below = lines::put_bytes(out, at, b"weight index\n");
    let sampler = tree.sampler;
    let kept = casts::wide16(sampler.current_size);
    let next = put_entries(sample, kept, out, below);
    listing::print_tree(tree.tree, store, out, next)
}
