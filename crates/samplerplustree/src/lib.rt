// A sampled tree (samplerplustree.rs): a random cut tree and the sample that keeps its leaves. The header goes in and comes back by value; the arrays are lent.
#![tactic(auto)]

ghost use Rattle.std.specs.Prelude.{◌≡◌, ◌<◌, length};
ghost use Rattle.limits.specs.Limits.{capacity_limit, point_limit};
ghost use Rattle.samplerplustree.specs.State.{SomeSampled};
ghost use Rattle.samplerplustree.specs.Making.{refusal_by, SampledMade};
ghost use Rattle.samplerplustree.specs.Updates.{UpdateDone};
ghost use Rattle.samplerplustree.specs.Offers.{arrival_checked, starts_read, OfferTold, SomeOffered, TakeDone};
ghost use Rattle.samplerplustree.specs.Leaves.{SomeAdmits, AddsLeaf, SomeCopy, DeletesLeaf};
ghost use Rattle.samplerplustree.specs.Paths.{WalksTo};
ghost use Rattle.samplerplustree.specs.Entering.{takes, evicts, answer_by, SomeLeaving, LeaveDone, LeavesPath, SeeksBy, SeesBy, SomeEntering, EnterDone, AdmitDone};

use casts::{wide16, within};
use limits::{CAPACITY, CHANNELS, Marks, POINTS, Path, Points, Weights};
use pointstore::PointStore;
use randomcuttree::RCFTree;
use refusals::Refusal;
pub use sampler::Sample;
use sampler::Sampler;
use treestore::{Found, NodeStore};

// The header: the tree's, the sample's, and the initial share.
#[derive(Clone, Copy)]
pub struct SamplerPlusTree {
    pub tree: RCFTree,
    pub sampler: Sampler,
    pub initial_accept_fraction: f64,
}

// An arrival that is accepted: the header after it, the leaf's point index, and the evicted index if any. Any other leaves the header as it was.
#[derive(Clone, Copy)]
pub struct Accepted {
    pub tree: SamplerPlusTree,
    pub leaf: usize,
    pub evicted: Option<usize>,
}

// What an arrival that is not refused is told before anything moves: not accepted; started; or accepted with an eviction.
#[derive(Clone, Copy, Debug, PartialEq, Eq)]
pub enum Offer {
    Passes,
    Begins,
    Evicts,
}

// The header after an add, and the leaf's point index.
#[derive(Clone, Copy)]
struct AddedLeaf {
    tree: RCFTree,
    leaf: usize,
}

// The same of the sampled tree.
#[derive(Clone, Copy)]
struct Admitted {
    tree: SamplerPlusTree,
    leaf: usize,
}

// What remains once what an offer evicts is gone: the header, and the index that is gone, 0 where there is none.
#[derive(Clone, Copy)]
pub struct Remaining {
    pub tree: SamplerPlusTree,
    pub gone: usize,
}

// The first refusal of a making whose initial share is refused.
fn refusal_of(dimensions: usize, capacity: usize, cache_fraction: f64) -> Refusal
    ensures { result ≡ refusal_by dimensions capacity cache_fraction }
{
    if !within(dimensions, 1, CHANNELS) {
        return Refusal::Channels;
    }
    if !within(capacity, 2, CAPACITY) {
        return Refusal::Capacity;
    }
    if !readings::is_share(cache_fraction) {
        return Refusal::CachedShare;
    }
    Refusal::InitialShare
}

// Whether an offer takes the arrival.
fn is_taken(offer: Result<Offer, Refusal>) -> bool
    ensures { result ≡ takes offer }
{
    matches!(offer, Ok(Offer::Begins | Offer::Evicts))
}

// Whether it evicts.
fn is_evicting(offer: Result<Offer, Refusal>) -> bool
    ensures { result ≡ evicts offer }
{
    matches!(offer, Ok(Offer::Evicts))
}

// What an offer has answered: of an arrival that is taken with the header after it, the leaf's index and the index that is gone.
fn answer_of(
    offer: Result<Offer, Refusal>,
    tree: SamplerPlusTree,
    leaf: usize,
    gone: usize,
) -> Result<Option<Accepted>, Refusal>
    ensures { result ≡ answer_by offer tree leaf gone }
{
    let evicted = match offer? {
        Offer::Passes => return Ok(None),
        Offer::Begins => None,
        Offer::Evicts => Some(gone),
    };
    Ok(Some(Accepted {
        tree,
        leaf,
        evicted,
    }))
}

// The add where it is never refused.
fn add_leaf(
    tree: RCFTree,
    store: &mut NodeStore,
    points: &Points,
    index: usize,
    path: &Path,
    found: Found,
    words: &[u64],
) -> AddedLeaf
    requires { SomeAdmits tree store.old points.now index path.now found (length words.now) }
    ensures small { result.leaf < point_limit }
    ensures adds { AddsLeaf tree store.old points.now index words.now result store.new }
{
    match tree.add_found(store, points, index, path, found, words) {
        Ok(added) => AddedLeaf {
            tree: added.tree,
            leaf: added.leaf,
        },
        Err(_) => AddedLeaf { tree, leaf: index },
    }
}

// The header after a delete that is never refused.
fn delete_leaf(
    tree: RCFTree,
    store: &mut NodeStore,
    points: &Points,
    index: usize,
    path: &mut Path,
) -> RCFTree
    requires { SomeCopy tree store.old points.now index }
    ensures done { DeletesLeaf tree store.old points.now index result store.new }
    ensures path { WalksTo tree store.old points.now index path.old path.new }
{
    let found = tree.find(store, points, index, path);
    match tree.delete_found(store, points, index, path, found) {
        Ok(deleted) => deleted.tree,
        Err(_) => tree,
    }
}

impl SamplerPlusTree {
    // An empty sampled tree, its arrays cleared; or a refusal, in document 01's order, and nothing written.
    // Rules out the initial share told before the capacity, and arrays cleared for an initial share that is refused.
    pub fn new(
        dimensions: usize,
        capacity: usize,
        cache_fraction: f64,
        initial_accept_fraction: f64,
        store: &mut NodeStore,
        sample: &mut Sample,
    ) -> Result<Self, Refusal>
        ensures { SampledMade dimensions capacity cache_fraction initial_accept_fraction
            store.old
            store.new
            sample.old.weights sample.new.weights sample.old.held sample.new.held result }
    {
        if !readings::is_share(initial_accept_fraction) {
            return Err(refusal_of(dimensions, capacity, cache_fraction));
        }
        let tree = RCFTree::new(dimensions, capacity, cache_fraction, store)?;
        let sampler = Sampler::new(tree.capacity, sample);
        Ok(Self {
            tree,
            sampler,
            initial_accept_fraction,
        })
    }

    // The first refusal of an arrival of so many words, if there is one.
    fn check(self, written: &Marks, index: usize, weight: f32, words: usize) -> Result<(), Refusal>
        ensures { result ≡ arrival_checked self written.now index weight words }
    {
        if POINTS <= index {
            return Err(Refusal::IndexAbove);
        }
        if written[index] == 0 {
            return Err(Refusal::NeverWritten);
        }
        if !readings::is_weight(weight) {
            return Err(Refusal::BadWeight);
        }
        if words < wide16(self.tree.capacity) {
            return Err(Refusal::FewWords);
        }
        Ok(())
    }

    // Whether the word starts an arrival.
    fn starts(self, chance: u64) -> bool
        ensures { result ≡ starts_read self chance }
    {
        let sampler = self.sampler;
        if sampler.is_full() {
            return false;
        }
        startingchance::starts(
            chance,
            sampler.current_size,
            sampler.capacity,
            self.initial_accept_fraction,
        )
    }

    // What an arrival is told. Nothing is written, so several trees can be asked before any moves.
    // Rules out fewer words told before a bad weight, and an equal weight that evicts.
    pub fn test_arrival(
        self,
        written: &Marks,
        weights: &Weights,
        index: usize,
        weight: f32,
        chance: u64,
        words: &[u64],
    ) -> Result<Offer, Refusal>
        ensures { OfferTold self written.now weights.now index weight chance (length words.now) result }
    {
        self.check(written, index, weight, words.len())?;
        if self.starts(chance) {
            return Ok(Offer::Begins);
        }
        let sampler = self.sampler;
        if sampler.accepts(false, weight, weights) {
            return Ok(Offer::Evicts);
        }
        Ok(Offer::Passes)
    }

    // The first step of an arrival: where its offer evicts, the first entry leaves the sample, and its index the tree. No word of the arrival is needed
    // for it. The path is working memory, whatever it holds before. After an eviction the walk to the index that is gone stands in its first rows; each
    // other row is as before.
    // Rules out an entry that leaves the sample and whose index stays in the tree, and an eviction for an offer that evicts nothing.
    pub fn leave(
        self,
        offer: Result<Offer, Refusal>,
        store: &mut NodeStore,
        points: &Points,
        sample: &mut Sample,
        path: &mut Path,
    ) -> Remaining
        requires { SomeLeaving self offer store.old points.now sample.old.weights sample.old.held }
        ensures done { LeaveDone self offer store.old points.now sample.old.weights sample.old.held result
            store.new sample.new.weights sample.new.held }
        ensures path { LeavesPath self offer store.old points.now sample.old.weights sample.old.held path.old path.new }
    {
        if !is_evicting(offer) {
            return Remaining {
                tree: self,
                gone: 0,
            };
        }
        let evicted = self.sampler.evict_max(sample);
        let gone = wide16(evicted.index);
        let left = delete_leaf(self.tree, store, points, gone, path);
        let sampler = evicted.sampler;
        let tree = SamplerPlusTree {
            tree: left,
            sampler,
            ..self
        };
        Remaining { tree, gone }
    }

    // The arrival is added to the tree, and the sample keeps the leaf's index.
    fn admit(
        self,
        store: &mut NodeStore,
        points: &Points,
        sample: &mut Sample,
        index: usize,
        weight: f32,
        path: &Path,
        found: Found,
        words: &[u64],
    ) -> Admitted
        requires { SomeAdmits self.tree store.old points.now index path.now found (length words.now) × (self.sampler.current_size < capacity_limit) }
        ensures { AdmitDone self store.old points.now sample.old.weights sample.old.held index weight words.now result
            store.new sample.new.weights sample.new.held }
    {
        let added = add_leaf(self.tree, store, points, index, path, found, words);
        let sampler = self.sampler.add_point(weight, added.leaf as u16, sample);
        let tree = added.tree;
        let next = SamplerPlusTree {
            tree,
            sampler,
            ..self
        };
        let leaf = added.leaf;
        Admitted { tree: next, leaf }
    }

    // Acts on what the test told of the same state and arrival. It cannot fail.
    // Rules out the arrival's own index kept in place of the leaf's, and an eviction that deletes the arrival's index.
    pub fn take_arrival(
        self,
        offer: Result<Offer, Refusal>,
        store: &mut NodeStore,
        points: &Points,
        sample: &mut Sample,
        index: usize,
        weight: f32,
        words: &[u64],
    ) -> Result<Option<Accepted>, Refusal>
        requires { SomeOffered self offer store.old points.now sample.old.weights sample.old.held index weight (length words.now) }
        ensures { TakeDone self offer store.old points.now sample.old.weights sample.old.held index weight words.now result
            store.new sample.new.weights sample.new.held }
    {
        let mut path = [[0u16; 2]; CAPACITY];
        let remaining = self.leave(offer, store, points, sample, &mut path);
        let found = remaining.find(offer, store, points, index, &mut path);
        remaining.enter(
            offer, store, points, sample, index, weight, &path, found, words,
        )
    }

    // An arrival: the test, and what it told carried out.
    // Rules out a sample that keeps an index with no leaf, and a tree that moves for an arrival not accepted.
    pub fn update(
        self,
        store: &mut NodeStore,
        table: &PointStore,
        sample: &mut Sample,
        index: usize,
        weight: f32,
        chance: u64,
        words: &[u64],
    ) -> Result<Option<Accepted>, Refusal>
        requires { SomeSampled self store.old table.now.points table.now.written sample.old.weights sample.old.held }
        ensures { UpdateDone self store.old table.now.points table.now.written sample.old.weights sample.old.held index weight chance words.now result
            store.new sample.new.weights sample.new.held }
    {
        let offer = self.test_arrival(
            &table.written,
            &sample.weights,
            index,
            weight,
            chance,
            words,
        );
        self.take_arrival(offer, store, &table.points, sample, index, weight, words)
    }
}

impl Remaining {
    // Looks for the reading of an arrival, where it is taken: the walk tells how many of the arrival's words are looked at.
    // Rules out a walk through the tree before the eviction, and one for an arrival that is refused.
    pub fn find(
        self,
        offer: Result<Offer, Refusal>,
        store: &NodeStore,
        points: &Points,
        index: usize,
        path: &mut Path,
    ) -> Found
        requires { SeeksBy self offer store.now.nodes store.now.cuts points.now index }
        ensures { SeesBy self offer store.now.nodes store.now.cuts points.now index path.old result path.new }
    {
        if is_taken(offer) {
            let bare = self.tree.tree;
            return bare.find(store, points, index, path);
        }
        randomcuttree::no_walk()
    }

    // The second step of an arrival: it enters, with what was found of its reading.
    // Rules out the arrival's own index kept in place of the leaf's, and an evicted index told for a started arrival.
    pub fn enter(
        self,
        offer: Result<Offer, Refusal>,
        store: &mut NodeStore,
        points: &Points,
        sample: &mut Sample,
        index: usize,
        weight: f32,
        path: &Path,
        found: Found,
        words: &[u64],
    ) -> Result<Option<Accepted>, Refusal>
        requires { SomeEntering self offer store.old points.now sample.old.weights sample.old.held index weight path.now found (length words.now) }
        ensures { EnterDone self offer store.old points.now sample.old.weights sample.old.held index weight words.now result
            store.new sample.new.weights sample.new.held }
    {
        if is_taken(offer) {
            let admitted = self
                .tree
                .admit(store, points, sample, index, weight, path, found, words);
            let next = admitted.tree;
            return answer_of(offer, next, admitted.leaf, self.gone);
        }
        answer_of(offer, self.tree, 0, 0)
    }
}
