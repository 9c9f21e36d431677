// A random cut tree on readings fed in (randomcuttree.rs): making, putting, adding, deleting and the queries. Its arrays are lent; the header goes in and comes back by value.
#![tactic(auto)]

ghost use Rattle.std.specs.Prelude.{◌≡◌, [], ◌<◌, get_or, replicate};
ghost use Rattle.limits.specs.Limits.{branch_limit, point_limit, total_limit};
ghost use Rattle.readings.specs.Number.{nought};
ghost use Rattle.layout.specs.Layout.{no_row, no_box_ends};
ghost use Rattle.pointstore.specs.Puts.{Puts};
ghost use Rattle.randomcuttree.specs.State.{store_header, headed, SomeState};
ghost use Rattle.randomcuttree.specs.Answers.{AddDone, SeenAdded, DeleteDone, SeenDeleted};
ghost use Rattle.randomcuttree.specs.Finds.{nowhere, Seeks, Sees, SomeSeen};
ghost use Rattle.randomcuttree.specs.Making.{MakeDone};
ghost use Rattle.randomcuttree.specs.Queries.{copies_read, branch_read, BoxTold, SomeBoxRead};

use boundingbox::BoundingBox;
use casts::{wide16, within};
use cut::Cut;
use intervalstoremanager::IntervalStoreManager;
use limits::{BRANCHES, Boxes, CAPACITY, CHANNELS, Copies, Cuts, Nodes, POINTS, Path, Points};
use pointstore::PointStore;
use refusals::Refusal;
use rowboxes::{Boxing, Ends, Sizes};
use treestore::{Found, Header, NodeStore};

// The header of a tree. The arrays beside it hold the branches' rows and cuts, the leaves' copies, the free branch numbers and the cached boxes.
// `cached` is how many branches `cache_fraction` has cached.
#[derive(Clone, Copy)]
pub struct RCFTree {
    pub dimensions: usize,
    pub capacity: u16,
    pub cache_fraction: f64,
    pub cached: usize,
    pub root: u16,
    pub total: usize,
    pub manager: IntervalStoreManager,
}

// An add that is done: the header after it, the leaf's point index and the words taken. One that is refused leaves the header as it was.
#[derive(Clone, Copy)]
pub struct Added {
    pub tree: RCFTree,
    pub leaf: usize,
    pub words: usize,
}

// A delete that is done: the header after it and the leaf's point index. One that is refused leaves the header as it was.
#[derive(Clone, Copy)]
pub struct Deleted {
    pub tree: RCFTree,
    pub leaf: usize,
}

// What is told of a branch: its cut, the ids of its sides and its mass.
#[derive(Clone, Copy)]
pub struct BranchRow {
    pub cut: Cut,
    pub left: usize,
    pub right: usize,
    pub mass: usize,
}

// Clears what a tree keeps of its branches and leaves.
fn clear(nodes: &mut Nodes, cuts: &mut Cuts, copies: &mut Copies, boxes: &mut Boxes)
    ensures rows { nodes.new ≡ replicate branch_limit no_row }
    ensures values { cuts.new ≡ replicate branch_limit nought }
    ensures counts { copies.new ≡ replicate point_limit 0 }
    ensures ends { boxes.new ≡ replicate branch_limit no_box_ends }
{
    *nodes = [[0; 4]; BRANCHES];
    *cuts = [0.0; BRANCHES];
    *copies = [0; POINTS];
    *boxes = [[[0.0; CHANNELS]; 2]; BRANCHES];
}

// A field of a branch's row. A branch has a mass of at least 1, and a row of no branch is zero.
fn field_at(nodes: &Nodes, node: usize, i: usize) -> usize
    requires node_lt_branch_limit { node < branch_limit }
    requires i_bound { i < 4 }
    ensures { result ≡ get_or (get_or nodes.now node []) i 0 }
{
    wide16(nodes[node][i])
}

// What is found where no walk is made.
// Rules out a node counted, and a value told as held.
pub fn no_walk() -> Found
    ensures { result ≡ nowhere }
{
    Found {
        walk: 0,
        leaf: 0,
        held: false,
    }
}

// The header with another root, total and manager.
fn headed_by(tree: RCFTree, root: u16, total: usize, manager: IntervalStoreManager) -> RCFTree
    ensures { result ≡ headed tree root total manager }
{
    RCFTree {
        root,
        total,
        manager,
        ..tree
    }
}

impl RCFTree {
    // Document 01's limits: channels, leaves, point indices and copies.
    pub const CHANNELS: usize = limits::CHANNELS;

    pub const CAPACITY: usize = limits::CAPACITY;

    pub const POINTS: usize = limits::POINTS;

    pub const TOTAL: usize = limits::TOTAL;

    // An empty tree, its arrays cleared; or a refusal, in document 01's order, and nothing written.
    // Rules out capacity 1 taken, and a refused making that has cleared an array.
    pub fn new(
        dimensions: usize,
        capacity: usize,
        cache_fraction: f64,
        store: &mut NodeStore,
    ) -> Result<Self, Refusal>
        ensures { MakeDone dimensions capacity cache_fraction store.old store.new result }
    {
        if !within(dimensions, 1, Self::CHANNELS) {
            return Err(Refusal::Channels);
        }
        if !within(capacity, 2, Self::CAPACITY) {
            return Err(Refusal::Capacity);
        }
        if !readings::is_share(cache_fraction) {
            return Err(Refusal::CachedShare);
        }
        clear(
            &mut store.nodes,
            &mut store.cuts,
            &mut store.copies,
            &mut store.boxes,
        );
        let c = capacity as u16;
        let part = readings::cached_part(cache_fraction, c);
        let cached = casts::at_most(part, capacity - 1);
        let manager = IntervalStoreManager::new(c - 1, &mut store.free);
        Ok(Self {
            dimensions,
            capacity: c,
            cache_fraction,
            cached,
            root: c - 1,
            total: 0,
            manager,
        })
    }

    // The copies of a leaf by its id.
    // Rules out copies answered for a branch's id, and 0 copies in place of the refusal.
    pub fn copies_of(self, copies: &Copies, id: usize) -> Result<usize, Refusal>
        ensures { result ≡ copies_read self copies.now id }
    {
        let capacity = wide16(self.capacity);
        if id < capacity {
            return Err(Refusal::NoSuchNode);
        }
        let index = id - capacity;
        if Self::POINTS <= index {
            return Err(Refusal::NoSuchNode);
        }
        let n = copies[index];
        if n == 0 {
            return Err(Refusal::NoSuchNode);
        }
        Ok(wide16(n))
    }

    // The row of a branch by its number.
    // Rules out the sides swapped, and a row of zeros in place of the refusal.
    pub fn branch_of(self, nodes: &Nodes, cuts: &Cuts, id: usize) -> Result<BranchRow, Refusal>
        ensures { result ≡ branch_read nodes.now cuts.now id }
    {
        if BRANCHES <= id {
            return Err(Refusal::NoSuchNode);
        }
        let mass = field_at(nodes, id, 2);
        if mass == 0 {
            return Err(Refusal::NoSuchNode);
        }
        Ok(BranchRow {
            cut: walk::cut_at(nodes, cuts, id),
            left: field_at(nodes, id, 0),
            right: field_at(nodes, id, 1),
            mass,
        })
    }

    // The box of a branch by its number, worked out in local ends: a box handed up through the branches below would be copied at each.
    // Rules out the box of a leaf answered, and a cached row taken for a branch that is not cached.
    pub fn box_of<'a>(
        self,
        nodes: &Nodes,
        points: &'a Points,
        boxes: &'a Boxes,
        id: usize,
    ) -> Result<BoundingBox, Refusal>
        requires { SomeBoxRead self nodes.now points.now boxes.now }
        ensures { BoxTold self nodes.now points.now boxes.now id result }
    {
        if BRANCHES <= id {
            return Err(Refusal::NoSuchNode);
        }
        if field_at(nodes, id, 2) == 0 {
            return Err(Refusal::NoSuchNode);
        }
        let sizes = Sizes {
            capacity: wide16(self.capacity),
            cached: self.cached,
            channels: self.dimensions,
        };
        let boxing = Boxing {
            nodes,
            points,
            boxes,
            sizes,
        };
        let mut ends: Ends = [[0.0; CHANNELS]; 2];
        branchboxes::set_branch(&mut ends, id, &boxing);
        let [min_values, max_values] = ends;
        Ok(BoundingBox {
            min_values,
            max_values,
        })
    }

    // Writes the coordinates for a point index, as its row and its mark; or refuses, in document 01's order, and writes nothing.
    // Rules out coordinates counted by another tree's channels, and a put over a leaf's index.
    pub fn put(
        self,
        copies: &Copies,
        table: &mut PointStore,
        index: usize,
        coordinates: &[f32],
    ) -> Result<(), Refusal>
        ensures { Puts self.dimensions copies.now index coordinates.now table.old.points table.old.written table.new.points table.new.written result }
    {
        table.put(self.dimensions, copies, index, coordinates)
    }

    // What the tree's arrays are read and changed by.
    fn header(self) -> Header
        ensures { result ≡ store_header self }
    {
        Header {
            root: self.root,
            manager: self.manager,
            dimensions: self.dimensions,
            capacity: self.capacity,
            cached: self.cached,
        }
    }

    // Looks for the reading of an index: its walk is written to the path. In an empty tree there is none.
    // Rules out a walk through the rows of an empty tree, and a leaf of another value taken for the reading's own.
    pub fn find(self, store: &NodeStore, points: &Points, index: usize, path: &mut Path) -> Found
        requires { Seeks self store.now.nodes store.now.cuts points.now index }
        ensures { Sees self store.now.nodes store.now.cuts points.now index path.old result path.new }
    {
        if self.total == 0 {
            return no_walk();
        }
        treestore::find(self.header(), store, points, index, path)
    }

    // The add of a reading that was looked for, in a tree below its total: the walk tells how many words it takes before any of them is needed.
    // Rules out words taken for a value that is held, and a leaf put where the walk doesn't end.
    pub fn add_found(
        self,
        store: &mut NodeStore,
        points: &Points,
        index: usize,
        path: &Path,
        found: Found,
        words: &[u64],
    ) -> Result<Added, Refusal>
        requires seen { SomeSeen self store.old points.now index path.now found }
        requires room { self.total ≡ total_limit → ⊥ }
        ensures { SeenAdded self store.old points.now index words.now result store.new }
    {
        let total = self.total;
        if total == 0 {
            nodestore::add_root(&mut store.copies, index);
            let root = index as u16 + self.capacity;
            let tree = headed_by(self, root, 1, self.manager);
            return Ok(Added {
                tree,
                leaf: index,
                words: 0,
            });
        }
        let n = found.walk;
        let leaf = found.leaf;
        if found.held {
            nodestore::add_copy(&mut store.nodes, &mut store.copies, path, n, leaf);
            let tree = headed_by(self, self.root, total + 1, self.manager);
            return Ok(Added {
                tree,
                leaf,
                words: 0,
            });
        }
        if self.manager.is_empty() {
            return Err(Refusal::Full);
        }
        if words.len() < n {
            return Err(Refusal::FewWords);
        }
        let entered = treestore::insert_leaf(
            self.header(),
            store,
            points,
            path,
            n,
            leaf,
            index,
            words,
            &points[index],
        );
        let tree = headed_by(self, entered.root, total + 1, entered.manager);
        Ok(Added {
            tree,
            leaf: index,
            words: entered.words,
        })
    }

    // One copy more of the reading written for an index, with a word for each node of the walk where its value is new; or a refusal, in
    // document 01's order, and nothing written.
    // Rules out words taken for a value that is held, and a full tree told before the value is looked for.
    pub fn add(
        self,
        store: &mut NodeStore,
        table: &PointStore,
        index: usize,
        words: &[u64],
    ) -> Result<Added, Refusal>
        requires { SomeState self store.old table.now.points table.now.written }
        ensures { AddDone self store.old table.now.points table.now.written index words.now result store.new }
    {
        if Self::POINTS <= index {
            return Err(Refusal::IndexAbove);
        }
        if table.written[index] == 0 {
            return Err(Refusal::NeverWritten);
        }
        if self.total == Self::TOTAL {
            return Err(Refusal::Full);
        }
        let mut path = [[0u16; 2]; CAPACITY];
        let found = self.find(store, &table.points, index, &mut path);
        self.add_found(store, &table.points, index, &path, found, words)
    }

    // The delete of a reading that was looked for; or a refusal, in document 01's order, and nothing written.
    // Rules out a value told as not held where the tree is empty, and a delete that leaves the last copy's branch.
    pub fn delete_found(
        self,
        store: &mut NodeStore,
        points: &Points,
        index: usize,
        path: &Path,
        found: Found,
    ) -> Result<Deleted, Refusal>
        requires { SomeSeen self store.old points.now index path.now found }
        ensures { SeenDeleted self store.old points.now index result store.new }
    {
        let total = self.total;
        if total == 0 {
            return Err(Refusal::TreeEmpty);
        }
        let leaf = found.leaf;
        if !found.held {
            return Err(Refusal::NotHeld);
        }
        let edited = treestore::remove_copy(
            self.header(),
            store,
            points,
            path,
            found.walk,
            leaf,
            &points[index],
        );
        let tree = headed_by(self, edited.root, total - 1, edited.manager);
        Ok(Deleted { tree, leaf })
    }

    // One copy less of the reading written for an index; or a refusal, in document 01's order, and nothing written.
    // Rules out the index asked for answered in place of the leaf's, and an empty tree told before the index is looked at.
    pub fn delete(
        self,
        store: &mut NodeStore,
        table: &PointStore,
        index: usize,
    ) -> Result<Deleted, Refusal>
        requires { SomeState self store.old table.now.points table.now.written }
        ensures { DeleteDone self store.old table.now.points table.now.written index result store.new }
    {
        if Self::POINTS <= index {
            return Err(Refusal::IndexAbove);
        }
        if table.written[index] == 0 {
            return Err(Refusal::NeverWritten);
        }
        let mut path = [[0u16; 2]; CAPACITY];
        let found = self.find(store, &table.points, index, &mut path);
        self.delete_found(store, &table.points, index, &path, found)
    }
}
