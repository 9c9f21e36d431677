// A whole tree in its lent arrays: looking for a reading, and the edits that put a new value in or take a copy out, which change rows, cuts, copies, free numbers and
// boxes together. The header is the caller's: an edit answers what it changes of it.
#![tactic(auto)]

ghost use Rattle.std.specs.Prelude.{◌≡◌, List, [], ◌∷◌, ℕ, ◌≤◌, ◌<◌, get_or, replicate};
ghost use Rattle.limits.specs.Limits.{branch_limit, point_limit};
ghost use Rattle.readings.specs.Number.{nought};
ghost use Rattle.layout.specs.Layout.{no_row, no_box_ends};
ghost use Rattle.boxstore.specs.Grown.{SomeSides};
ghost use Rattle.rowboxes.specs.Rows.{PaddedTable, PaddedBoxes};
ghost use Rattle.branchboxes.specs.Pairs.{SidesKept};
ghost use Rattle.intervalstoremanager.specs.Rows as Rows;
ghost use Rattle.intervalstoremanager.specs.Stack.{after_release, holds, Proper, Once};
ghost use Rattle.treestore.specs.Arrays.{lent, manager_of};
ghost use Rattle.treestore.specs.Finds.{SomeSought, Finds};
ghost use Rattle.treestore.specs.Edits.{SomeHeld, Forgets};
ghost use Rattle.treestore.specs.Enters.{SomeEntering, Enters};

use intervalstoremanager::IntervalStoreManager;
use limits::{BRANCHES, Boxes, CHANNELS, Copies, Cuts, Free, Nodes, POINTS, Path, Points, Row};
use rowboxes::{Boxing, Sizes};

// The arrays of a tree, beside its header: rows and cuts of its branches, copies of its leaves, free branch numbers and cached boxes.
// The boxes' type is a parameter, as a struct is made of an array of arrays of arrays only where it has no more of it than a name.
#[derive(Drop)]
pub struct Store<B> {
    pub nodes: Nodes,
    pub cuts: Cuts,
    pub copies: Copies,
    pub free: Free,
    pub boxes: B,
}

pub type NodeStore = Store<Boxes>;

impl<B> Store<B> {
    // Zeros, and the boxes given.
    fn with(boxes: B) -> Self
        ensures { result ≡ record { nodes = replicate branch_limit no_row; cuts = replicate branch_limit nought; copies = replicate point_limit 0; free = replicate branch_limit (0 ∷ 0 ∷ []); boxes = boxes } }
    {
        Store {
            nodes: [[0; 4]; BRANCHES],
            cuts: [0.0; BRANCHES],
            copies: [0; POINTS],
            free: [[0; 2]; BRANCHES],
            boxes,
        }
    }
}

// Arrays of zeros, for a making to clear and make its own.
// Rules out free numbers that a tree has not, and minus zeros in cuts and boxes.
pub fn no_nodes() -> NodeStore
    ensures { result ≡ lent (replicate branch_limit no_row) (replicate branch_limit nought) (replicate point_limit 0) (replicate branch_limit (0 ∷ 0 ∷ [])) (replicate branch_limit no_box_ends) }
{
    Store::with([[[0.0; CHANNELS]; 2]; BRANCHES])
}

// What a tree's header has for the arrays: where the tree begins, which numbers are free, and how many channels, leaves and cached branches it has.
#[derive(Clone, Copy)]
pub struct Header {
    pub root: u16,
    pub manager: IntervalStoreManager,
    pub dimensions: usize,
    pub capacity: u16,
    pub cached: usize,
}

// What an edit changes of it.
#[derive(Clone, Copy)]
pub struct Edited {
    pub root: u16,
    pub manager: IntervalStoreManager,
}

// What a new value changes of it, and how many words it takes.
#[derive(Clone, Copy)]
pub struct Entered {
    pub root: u16,
    pub manager: IntervalStoreManager,
    pub words: usize,
}

// A reading's walk: how many nodes it has, the point index of the leaf that it ends in, and whether that leaf has the reading's value.
#[derive(Clone, Copy)]
pub struct Found {
    pub walk: usize,
    pub leaf: usize,
    pub held: bool,
}

// Looks for the reading of an index, in a tree that holds something: its walk is written to the path.
// Rules out a leaf of another value taken for the reading's own.
pub fn find(
    header: Header,
    store: &NodeStore,
    points: &Points,
    index: usize,
    path: &mut Path,
) -> Found
    requires { SomeSought header store.now.nodes store.now.cuts points.now index }
    ensures { Finds header store.now.nodes store.now.cuts points.now index path.old result path.new }
{
    let n = walk::set_path(
        &store.nodes,
        &store.cuts,
        &points[index],
        header.root,
        header.capacity,
        path,
    );
    let leaf = walk::leaf_at(path, n, header.capacity);
    let held = walk::same_point(&points[leaf], &points[index], header.dimensions);
    Found {
        walk: n,
        leaf,
        held,
    }
}

// A branch number put back. A stack of a tree's branch numbers, each free once at most, always has a row for it.
fn put_back(manager: IntervalStoreManager, free: &mut Free, b: u16) -> IntervalStoreManager
    ensures { (u : List (ℕ × ℕ)) → manager ≡ manager_of manager.capacity u → free.old ≡ Rows.layout u → manager.capacity ≤ branch_limit → Proper manager.capacity u → Once u → b < manager.capacity → holds u b ≡ 0
        → (result ≡ manager_of manager.capacity (after_release u b)) × (free.new ≡ Rows.layout (after_release u b)) }
{
    manager.release(free, b).unwrap_or(manager)
}

// The last copy of a leaf below a branch: the sibling takes the branch's place, the branch's number is free again, and the boxes above are repaired.
fn remove_last(
    header: Header,
    store: &mut NodeStore,
    points: &Points,
    path: &Path,
    n: usize,
    leaf: usize,
    point: &Row,
) -> Edited
    requires held { SomeHeld header store.old points.now path.now n leaf point.now }
    requires last { get_or store.old.copies leaf 0 ≤ 1 }
    requires below { 2 ≤ n }
    ensures { Forgets header store.old points.now path.now n leaf point.now result store.new }
{
    let sibling = nodestore::lifted_root(header.root, path, n);
    let b = nodestore::remove_leaf(
        &mut store.nodes,
        &mut store.cuts,
        &mut store.copies,
        path,
        n,
        leaf,
    );
    let left = put_back(header.manager, &mut store.free, b);
    let sizes = Sizes {
        capacity: casts::wide16(header.capacity),
        cached: header.cached,
        channels: header.dimensions,
    };
    rowboxes::clear_box(&mut store.boxes, casts::wide16(b), &sizes);
    walkboxes::repair_ancestors(
        &mut store.boxes,
        &store.nodes,
        points,
        path,
        n - 2,
        point,
        &sizes,
    );
    Edited {
        root: sibling,
        manager: left,
    }
}

// One copy less of the leaf that the path ends in.
// Rules out a branch's number that is lost when its leaf goes.
pub fn remove_copy(
    header: Header,
    store: &mut NodeStore,
    points: &Points,
    path: &Path,
    n: usize,
    leaf: usize,
    point: &Row,
) -> Edited
    requires held { SomeHeld header store.old points.now path.now n leaf point.now }
    ensures { Forgets header store.old points.now path.now n leaf point.now result store.new }
{
    if 1 < store.copies[leaf] {
        nodestore::drop_copy(&mut store.nodes, &mut store.copies, path, n, leaf);
        return Edited {
            root: header.root,
            manager: header.manager,
        };
    }
    if n < 2 {
        nodestore::remove_root(&mut store.copies, leaf);
        return Edited {
            root: header.capacity - 1,
            manager: header.manager,
        };
    }
    remove_last(header, store, points, path, n, leaf, point)
}

// The box of a new branch, if the branch is cached: from its sides, whose rows stand.
fn keep_new_box(boxes: &mut Boxes, nodes: &Nodes, points: &Points, index: usize, sizes: &Sizes)
    requires stands { SomeSides sizes.now.capacity sizes.now.cached index nodes.now points.now boxes.old }
    requires padded { PaddedTable sizes.now.channels points.now × PaddedBoxes sizes.now.channels boxes.old }
    ensures kept { SidesKept sizes.now.capacity sizes.now.cached index nodes.now points.now boxes.old boxes.new }
    ensures padded { PaddedBoxes sizes.now.channels boxes.new }
{
    if index < sizes.cached {
        branchboxes::rebuild_box(boxes, nodes, points, index, sizes);
    }
}

// A reading that no leaf has: the highest cut that parts, a free number for the new branch, its row and its box, and the boxes above it grown, but for those
// that are known to hold the point.
// Rules out a cut of the tree's own choosing, and a word left out where the box holds the point.
pub fn insert_leaf(
    header: Header,
    store: &mut NodeStore,
    points: &Points,
    path: &Path,
    n: usize,
    leaf: usize,
    index: usize,
    words: &[u64],
    point: &Row,
) -> Entered
    requires { SomeEntering header store.old points.now path.now n leaf index words.now point.now }
    ensures { Enters header store.old points.now path.now n leaf index words.now point.now result store.new }
{
    let sizes = Sizes {
        capacity: casts::wide16(header.capacity),
        cached: header.cached,
        channels: header.dimensions,
    };
    let boxing = Boxing {
        nodes: &store.nodes,
        points,
        boxes: &store.boxes,
        sizes,
    };
    let highest = drawing::highest_cut(&boxing, path, n, leaf, words, point);
    let above = n - 1 - highest.height;
    let Some(got) = header.manager.get(&mut store.free) else {
        return Entered {
            root: header.root,
            manager: header.manager,
            words: 0,
        };
    };
    let b = got.index;
    let dimension = highest.cut.dimension;
    let left = point[dimension] <= highest.cut.value;
    nodestore::place_branch(
        &mut store.nodes,
        &mut store.cuts,
        &mut store.copies,
        path,
        above,
        b,
        index,
        highest.cut,
        left,
        header.capacity,
    );
    keep_new_box(
        &mut store.boxes,
        &store.nodes,
        points,
        casts::wide16(b),
        &sizes,
    );
    walkboxes::grow_ancestors(
        &mut store.boxes,
        path,
        n - highest.top,
        above,
        point,
        header.cached,
        header.dimensions,
    );
    let new_root = nodestore::placed_root(header.root, above, b);
    Entered {
        root: new_root,
        manager: got.manager,
        words: n,
    }
}
