// The walk report: `traverse` of randomcuttree.rs with `SmallNodeView` of nodeview.rs, for a visitor that never converges and wants no shadow box. It is
// read from a tree's arrays and written to lent rows, a row for each node of the query's walk from the leaf to the root.
#![tactic(auto)]

ghost use Rattle.std.specs.Prelude.{◌≡◌, ℕ, ◌≤◌, ◌<◌, false, cond, ◌||◌, [], ◌∷◌, leb, ltb, length, get_or, drop, set};
ghost use Rattle.std.specs.Float.{binary64};
ghost use Rattle.std.specs.Float.Ieee.{to_bits};
ghost use Rattle.limits.specs.Limits.{width, capacity_limit, branch_limit};
ghost use Rattle.readings.specs.Number.{nought};
ghost use Rattle.cut.specs.Laws.{Readings, Padded};
ghost use Rattle.cut.specs.Sums.{one};
ghost use Rattle.probability.specs.Probability.{probability};
ghost use Rattle.cuttree.specs.Tree.{Tree};
ghost use Rattle.wholetree.specs.Reading.{Reading, same_row};
ghost use Rattle.wholetree.specs.Whole.{whole};
ghost use Rattle.walk.specs.Walks.{Walks, Walked};
ghost use Rattle.boxstore.specs.Written.{low_in, high_in};
ghost use Rattle.nodeview.specs.Told.{ReportTold, SomeReportRead};
ghost use Rattle.nodeview.specs.Walking.{kept_chance, Chanced, Unchanced, MemoryLeft, SomeWalking};
ghost use Rattle.rowboxes.specs.Rows.{PaddedRow, PaddedEnds, box_of};
ghost use Rattle.rowboxes.specs.Boxings.{Stands, OfNode};
ghost use Rattle.branchboxes.specs.Pairs.{OfPair};
ghost use Rattle.nodeview.specs.Writing.{SomeWriting, Writes};

use casts::wide16;
use limits::{Boxes, CAPACITY, Copies, Cuts, Nodes, Path, Points, Row};
use randomcuttree::RCFTree;
use refusals::Refusal;
use rowboxes::{Boxing, Ends, Sizes};
use treestore::NodeStore;

// The chance of each cached branch of a walk, by its depth: working memory.
pub type Chances = [f64; CAPACITY];

// The rows that a report is written to before they are told: no walk has more nodes than a tree has leaves.
pub type Rows = [[u64; 4]; CAPACITY];

// A row as numbers: a float by its bits.
fn numbers_of(id: u16, depth: usize, mass: u16, probability: f64) -> [u64; 4]
    ensures { result ≡ id ∷ depth ∷ mass ∷ to_bits binary64 probability ∷ [] }
{
    let bits = little::pattern_of_double(probability);
    [id as u64, depth as u64, mass as u64, bits]
}

// The leaf's row: of its reading and the query.
fn leaf_row(
    id: u16,
    depth: usize,
    mass: u16,
    leaf: &Row,
    point: &Row,
    dimensions: usize,
) -> [u64; 4]
    requires narrow { dimensions ≤ width }
    requires padded { PaddedRow dimensions leaf.now × PaddedRow dimensions point.now }
    ensures { result ≡ id ∷ depth ∷ mass ∷ to_bits binary64 (cond (same_row leaf.now point.now) nought one) ∷ [] }
{
    if walk::same_point(leaf, point, dimensions) {
        return numbers_of(id, depth, mass, 0.0);
    }
    numbers_of(id, depth, mass, 1.0)
}

fn doubles_of(s: &[f64]) {}

// The chance of a branch that is cached, put at its depth; nothing is put for any other. Lent chances have all their places, which the array's type doesn't
// tell a proof.
fn keep_chance(
    chances: &mut Chances,
    depth: usize,
    branch: usize,
    boxes: &Boxes,
    point: &Row,
    cached: usize,
    dimensions: usize,
)
    requires low { (depth < capacity_limit) × (branch < branch_limit) }
    requires readings { branch < cached → Readings (low_in boxes.now branch) (high_in boxes.now branch) point.now width }
    requires padded { branch < cached → Padded (low_in boxes.now branch) (high_in boxes.now branch) point.now dimensions width }
    ensures whole { length chances.old ≡ capacity_limit }
    ensures kept { chances.new ≡ cond (ltb branch cached) (set chances.old depth (kept_chance boxes.now branch point.now)) chances.old }
{
    doubles_of(chances);
    if cached <= branch {
        return;
    }
    chances[depth] = probability::whole_probability_of_cut(
        &boxes[branch][0],
        &boxes[branch][1],
        point,
        dimensions,
    );
}

// The walk that `walk::set_path` writes down, and the chance of each cached branch on it: worked out here, while the walk waits for its next row.
// Rules out a chance put at another node's depth, and one worked out of a box that is not kept.
fn walk_down(
    nodes: &Nodes,
    cuts: &Cuts,
    boxes: &Boxes,
    point: &Row,
    root: u16,
    capacity: u16,
    cached: usize,
    dimensions: usize,
    path: &mut Path,
    chances: &mut Chances,
) -> usize
    requires few { capacity ≤ capacity_limit }
    requires stands { SomeWalking dimensions capacity cached nodes.now cuts.now boxes.now point.now root }
    ensures walked { (d : ℕ) (t : Tree (whole d)) (p : Reading) → Walks d capacity nodes.now cuts.now point.now root t p → Walked d capacity path.new result t p }
    ensures rest { drop result path.new ≡ drop result path.old }
    ensures chances { Chanced cached boxes.now point.now path.new result chances.new }
    ensures others { Unchanced cached path.new result chances.old chances.new }
{
    walk::begin(path, root);
    let mut n: usize = 1;
    let mut node = root;
    // A walk is over at a leaf, and not after a number of turns that is known before.
    while node < capacity {
        let i = wide16(node);
        let s = walk::step_at(nodes, cuts, point, i);
        path[n] = s;
        keep_chance(chances, n - 1, i, boxes, point, cached, dimensions);
        node = s[0];
        n += 1;
    }
    n
}

// The ends of a branch's box, from the node below it on the walk and that node's sibling. A cached branch needs none, its chance being kept, and they are left.
fn branch_ends(ends: &mut Ends, branch: usize, below: usize, sibling: usize, boxing: &Boxing)
    requires stands { Stands boxing.now below × Stands boxing.now sibling }
    requires given { (leb boxing.now.sizes.capacity below || ltb below boxing.now.sizes.cached) ≡ false → OfNode boxing.now below (box_of ends.old) }
    requires padded { PaddedEnds boxing.now.sizes.channels ends.old }
    ensures left { branch < boxing.now.sizes.cached → ends.new ≡ ends.old }
    ensures pair { boxing.now.sizes.cached ≤ branch → OfPair boxing.now below sibling (box_of ends.new) }
    ensures padded { PaddedEnds boxing.now.sizes.channels ends.new }
{
    if branch < boxing.sizes.cached {
        return;
    }
    branchboxes::ends_above(ends, below, sibling, boxing);
}

// A branch's chance: the one worked out on the way down if it is cached, else that of the ends of its box and the query.
fn chance_of(
    branch: usize,
    cached: usize,
    kept: f64,
    ends: &Ends,
    point: &Row,
    dimensions: usize,
) -> f64
    requires readings { cached ≤ branch → Readings (get_or ends.now 0 []) (get_or ends.now 1 []) point.now width }
    requires padded { cached ≤ branch → Padded (get_or ends.now 0 []) (get_or ends.now 1 []) point.now dimensions width }
    ensures { result ≡ cond (ltb branch cached) kept (probability (get_or ends.now 0 []) (get_or ends.now 1 []) point.now width) }
{
    if branch < cached {
        return kept;
    }
    probability::whole_probability_of_cut(&ends[0], &ends[1], point, dimensions)
}

// The rows of a walk. The box of a branch that is not cached is the box of the node below it on the walk, grown by that node's sibling.
// Rules out rows from the root to the leaf, and a box of the walk's node grown by the wrong side.
fn write_rows<'a>(
    nodes: &Nodes,
    copies: &Copies,
    points: &'a Points,
    boxes: &'a Boxes,
    path: &Path,
    chances: &Chances,
    len: usize,
    point: &Row,
    capacity: u16,
    cached: usize,
    dimensions: usize,
    rows: &mut [[u64; 4]],
)
    requires walk { SomeWriting dimensions capacity cached nodes.now copies.now points.now boxes.now path.now len point.now rows.old }
    requires chances { Chanced cached boxes.now point.now path.now len chances.now }
    ensures { Writes capacity cached nodes.now copies.now points.now boxes.now path.now len point.now rows.old rows.new }
{
    let sizes = Sizes {
        capacity: wide16(capacity),
        cached,
        channels: dimensions,
    };
    let boxing = Boxing {
        nodes,
        points,
        boxes,
        sizes,
    };
    let leaf = walk::leaf_at(path, len, capacity);
    let leaf_id = walk::node_at(path, len - 1);
    let leaf_mass = nodestore::mass_of(nodes, copies, leaf_id, capacity);
    rows[0] = leaf_row(
        leaf_id,
        len - 1,
        leaf_mass,
        &points[leaf],
        point,
        dimensions,
    );
    let mut ends: Ends = [*point, *point];
    for m in 1..len {
        let depth = len - 1 - m;
        let node = walk::node_at(path, depth);
        let branch = wide16(node);
        let below = wide16(walk::node_at(path, len - m));
        let sibling = wide16(walk::sibling_at(path, len - m));
        branch_ends(&mut ends, branch, below, sibling, &boxing);
        let chance = chance_of(branch, cached, chances[depth], &ends, point, dimensions);
        let mass = nodestore::mass_of(nodes, copies, node, capacity);
        rows[m] = numbers_of(node, depth, mass, chance);
    }
}

// The report of `traverse`, with a lent path and chances to work in: whatever they hold before, and after it the walk and the chances of its cached branches,
// each in its place. A query that is refused for its coordinates or for want of a tree leaves them; too few rows are told after the walk.
// Rules out a path written for a query that is refused for its coordinates, and a chance put beyond the walk's depth.
pub fn traverse_in<'a>(
    tree: RCFTree,
    store: &'a NodeStore,
    points: &'a Points,
    query: &[f32],
    rows: &mut [[u64; 4]],
    path: &mut Path,
    chances: &mut Chances,
) -> Result<usize, Refusal>
    requires { SomeReportRead tree store.now.nodes store.now.cuts store.now.copies points.now store.now.boxes }
    ensures told { ReportTold tree store.now.nodes store.now.cuts store.now.copies points.now store.now.boxes query.now rows.old result rows.new }
    ensures memory { MemoryLeft tree store.now.nodes store.now.cuts store.now.copies points.now store.now.boxes query.now path.old chances.old path.new chances.new }
{
    pointstore::check_point(tree.dimensions, query)?;
    if tree.total == 0 {
        return Err(Refusal::TreeEmpty);
    }
    let point = pointstore::row_of(query);
    let n = walk_down(
        &store.nodes,
        &store.cuts,
        &store.boxes,
        &point,
        tree.root,
        tree.capacity,
        tree.cached,
        tree.dimensions,
        path,
        chances,
    );
    if rows.len() < n {
        return Err(Refusal::FewRows);
    }
    write_rows(
        &store.nodes,
        &store.copies,
        points,
        &store.boxes,
        path,
        chances,
        n,
        &point,
        tree.capacity,
        tree.cached,
        tree.dimensions,
        rows,
    );
    Ok(n)
}

// The report of a query: a row for each node of its walk, from the leaf to the root, written to the lent rows; or a refusal, in document 01's order, and
// nothing written.
// Rules out depths counted from the leaf, and a row written before too few are told.
pub fn traverse<'a>(
    tree: RCFTree,
    store: &'a NodeStore,
    points: &'a Points,
    query: &[f32],
    rows: &mut [[u64; 4]],
) -> Result<usize, Refusal>
    requires { SomeReportRead tree store.now.nodes store.now.cuts store.now.copies points.now store.now.boxes }
    ensures { ReportTold tree store.now.nodes store.now.cuts store.now.copies points.now store.now.boxes query.now rows.old result rows.new }
{
    let mut path = [[0u16; 2]; CAPACITY];
    let mut chances = [0.0f64; CAPACITY];
    traverse_in(tree, store, points, query, rows, &mut path, &mut chances)
}
