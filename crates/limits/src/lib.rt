// Document 01's limits, and the arrays that they give a tree and its readings table. The code has these numbers here and nowhere else.
#![tactic(auto)]

// Request A.7, 'up to 32 channels': a row of coordinates is so wide, whatever the tree's own number.
pub const CHANNELS: usize = 32;

// 'Capacity c is 2 to 256'.
pub const CAPACITY: usize = 256;

// A tree of so many leaves has one branch fewer.
pub const BRANCHES: usize = CAPACITY - 1;

// 'point indices 0 to 1,023'.
pub const POINTS: usize = 1024;

// '10 total is 65,535'.
pub const TOTAL: usize = 65535;

// A reading, or the lower or upper ends of a box. Channels from the tree's number on hold +0.0.
pub type Row = [f32; CHANNELS];

// The readings table: a row for each point index, and a mark where it is written.
pub type Points = [Row; POINTS];

pub type Marks = [u8; POINTS];

// Of each branch: the ids of its left and right sides, its mass and the channel of its cut; and the value of its cut.
pub type Nodes = [[u16; 4]; BRANCHES];

pub type Cuts = [f32; BRANCHES];

// The cached boxes, by branch number: lower ends, then upper ends.
pub type Boxes = [[Row; 2]; BRANCHES];

// The copies of each leaf, by its point index.
pub type Copies = [u16; POINTS];

// The free branch numbers, as intervals.
pub type Free = [[u16; 2]; BRANCHES];

// A walk: each node's id, and that of its sibling. No walk has more nodes than a tree has leaves.
pub type Path = [[u16; 2]; CAPACITY];

// The sample: the weights it keeps, and the point index that goes with each.
pub type Weights = [f32; CAPACITY];

pub type Held = [u16; CAPACITY];

// As many coordinates of a given list as are looked at: one more than any tree has, which is one too many.
pub const COORDINATES: usize = CHANNELS + 1;

pub type Coordinates = [f32; COORDINATES];

// As many words as are looked at: no walk takes more.
pub type Words = [u64; CAPACITY];
