// The answers of a tree's calls as numbers: document 01's refusal number first, 0 where there is none, then what is answered.
#![tactic(auto)]

ghost use Rattle.std.specs.Prelude.{◌≡◌, min, Ok};
ghost use Rattle.limits.specs.Limits.{width};
ghost use Rattle.answers.specs.Said.{filled, reply_width, put_numbers, add_numbers, delete_numbers, count_numbers, branch_numbers, box_numbers};

use boundingbox::BoundingBox;
use limits::CHANNELS;
use randomcuttree::{Added, BranchRow, Deleted};
use refusals::Refusal;

// An answer as numbers. The longest is a box's: a refusal, and two ends for each channel.
pub const REPLY: usize = 1 + 2 * CHANNELS;

pub type Reply = [usize; REPLY];

// The numbers of each answer, with 0 after them.
// Each rules out the number of another answer told, and a number left in the reply from the call before.
pub fn tell_put(answer: Result<(), Refusal>, reply: &mut Reply)
    ensures { reply.new ≡ filled reply_width (put_numbers answer) }
{
    *reply = [0; REPLY];
    match answer {
        Ok(()) => {}
        Err(refusal) => {
            reply[0] = refusal.number();
        }
    }
}

// The same of an add: the leaf's point index, then the words taken.
// Rules out the words before the index, and a number remaining in the reply from the call before.
pub fn tell_add(answer: Result<Added, Refusal>, reply: &mut Reply)
    ensures { reply.new ≡ filled reply_width (add_numbers answer) }
{
    *reply = [0; REPLY];
    match answer {
        Ok(added) => {
            reply[1] = added.leaf;
            reply[2] = added.words;
        }
        Err(refusal) => {
            reply[0] = refusal.number();
        }
    }
}

// Of a delete: the leaf's point index.
// Rules out the refusal's number in the index's place, and the index where the refusal's number stands.
pub fn tell_delete(answer: Result<Deleted, Refusal>, reply: &mut Reply)
    ensures { reply.new ≡ filled reply_width (delete_numbers answer) }
{
    *reply = [0; REPLY];
    match answer {
        Ok(deleted) => {
            reply[1] = deleted.leaf;
        }
        Err(refusal) => {
            reply[0] = refusal.number();
        }
    }
}

// Of a query for copies, and of a report, which answers how many rows it has written.
// Rules out the number answered where the refusal's number stands, and 0 copies for an id of no leaf.
pub fn tell_count(answer: Result<usize, Refusal>, reply: &mut Reply)
    ensures { reply.new ≡ filled reply_width (count_numbers answer) }
{
    *reply = [0; REPLY];
    match answer {
        Ok(count) => {
            reply[1] = count;
        }
        Err(refusal) => {
            reply[0] = refusal.number();
        }
    }
}

// Of a query for a branch: the cut's channel, its value as bits, the sides and the mass.
// Rules out the sides swapped, and a cut's value as a whole number in place of its bits.
pub fn tell_branch(answer: Result<BranchRow, Refusal>, reply: &mut Reply)
    ensures { reply.new ≡ filled reply_width (branch_numbers answer) }
{
    *reply = [0; REPLY];
    match answer {
        Ok(row) => {
            let cut = row.cut;
            reply[1] = cut.dimension;
            reply[2] = casts::wide32(little::pattern_of(cut.value));
            reply[3] = row.left;
            reply[4] = row.right;
            reply[5] = row.mass;
        }
        Err(refusal) => {
            reply[0] = refusal.number();
        }
    }
}

// The ends of a box's channels as bits, the lower ones from the second number on, the upper ones after them; of no more channels than a row has.
fn tell_ends(bounding_box: BoundingBox, dimensions: usize, reply: &mut Reply)
    ensures { reply.new ≡ filled reply_width (box_numbers (min dimensions width) (Ok bounding_box)) }
{
    let d = casts::at_most(dimensions, CHANNELS);
    let low = bounding_box.min_values;
    let high = bounding_box.max_values;
    *reply = [0; REPLY];
    for i in 0..d {
        reply[1 + i] = casts::wide32(little::pattern_of(low[i]));
        reply[1 + d + i] = casts::wide32(little::pattern_of(high[i]));
    }
}

// Of a query for a box.
// Rules out lower and upper ends in turn, and a number left behind the last end.
pub fn tell_box(answer: Result<BoundingBox, Refusal>, dimensions: usize, reply: &mut Reply)
    ensures { reply.new ≡ filled reply_width (box_numbers (min dimensions width) answer) }
{
    match answer {
        Ok(bounding_box) => tell_ends(bounding_box, dimensions, reply),
        Err(refusal) => {
            *reply = [0; REPLY];
            reply[0] = refusal.number();
        }
    }
}
