// Program `treelist` (document 01, 'Printed tree'): standard input is the text, standard output what it prints.
#![tactic(auto)]

use std::io;
use treelist_text::PRINTED;

// One byte more than a text may have, so that an over-long one is seen.
const TEXT: usize = 32769;

fn main(rt: HostRuntime) -> io::Result<()> {
    let mut text = [0u8; TEXT];
    let n = inputs::read_full(&mut rt.reader(), &mut text);
    let mut out = [0u8; PRINTED];
    let m = treelist_text::treelist_output(&text[..n], &mut out);
    rt.write_all(&out[..m])
}
