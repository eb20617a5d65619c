// Asks the reader of nodes at the places of several buffers, and prints what it gives back: a line for each place, with the place and the
// node's words, or `none`. The file `stdout` beside src/ was written by hand from document 01. A write that fails ends it with that error.

#![tactic(auto)]

use std::io;

// The words, each behind a blank, and the line's end.
fn show(rt: &impl Print, words: &[u32]) -> io::Result<()> {
    for word in words {
        print!(rt; " {word}")?;
    }
    println!(rt)
}

// The node at one place.
fn ask(rt: &impl Print, words: &[u32], at: usize) -> io::Result<()> {
    print!(rt; "{at}:")?;
    let node = nodes::walks::node(words, at);
    if node.is_empty() {
        return println!(rt; " none");
    }
    show(rt, node)
}

// The node at each place, and at the one past the last.
fn each(rt: &impl Print, words: &[u32]) -> io::Result<()> {
    for at in 0..=words.len() {
        ask(rt, words, at)?;
    }
    Ok(())
}

// How many words the node at a place has.
fn size(rt: &impl Print, words: &[u32], at: usize) -> io::Result<()> {
    println!(rt; "{}", nodes::walks::node(words, at).len())
}

fn main(rt: HostRuntime) -> io::Result<()> {
    // every kind of types; of ML; of Scheme
    each(&rt, &[4, 3, 1, 2])?;
    each(
        &rt,
        &[
            18, 4, 1, 1, 23, 28, 25, 16, 24, 1, 19, 20, 17, 21, 22, 17, 273, 30, 2, 33, 26, 27,
            285, 1,
        ],
    )?;
    each(
        &rt,
        &[
            34, 38, 43, 35, 32, 39, 36, 37, 33, 289, 45, 1, 17, 40, 41, 300, 42, 32,
        ],
    )?;
    // kinds that are none, a last kind among them
    each(&rt, &[0, 5, 15, 31, 46, 47, 48, 99, 255, 256])?;
    // a part of another sort: a term where a type is due, a type for a term, ML for Scheme, Scheme for ML
    each(&rt, &[18, 17, 17])?;
    each(&rt, &[20, 1])?;
    each(&rt, &[30, 1, 17])?;
    each(&rt, &[45, 1, 33])?;
    each(&rt, &[21, 17, 33])?;
    // parts that run out
    each(&rt, &[23, 17, 17])?;
    each(&rt, &[4, 1])?;
    // operands at their ranges and past them: numbers and variables, codes, tests, owners, and where it is to be 0
    each(&rt, &[4294967056, 4294967057, 4294967072, 4294967073])?;
    each(&rt, &[285, 1, 16776989, 1, 29, 1, 16777245, 1])?;
    each(&rt, &[300, 16777004, 44, 16777260])?;
    each(&rt, &[43, 33, 811, 33, 1067, 33])?;
    each(&rt, &[258, 65282, 65538, 3, 65282, 3, 65538])?;
    each(&rt, &[260, 257, 295, 277, 17, 17])?;
    // places past the end, and the empty buffer
    ask(&rt, &[17], 2)?;
    ask(&rt, &[17], 18446744073709551615)?;
    each(&rt, &[17; 0])?;
    // nesting does not matter: 300 words 20 and then 17; and without the 17
    let mut deep = [20; 301];
    size(&rt, &deep, 0)?;
    deep[300] = 17;
    size(&rt, &deep, 0)?;
    size(&rt, &deep, 299)
}
