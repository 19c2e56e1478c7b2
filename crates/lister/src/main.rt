//! Reads the text of a sheet from standard input and prints its listing.
//!
//! Only reads and prints: what is printed for a text is proved of `engine::listing::list`.

#![tactic(auto)]

use engine::listing::{MOST_BYTES, list};
use grid::grid::BLOCK_BYTES;
use std::alloc::AllocError;
use std::io;
use std::io::{Read, Write};

fn main(rt: HostRuntime) -> io::Result<()> {
    let mut text = Vec::new(rt.alloc());
    rt.stdin().take(MOST_BYTES as u64).read_to_end(&mut text)?;
    let block = vec![in rt.alloc(); 0; BLOCK_BYTES]?;
    let mut listing = Vec::new(rt.alloc());
    list(&text, block, &mut listing).map_err(|_| AllocError)?;
    rt.stdout().write_all(&listing)
}
