// Many images in one run: again and again a length, four bytes with the lowest first, and so many bytes of an image. Of each,
// counted from 1, it prints a line `image K` and what the bench prints. It ends where the input ends or is cut short, and at a
// length above 65,537.

#![tactic(auto)]

ghost use Rattle.std.specs.Prelude.{◌≡◌, length};

use std::io;
use std::io::{Print, Stdin, Stdout};

// The next length of the input, if there is one: four bytes, the lowest first.
fn next_length(from: Stdin) -> io::Result<Option<usize>> {
    let mut head = [0u8; 4];
    if show::read_full(from, &mut head)? < head.len() {
        return Ok(None);
    }
    Ok(Some(u32::from_le_bytes(head) as usize))
}

// Room for an image, and for one byte more than it may have.
fn room() -> [u8; 65537]
    ensures { 65537 ≡ length result }
{
    [0; 65537]
}

// Prints the line that names an image.
fn announce(to: Stdout, number: u64) -> io::Result<()> {
    println!(to; "image {number}")
}

// Reads the next image and shows it: whether there was one.
fn show_next(from: Stdin, to: Stdout, number: u64) -> io::Result<bool> {
    let Some(size) = next_length(from)? else {
        return Ok(false);
    };
    if 65537 < size {
        return Ok(false);
    }
    let mut buffer = room();
    if show::read_full(from, &mut buffer[..size])? != size {
        return Ok(false);
    }
    announce(to, number)?;
    show::bench(to, &buffer[..size])?;
    Ok(true)
}

// The count is what ends the loop in a proof: no input is so long.
fn main(rt: HostRuntime) -> io::Result<()> {
    for number in 1..u64::MAX {
        if !show_next(rt.stdin(), rt.stdout(), number)? {
            break;
        }
    }
    Ok(())
}
