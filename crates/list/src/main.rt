// Reads one written question from standard input, whole and without a newline, and prints its list, or `refused` and the number.
#![tactic(auto)]

ghost use Rattle.std.specs.Prelude.{◌≤◌, IfOk};

use listing::{MOST_LISTING, question_listing};
use question::List;
use reader::question_read;
use std::io::{self, Read, Write};

// Room for 256 bytes tells every text that is too long, and no longer one is kept.
fn main(rt: HostRuntime) -> io::Result<()> {
    let mut room = [0u8; 256];
    let Ok(got) = read_full(&mut rt.stdin(), &mut room) else {
        return eprintln!(rt; "list: standard input cannot be read");
    };
    if answer(&rt, &room[..got]).is_err() {
        return eprintln!(rt; "list: standard output cannot be written");
    }
    Ok(())
}

// Reads until the room is full or the text ends; std reads to the end of a text into a `Vec` only, and there is no heap.
fn read_full<R: Read>(from: &mut R, room: &mut [u8; 256]) -> io::Result<usize>
    ensures { IfOk result (λ n. n ≤ 256) }
{
    let mut got = 0;
    while got < 256 {
        let n = from.read(&mut room[got..])?;
        if n == 0 {
            break;
        }
        got += n;
    }
    Ok(got)
}

fn answer(rt: &impl Print, text: &[u8]) -> io::Result<()> {
    match question_read(text) {
        Ok(list) => print_list(rt, list, text),
        Err(refusal) => println!(rt; "refused {}", refusal as u8),
    }
}

// The reader's lists keep their rules, and no listing is longer than the page: there is always one to print.
fn print_list(rt: &impl Print, list: List, text: &[u8]) -> io::Result<()> {
    let mut page = [0u8; MOST_LISTING];
    let size = question_listing(list, text, &mut page);
    match page.get(..size) {
        Some(listing) => io::writer(rt).write_all(listing),
        None => Ok(()),
    }
}
