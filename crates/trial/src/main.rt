// The register to try (01) through the real functions: each question is read, put to the three depots, and the desk gets their replies in
// every order, each twice, and is asked after each.
#![tactic(auto)]

use depot::depot_reply;
use desk::{Refusal, Said, desk_accept, desk_ask, desk_fresh, desk_open};
use question::List;
use reader::question_read;
use std::io;

// The parent number of a fragment's row 0.
const NO_PARENT: u32 = u32::MAX;

// Firm; site under it; a stand-in for 1 under firm, one for 2 under site.
const FIRM: [u32; 24] = [
    NO_PARENT, 0, 0, 4, 0, 0, 0, 0, 4, 4, 0, 0, 0, 1, 1, 0, 0, 0, 1, 1, 2, 0, 0, 0,
];

// Site; lift under it; brake "B17" under that.
const SITE: [u32; 18] = [
    NO_PARENT, 0, 4, 4, 0, 0, 0, 0, 8, 4, 0, 0, 1, 0, 12, 5, 17, 3,
];

// Lift; under it brake "B09" and mark "done".
const LIFT: [u32; 18] = [
    NO_PARENT, 0, 8, 4, 0, 0, 0, 0, 12, 5, 20, 3, 0, 0, 23, 4, 27, 4,
];

// The pool of all three boxes.
const POOL: &[u8] = b"firmsiteliftbrakeB17B09markdone";

// The table of 01, without its answers.
const QUESTIONS: [(&str, &str); 12] = [
    ("a", "//lift[brake/text()=\"B17\"]"),
    ("b", "//lift[brake/text()=\"B09\"&!mark]"),
    ("c", "//firm"),
    ("d", "//.[label()=\"firm\"]"),
    ("e", "lift"),
    ("f", "site/lift"),
    ("g", "text()=\"\""),
    ("h", "!."),
    ("i", "*/*/*"),
    ("j", "*/*/*/*"),
    ("k", "site[lift/mark]&site[lift/brake/text()=\"B17\"]"),
    ("l", "site[lift/mark&lift/brake/text()=\"B17\"]"),
];

fn main(rt: HostRuntime) -> io::Result<()> {
    println!(rt; "   entries  reply bytes      answer  question")?;
    for (name, question) in QUESTIONS {
        show(&rt, name, question)?;
    }
    println!(rt; "every answer is the same in all six orders of the replies, each handed in twice")
}

fn show(rt: &impl Print, name: &str, question: &str) -> io::Result<()> {
    let text = question.as_bytes();
    let Ok(list) = question_read(text) else {
        return println!(rt; "{name}      WRONG: the reader refuses  {question}");
    };
    // Three rooms and three calls: an array of rooms taken apart behind a `&mut` is not yet covered by the check.
    let (mut firm, mut site, mut lift) = ([0u8; 512], [0u8; 512], [0u8; 512]);
    let (Some(a), Some(b), Some(c)) = (
        reply(text, list, &FIRM, 0, &mut firm),
        reply(text, list, &SITE, 1, &mut site),
        reply(text, list, &LIFT, 2, &mut lift),
    ) else {
        return println!(rt; "{name}      WRONG: a depot refuses  {question}");
    };
    let (entries, x, y, z) = (list.count, a.len(), b.len(), c.len());
    match all_orders(entries, [a, b, c]) {
        Some(said) => println!(rt;
            "{name}      {entries:>3}  {x:>3}  {y:>3}  {z:>3}    {said:<8}{question}"
        ),
        None => println!(rt;
            "{name}      {entries:>3}  {x:>3}  {y:>3}  {z:>3}    WRONG   {question}"
        ),
    }
}

// A depot's reply to the question with the number 1; what it takes is what a depot is called with.
fn reply<'a>(
    text: &[u8],
    list: List,
    rows: &[u32],
    fragment: u32,
    out: &'a mut [u8; 512],
) -> Option<&'a [u8]> {
    let mut work = [0u16; 12800];
    let size = depot_reply(text, list, rows, POOL, fragment, 1, &mut work, out).ok()?;
    out.get(..size)
}

// The answer that all orders of the replies give.
fn all_orders(entries: usize, replies: [&[u8]; 3]) -> Option<Said> {
    let answer = order(entries, replies)?;
    let [a, b, c] = replies;
    for replies in [[a, c, b], [b, a, c], [b, c, a], [c, a, b], [c, b, a]] {
        if order(entries, replies)? != answer {
            return None;
        }
    }
    Some(answer)
}

// What is said at the end, or none where anything went otherwise than 01 says: waiting until the last reply, every second copy refused.
fn order(entries: usize, replies: [&[u8]; 3]) -> Option<Said> {
    let mut store = [0u8; 2048];
    let mut desk = desk_fresh();
    desk_open(&mut desk, b"\xff\x00\x00", entries, 1).ok()?;
    for reply in replies {
        if desk_ask(&desk, &store) != Ok(Said::Waiting) {
            return None;
        }
        desk_accept(&mut desk, &mut store, reply).ok()?;
        if desk_accept(&mut desk, &mut store, reply) != Err(Refusal::AlreadyHeard) {
            return None;
        }
    }
    desk_ask(&desk, &store)
        .ok()
        .filter(|said| *said != Said::Waiting)
}
