// The register box as C calls it: each call hands on to the library's function of its name, and gives the numbers of what it answers.
#![tactic(auto)]

ghost use Rattle.std.specs.Prelude.{◌≡◌, MatchResult};
ghost use Rattle.fragment.specs.Lent.{lent};
ghost use Rattle.reader.specs.Read.{Read};
ghost use Rattle.listing.specs.Listing.{Lists};
ghost use Rattle.depot.specs.Answer.{call, Answered};
ghost use Rattle.reply.specs.Read.{Checks};
ghost use Rattle.desk.specs.Calls.{Opens, Accepts, Asks};
ghost use Rattle.desk.specs.Changed.{fresh_record};

use desk::Asked;
use question::List;
use whole::Record;

// The number of a refusal, 0 for none.
fn number_of<R: Into<u8>>(answer: Result<(), R>) -> u8
    ensures { MatchResult answer (λ _. result ≡ 0) (λ refusal. R.converts refusal result) }
{
    match answer {
        Ok(()) => 0,
        Err(refusal) => refusal.into(),
    }
}

#[unsafe(no_mangle)]
pub extern "C" fn question_read(text: &[u8]) -> reader::Answer
    ensures { Read text.now result }
{
    reader::question_read(text).into()
}

#[unsafe(no_mangle)]
pub extern "C" fn question_listing(list: List, text: &[u8], out: &mut [u8]) -> usize
    ensures { Lists list text.now out.old result out.new }
{
    listing::question_listing(list, text, out)
}

#[unsafe(no_mangle)]
pub extern "C" fn depot_reply(
    text: &[u8],
    list: List,
    rows: &[u32],
    pool: &[u8],
    fragment: u32,
    number: u32,
    work: &mut [u16],
    out: &mut [u8],
) -> depot::Answer
    ensures { Answered (call list text.now (lent rows.now pool.now) fragment number) work.old out.old result.refusal result.size work.new out.new }
{
    depot::depot_reply(text, list, rows, pool, fragment, number, work, out).into()
}

#[unsafe(no_mangle)]
pub extern "C" fn reply_check(bytes: &[u8]) -> u8
    ensures { Checks bytes.now result }
{
    number_of(reply::judging::reply_check(bytes))
}

#[unsafe(no_mangle)]
pub extern "C" fn desk_fresh() -> Record
    ensures { result ≡ fresh_record }
{
    desk::desk_fresh()
}

#[unsafe(no_mangle)]
pub extern "C" fn desk_open(desk: &mut Record, layout: &[u8], entries: usize, number: u32) -> u8
    ensures { Opens desk.old layout.now entries number result desk.new }
{
    number_of(desk::desk_open(desk, layout, entries, number))
}

#[unsafe(no_mangle)]
pub extern "C" fn desk_accept(desk: &mut Record, store: &mut [u8], reply: &[u8]) -> u8
    ensures { Accepts desk.old store.old reply.now result desk.new store.new }
{
    number_of(desk::desk_accept(desk, store, reply))
}

#[unsafe(no_mangle)]
pub extern "C" fn desk_ask(desk: &Record, store: &[u8]) -> Asked
    ensures { Asks desk.now store.now result.refusal result.said }
{
    desk::desk_ask(desk, store).into()
}
