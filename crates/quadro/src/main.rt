// quadro reads return files from standard input, and prints the page of the board shown at the input's end or at the
// first refusal (SPEC.md, "The program quadro"). A day is the run over all input so far.
#![tactic(auto)]

ghost use Rattle.std.specs.Prelude.{◌≡◌, ◌-◌, ◌≤◌, length, take, drop};
ghost use Rattle.answer.specs.Answers.{Accepted};
ghost use Rattle.day.specs.Days.{fresh_day, run_buffer_of, ended_of};
ghost use Rattle.day.specs.Inputs.{page_of_day};
ghost use Rattle.quadro.specs.Buffers.{buffer_length, most_kept, buffer_read, EndsBelow};
ghost use Rattle.quadro.specs.Buffers.{most_before, most_counted, Counted, Grown};
ghost use Rattle.quadro.specs.Turns.{has_more, full_turn_of, BufferAfter, TurnRun};
ghost use Rattle.quadro.specs.Inputs.{InputRun, OverIsTheInputs};
ghost use Rattle.page.specs.Pages.{page_length};

use session::{RunResult, Session};
use std::io::{Cursor, Read, Stdin, Write};
use std::{io, str};

const SIZE: usize = 65536;

// No contract says that an input ends, so the turns are counted: each but the last reads at least SIZE - 151 bytes, and
// 2^60 bytes are more than any input has.
const TURNS: u64 = 17632813406850;

// No error's text is longer.
const TEXT: usize = 320;

// Reads until the buffer is full, the input ends or a read fails, and returns how many bytes were read: fewer than the
// buffer has if the input ended.
#[tactic(auto, using(crate::proofs::Buffers::read_within))]
fn read_buffer(input: &mut Stdin, buf: &mut [u8]) -> io::Result<usize>
    ensures { EndsBelow (length buf.old) (buffer_read (length buf.old) result) }
{
    // No `for`: how far a read comes is known only behind it. No `read_exact`: it does not say how many bytes an input
    // has.
    let mut n: usize = 0;
    while n < buf.len() {
        match input.read(&mut buf[n..])? {
            0 => break,
            more => n += more,
        }
    }
    Ok(n)
}

// The same behind the first `kept` bytes of the buffer, which stay.
#[tactic(auto, using(crate::proofs::Buffers::ends_behind))]
fn read_behind(input: &mut Stdin, buf: &mut [u8], kept: usize) -> io::Result<usize>
    requires { kept ≤ length buf.old }
    ensures ends_below { EndsBelow (length buf.old - kept) (buffer_read (length buf.old - kept) result) }
    ensures left { take kept buf.new ≡ take kept buf.old }
{
    read_buffer(input, &mut buf[kept..])
}

// A day with no input yet.
fn fresh_day() -> RunResult
    ensures { result ≡ fresh_day }
{
    RunResult {
        answer: Ok(()),
        session: Session::new(),
        records: 0,
        files: 0,
        bytes: 0,
    }
}

// The day after the first n bytes of a buffer, with no agreed issuers; more bytes may follow them, or they are the
// last.
#[tactic(auto, using(crate::proofs::Buffers::few_run))]
fn run_buffer(day: RunResult, buf: &[u8], n: usize, more: bool) -> RunResult
    requires { Counted most_counted day × (n ≤ buffer_length) × (n ≤ length buf.now) }
    ensures value { result ≡ run_buffer_of day more (take n buf.now) }
    ensures bounded { Grown day result }
{
    let ran = day.session.run(&buf[..n], more, &[]);
    RunResult {
        records: day.records + ran.records,
        files: day.files + ran.files,
        bytes: day.bytes + ran.bytes,
        ..ran
    }
}

// The day after the input's end: refused while a file is open, unless it was refused before.
fn finish_day(day: RunResult) -> RunResult
    ensures { result ≡ ended_of day }
{
    RunResult {
        answer: day.answer.and(day.session.finish().and(Ok(()))),
        ..day
    }
}

// How a turn ended: more input may follow, the day is over, or a read failed, and why. It is no `io::Result`: of a turn
// that failed too the contracts name the day so far.
#[derive(Clone, Copy)]
pub enum TurnEnd {
    More,
    Over,
    Failed(io::Error),
}

// The day after a turn, and how many bytes at the buffer's front the turn left for the next: 0 if there is none.
#[derive(Clone, Copy)]
pub struct TurnResult {
    pub end: TurnEnd,
    pub day: RunResult,
    pub kept: usize,
}

// Moves the buffer's bytes from this index on to its front, in order, and returns how many they are. The places that
// are written may overlap those that are read.
fn move_to_front(buf: &mut [u8], from: usize) -> usize
    requires { from ≤ length buf.old }
    ensures value { result ≡ length buf.old - from }
    ensures moved { take result buf.new ≡ drop from buf.old }
{
    buf.copy_within(from.., 0);
    buf.len() - from
}

// Runs a full buffer, and moves what the run leaves to its front, unless it is refused.
#[tactic(auto, using(crate::proofs::Turns::taken_here))]
fn run_full_buffer(day: RunResult, buf: &mut [u8]) -> TurnResult
    requires { Counted most_counted day × (length buf.old ≤ buffer_length) }
    ensures value { result ≡ full_turn_of day buf.old }
    ensures moved { BufferAfter day buf.old result buf.new }
    ensures bounded { Grown day result.day }
{
    let next = run_buffer(day, buf, buf.len(), true);
    match next.answer {
        Ok(()) => TurnResult {
            end: TurnEnd::More,
            day: next,
            kept: move_to_front(buf, next.bytes - day.bytes),
        },
        Err(_) => TurnResult {
            end: TurnEnd::Over,
            day: next,
            kept: 0,
        },
    }
}

// The next turn: fills the buffer behind the bytes that the turn before left, and runs its bytes. It takes the array,
// so that its length is known in the caller's loop.
fn run_next_buffer(input: &mut Stdin, turn: TurnResult, buf: &mut [u8; SIZE]) -> TurnResult
    requires { Counted most_counted turn.day × (turn.kept ≤ most_kept) }
    ensures turn_run { TurnRun turn.day (take turn.kept buf.old) result buf.new }
    ensures bounded { Grown turn.day result.day }
{
    let day = turn.day;
    let kept = turn.kept;
    match read_behind(input, buf, kept) {
        Ok(n) if kept + n < SIZE => TurnResult {
            end: TurnEnd::Over,
            day: finish_day(run_buffer(day, buf, kept + n, false)),
            kept: 0,
        },
        Ok(_) => run_full_buffer(day, buf),
        Err(error) => TurnResult {
            end: TurnEnd::Failed(error),
            day,
            kept: 0,
        },
    }
}

fn has_more(end: TurnEnd) -> bool
    ensures { result ≡ has_more end }
{
    matches!(end, TurnEnd::More)
}

// The last turn over the input, which this day runs: at the input's end, at the first refusal or failed read, or after
// 2^60 bytes. The buffer is the caller's, so that the contract can speak of the last bytes in it.
fn run_turns(input: &mut Stdin, day: RunResult, buf: &mut [u8; SIZE]) -> TurnResult
    requires { Counted most_before day × (day.answer ≡ Accepted) }
    ensures { InputRun day buf.new result }
{
    let mut turn = TurnResult {
        end: TurnEnd::More,
        day,
        kept: 0,
    };
    for _ in 0..TURNS {
        turn = run_next_buffer(input, turn, buf);
        if !has_more(turn.end) {
            return turn;
        }
    }
    turn
}

// The same for a day with no input before. If it is over, it is the day of all bytes that were read.
fn run_input(input: &mut Stdin, buf: &mut [u8; SIZE]) -> TurnResult
    ensures run { InputRun fresh_day buf.new result }
    ensures over { OverIsTheInputs }
{
    run_turns(input, fresh_day(), buf)
}

// Writes the page of a day from the buffer's start and returns its length.
fn put_page(day: RunResult, out: &mut [u8; page::PAGE]) -> usize
    ensures out_after { take result out.new ≡ page_of_day day }
    ensures bounded { (result ≤ page_length) × (length out.new ≡ page_length) }
{
    let number = u64::from(answer::number(day.answer));
    let place = answer::place(day.answer);
    let board = day.session.shown;
    page::print(number, place, day.records, day.files, board, out).unwrap()
}

// A failure is one line on standard error, with the system's reason in its own words: std puts the error's number
// behind them, in brackets. If the line can't be written either, there is nowhere left to say so.
fn print_failure(rt: &HostRuntime, stream: &str, error: io::Error) {
    let mut text = Cursor::new([0u8; TEXT]);
    let _ = write!(text, "{error}");
    let length = (text.position() as usize).min(TEXT);
    let all = str::from_utf8(&text.get_ref()[..length]).unwrap_or("");
    let reason = match all.split_once(" (os error ") {
        Some((words, _)) => words,
        None => all,
    };
    let _ = eprintln!(rt; "quadro: standard {stream}: {reason}");
}

// No contract of the libraries says which bytes a write takes, so none can be stated here; the bytes handed to it are
// those of `put_page`.
fn print_page(rt: &HostRuntime, day: RunResult) {
    let mut page = [0u8; page::PAGE];
    let length = put_page(day, &mut page);
    if let Err(error) = rt.write_all(&page[..length]) {
        print_failure(rt, "output", error);
    }
}

fn main(rt: HostRuntime) {
    let mut buf = [0u8; SIZE];
    let last = run_input(&mut rt.stdin(), &mut buf);
    match last.end {
        TurnEnd::Over => print_page(&rt, last.day),
        TurnEnd::Failed(error) => print_failure(&rt, "input", error),
        TurnEnd::More => {
            let _ = eprintln!(rt; "quadro: more than 2^60 bytes of input");
        }
    }
}
