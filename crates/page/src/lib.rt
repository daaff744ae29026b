// The printed page: an answer, two counts and the board shown, as lines `key=value` in the caller's buffer (SPEC.md,
// "Page"). A cursor over that buffer writes it piece by piece.
#![tactic(auto)]

ghost use Rattle.std.specs.Prelude.{◌≡◌, ◌+◌, ◌*◌, ◌≤◌, length, IfOk};
ghost use Rattle.answer.specs.Answers.{◌gives◌, answer_of, state_behind};
ghost use Rattle.board.specs.Lanes.{most_lanes};
ghost use Rattle.barcode.specs.Codes.{issuer};
ghost use Rattle.page.specs.Plain.{needed, shown};
ghost use Rattle.page.specs.Pages.{number_line, issuer_line, tally_lines, lane_lines, lanes_lines};
ghost use Rattle.page.specs.Pages.{page_of, most_lane, page_length, buffer_answer, print_result_of, bytes_with};
ghost use Rattle.page.specs.Pieces.{most_digits, most_line, most_issuer, most_tally, HasRoom, Printed};

use answer::{Reason, Refusal, require};
use barcode::Issuer;
use board::{Board, Lane, Tally};

// The length of the buffer that a page is written into: that of a page whose numbers all have 20 digits, of 64 lanes.
pub const PAGE: usize = 10657;

// How many digits a number has; none for 0.
fn digits_needed(n: u64) -> usize
    ensures counted { result ≡ needed n }
    ensures bounded { result ≤ most_digits }
{
    match n.checked_ilog10() {
        Some(log) => log as usize + 1,
        None => 0,
    }
}

// The caller's buffer, and the index behind what is written into it so far.
#[derive(Drop)]
struct Cursor<'a> {
    out: &'a mut [u8],
    at: usize,
}

impl Cursor<'_> {
    fn text(&mut self, text: &[u8])
        requires { HasRoom (length text.now) self.old }
        ensures { Printed (length text.now) text.now self.old self.new }
    {
        decimal::put(text, self.out, self.at);
        self.at += text.len();
    }

    // A number with zeros to a width; in full if it has more digits.
    fn shown(&mut self, n: u64, width: usize)
        requires { (width ≤ most_digits) × HasRoom most_digits self.old }
        ensures { Printed most_digits (shown width n) self.old self.new }
    {
        let width = width.max(digits_needed(n));
        let _ = decimal::put_number(n, width, self.out, self.at);
        self.at += width;
    }

    fn line(&mut self, word: &[u8], n: u64)
        requires { HasRoom (most_line word.now) self.old }
        ensures { Printed (most_line word.now) (number_line word.now n) self.old self.new }
    {
        self.text(word);
        self.shown(n, 1);
        self.text(b"\n");
    }

    fn issuer(&mut self, issuer: Issuer)
        requires { HasRoom most_issuer self.old }
        ensures { Printed most_issuer (issuer_line issuer) self.old self.new }
    {
        self.text(b"issuer=");
        self.shown(issuer.segment, 1);
        self.text(b"-");
        self.shown(issuer.number, barcode::issuer_width(issuer.segment));
        self.text(b"\n");
    }

    fn tally(&mut self, tally: Tally)
        requires { HasRoom most_tally self.old }
        ensures { Printed most_tally (tally_lines tally) self.old self.new }
    {
        self.line(b"payments=", tally.payments);
        self.line(b"centavos=", tally.centavos);
        self.line(b"tariff=", tally.tariff);
    }

    fn lane(&mut self, number: u64, lane: &Lane)
        requires { HasRoom most_lane self.old }
        ensures { Printed most_lane (lane_lines number lane.now) self.old self.new }
    {
        self.line(b"lane=", number);
        self.issuer(lane.issuer);
        self.tally(lane.tally);
    }

    // Lanes one after the other, numbered from 1.
    fn lanes(&mut self, lanes: &[Lane])
        requires { (length lanes.now ≤ most_lanes) × HasRoom (most_lanes * most_lane) self.old }
        ensures { Printed (most_lanes * most_lane) (lanes_lines 1 lanes.now) self.old self.new }
    {
        for (i, lane) in lanes.iter().enumerate() {
            self.lane(i as u64 + 1, lane);
        }
    }
}

// Writes the page from the buffer's start and returns its length; the bytes behind it stay as they were. Every number
// and place is printed as given, whether or not an answer has it, and of a board in an arbitrary state at most its 64
// lanes. A buffer that is not exactly PAGE bytes is refused (1 at place 0) and stays as it was.
pub fn print(
    number: u64,
    place: usize,
    records: u64,
    files: u64,
    board: Board,
    out: &mut [u8],
) -> Result<usize, Refusal>
    ensures value { result ≡ (buffer_answer out.old gives length (page_of number place records files board)) }
    ensures bytes { out.new ≡ bytes_with (page_of number place records files board) out.old }
    ensures zero { print_result_of (page_of number place records files board) out.old
        ≡ record { answer = answer_of result; length = state_behind 0 result } }
    ensures bounded { IfOk result (λ n. n ≤ page_length) }
{
    require(out.len() == PAGE, Reason::WrongLength, 0)?;
    let lanes = &board.lanes[..board::lanes_in_use(board.used)];
    let mut page = Cursor { out, at: 0 };
    page.line(b"answer=", number);
    page.line(b"place=", place as u64);
    page.line(b"record=", records);
    page.line(b"files=", files);
    page.line(b"lanes=", lanes.len() as u64);
    page.tally(board.total);
    page.lanes(lanes);
    Ok(page.at)
}
