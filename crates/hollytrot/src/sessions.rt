// Exports for a session, a value that the caller holds: each call returns the session after it.
ghost use Rattle.std.specs.Prelude.{◌≡◌};
ghost use Rattle.answer.specs.Answers.{answer_of, state_behind};
ghost use Rattle.session.specs.Sessions.{session_limits, fresh_session, take_of, abandon_of, finish_of};
ghost use Rattle.session.specs.Runs.{run_of};
ghost use Rattle.hollytrot.specs.Forms.{c_answer_of, c_take_result_of, c_run_result_of};

use crate::{CAnswer, CRunResult, CTakeResult};
use answer::Refusal;
use board::Board;
use session::{Limits, Session};

// The limits of every session, in one value: a constant cannot be exported.
#[unsafe(no_mangle)]
pub extern "C" fn hollytrot_session_limits() -> Limits
    ensures { result ≡ session_limits }
{
    Session::limits()
}

// A session with no file open and an empty board.
#[unsafe(no_mangle)]
pub extern "C" fn hollytrot_session_new() -> Session
    ensures { result ≡ fresh_session }
{
    Session::new()
}

// Takes one record, of any bytes and any length, with CR and LF behind it in a lined file. A refusal, first of all that
// of the list, returns the given session. The list is that of this record alone.
#[unsafe(no_mangle)]
pub extern "C" fn hollytrot_session_take(
    session: Session,
    rec: &[u8],
    agreed: &[u64],
) -> CTakeResult
    ensures { result ≡ c_take_result_of (take_of agreed.now session rec.now) }
{
    c_take_result(session, session.take(rec, agreed))
}

// Takes records that follow each other, each with CR and LF behind it in a lined file, up to the first refused one;
// those before it are kept. If `more` bytes are to follow, nothing is taken once fewer than 152 are left: the caller
// puts them in front of what follows. Else a rest of fewer than 150 bytes is refused 1, and one of 150 or 151 in a
// lined file is a record without its line end. No bytes are accepted and change nothing. The list is judged once: under
// a wrong one nothing is taken, whatever the bytes.
#[unsafe(no_mangle)]
pub extern "C" fn hollytrot_session_run(
    session: Session,
    bytes: &[u8],
    more: bool,
    agreed: &[u64],
) -> CRunResult
    ensures { result ≡ c_run_result_of (run_of agreed.now session more bytes.now) }
{
    let ran = session.run(bytes, more, agreed);
    let answer = ran.answer;
    let after = ran.session;
    CRunResult {
        answer: CAnswer::from(answer),
        session: after,
        records: ran.records,
        files: ran.files,
        bytes: ran.bytes,
    }
}

// The session without its open file; the given session if no file is open.
#[unsafe(no_mangle)]
pub extern "C" fn hollytrot_session_abandon(session: Session) -> Session
    ensures { result ≡ abandon_of session }
{
    session.abandon()
}

// The end of the input: refused (19) while a file is open. The session is the given one in either case.
#[unsafe(no_mangle)]
pub extern "C" fn hollytrot_session_finish(session: Session) -> CTakeResult
    ensures { result ≡ c_take_result_of (finish_of session) }
{
    c_take_result(session, session.finish())
}

// The board shown, of accepted files only. It is the session's member `shown`.
#[unsafe(no_mangle)]
pub extern "C" fn hollytrot_session_board(session: Session) -> Board
    ensures { result ≡ session.shown }
{
    session.shown
}

// A refusal returns the given session.
fn c_take_result(given: Session, taken: Result<Session, Refusal>) -> CTakeResult
    ensures { result ≡ record { answer = c_answer_of (answer_of taken); session = state_behind given taken } }
{
    CTakeResult {
        answer: CAnswer::from(taken.map(|_| ())),
        session: taken.unwrap_or(given),
    }
}
