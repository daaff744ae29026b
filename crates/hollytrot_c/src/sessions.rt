// Exports for a session, a value that the caller holds: each call returns the session after it.
ghost use Rattle.std.specs.Prelude.{◌≡◌};
ghost use Rattle.session.specs.Sessions.{session_limits, fresh_session, take_of, abandon_of, finish_of};
ghost use Rattle.session.specs.Runs.{run_of};
ghost use Rattle.hollytrot.specs.Forms.{c_take_result_of, c_run_result_of};

use board::Board;
use hollytrot::{CRunResult, CTakeResult};
use session::{Limits, Session};

#[unsafe(no_mangle)]
pub extern "C" fn hollytrot_session_limits() -> Limits
    ensures { result ≡ session_limits }
{
    hollytrot::hollytrot_session_limits()
}

#[unsafe(no_mangle)]
pub extern "C" fn hollytrot_session_new() -> Session
    ensures { result ≡ fresh_session }
{
    hollytrot::hollytrot_session_new()
}

#[unsafe(no_mangle)]
pub extern "C" fn hollytrot_session_take(
    session: Session,
    rec: &[u8],
    agreed: &[u64],
) -> CTakeResult
    ensures { result ≡ c_take_result_of (take_of agreed.now session rec.now) }
{
    hollytrot::hollytrot_session_take(session, rec, agreed)
}

#[unsafe(no_mangle)]
pub extern "C" fn hollytrot_session_run(
    session: Session,
    bytes: &[u8],
    more: bool,
    agreed: &[u64],
) -> CRunResult
    ensures { result ≡ c_run_result_of (run_of agreed.now session more bytes.now) }
{
    hollytrot::hollytrot_session_run(session, bytes, more, agreed)
}

#[unsafe(no_mangle)]
pub extern "C" fn hollytrot_session_abandon(session: Session) -> Session
    ensures { result ≡ abandon_of session }
{
    hollytrot::hollytrot_session_abandon(session)
}

#[unsafe(no_mangle)]
pub extern "C" fn hollytrot_session_finish(session: Session) -> CTakeResult
    ensures { result ≡ c_take_result_of (finish_of session) }
{
    hollytrot::hollytrot_session_finish(session)
}

#[unsafe(no_mangle)]
pub extern "C" fn hollytrot_session_board(session: Session) -> Board
    ensures { result ≡ session.shown }
{
    hollytrot::hollytrot_session_board(session)
}
