// Many records of one slice, in one call.
ghost use Rattle.std.specs.Prelude.{◌≡◌, ◌≤◌};
ghost use Rattle.session.specs.Runs.{files_closed, run_under, run_of};

use crate::{RunResult, Session, ends};
use layout::Record;

// How many files an accepted record of this kind closes.
fn files_closed(named: Option<Record>) -> u64
    ensures value { result ≡ files_closed named }
    ensures small { result ≤ 1 }
{
    match named {
        Some(Record::Trailer) => 1,
        _ => 0,
    }
}

impl Session {
    // The run under a list that was judged.
    fn run_judged(self, bytes: &[u8], more: bool, agreed: &[u64]) -> RunResult
        ensures { result ≡ run_under agreed.now self more bytes.now }
    {
        let mut session = self;
        let mut answer = Ok(());
        let mut records: u64 = 0;
        let mut files: u64 = 0;
        let mut at: usize = 0;
        // No `for`: how long a piece is, is known only behind the one before it.
        loop {
            let paid = session.take_leading_payments(&bytes[at..], more, agreed);
            let work = paid.work;
            let file = paid.progress.file;
            session.work = work;
            session.file = file;
            records += paid.progress.records;
            at += paid.progress.at;
            if bytes.len() - at < ends::least_left(more) {
                break;
            }
            let end = at + ends::cut_length(session.opened, session.file.lined, &bytes[at..]);
            match session.take_judged(&bytes[at..end], agreed) {
                Ok(next) => session = next,
                Err(refusal) => {
                    answer = Err(refusal);
                    break;
                }
            }
            files += files_closed(layout::named_by(bytes[at]));
            records += 1;
            at = end;
        }
        RunResult {
            answer,
            session,
            records,
            files,
            bytes: at,
        }
    }

    // Takes records one after the other, up to the first refusal or the end: each 150 bytes, or 152 in a lined file,
    // one whose header is followed by CR and LF. If `more` bytes are to follow, it takes nothing once fewer than 152
    // are left: hand what is left, at the front of what follows, to the next run. Else the last piece may be shorter,
    // and is refused as `take` refuses it. The same as one `take` each, but faster (leading.rt), and the list is judged
    // once: under a wrong one the run is refused 25 and takes nothing. No bytes: accepted, no records.
    pub fn run(self, bytes: &[u8], more: bool, agreed: &[u64]) -> RunResult
        ensures { result ≡ run_of agreed.now self more bytes.now }
    {
        let list = barcode::check_list(agreed);
        match list {
            Ok(()) => self.run_judged(bytes, more, agreed),
            Err(_) => RunResult {
                answer: list,
                session: self,
                records: 0,
                files: 0,
                bytes: 0,
            },
        }
    }
}
