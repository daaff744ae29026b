// Export for the printed page.
ghost use Rattle.std.specs.Prelude.{◌≡◌};
ghost use Rattle.page.specs.Pages.{page_of, print_result_of, bytes_with};
ghost use Rattle.hollytrot.specs.Forms.{c_page_result_of};

use crate::{CAnswer, CPageResult};
use board::Board;

// Writes the page of an answer, two counts and a board into `out`, 10657 bytes, and returns the page's length; the
// bytes behind it stay as they were. The answer's number and place are printed as given, even if no answer has them. A
// buffer of another length is refused (1 at place 0) and stays as it was.
#[unsafe(no_mangle)]
pub extern "C" fn hollytrot_page(
    answer: CAnswer,
    records: u64,
    files: u64,
    board: Board,
    out: &mut [u8],
) -> CPageResult
    ensures answer { result
        ≡ c_page_result_of
        (print_result_of (page_of answer.number answer.place records files board) out.old) }
    ensures bytes { out.new
        ≡ bytes_with (page_of answer.number answer.place records files board) out.old }
{
    let printed = page::print(answer.number, answer.place, records, files, board, out);
    CPageResult {
        answer: CAnswer::from(printed.map(|_| ())),
        length: printed.unwrap_or(0),
    }
}
