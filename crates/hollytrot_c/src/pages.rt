// Exports for the printed page.
ghost use Rattle.std.specs.Prelude.{◌≡◌};
ghost use Rattle.page.specs.Pages.{page_of, print_result_of, bytes_with};
ghost use Rattle.hollytrot.specs.Forms.{c_page_result_of};

use board::Board;
use hollytrot::{CAnswer, CPageResult};

#[unsafe(no_mangle)]
pub extern "C" fn hollytrot_page(
    answer: CAnswer,
    records: u64,
    files: u64,
    board: Board,
    out: &mut [u8],
) -> CPageResult
    ensures answer { result
        ≡ c_page_result_of
        (print_result_of (page_of answer.number answer.place records files board) out.old) }
    ensures bytes { out.new
        ≡ bytes_with (page_of answer.number answer.place records files board) out.old }
{
    hollytrot::hollytrot_page(answer, records, files, board, out)
}
