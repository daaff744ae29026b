// A board by value: a fresh one, and one payment posted.
ghost use Rattle.std.specs.Prelude.{◌≡◌};
ghost use Rattle.answer.specs.Answers.{◌gives◌, answer_of, state_behind};
ghost use Rattle.board.specs.Lanes.{lane_of_one};
ghost use Rattle.board.specs.Boards.{fresh_board, post_answer, board_with, post_result_of};

use crate::{Board, Lane, Slot, Tally};
use answer::{Reason, Refusal, require};
use barcode::Issuer;

impl Board {
    // An empty board: no lane in use, totals zero.
    pub fn new() -> Self
        ensures { result ≡ fresh_board }
    {
        Board {
            lanes: [Lane::default(); Self::LANES],
            used: 0,
            total: Tally::default(),
        }
    }

    // Posts one payment to its issuer's lane, a new one if it has none: the board with the payment, or 17 (a new issuer
    // and no lane left) or 18 (a number of the lane or of the total would pass the limit).
    #[tactic(auto, unfolding(crate::specs::Boards::slot_answer))]
    pub fn post(mut self, issuer: Issuer, centavos: u64, tariff: u64) -> Result<Board, Refusal>
        ensures answer { result ≡ (post_answer self (lane_of_one issuer centavos tariff)
            gives board_with self (lane_of_one issuer centavos tariff)) }
        ensures kept { post_result_of self (lane_of_one issuer centavos tariff)
            ≡ record { answer = answer_of result; board = state_behind self result } }
    {
        let at = self.lane_index(issuer);
        require(at < Self::LANES, Reason::BoardFull, answer::ISSUER_PLACE)?;
        let lane = self.lanes[at];
        let total = self.total;
        let slot = Slot {
            at,
            lane,
            used: self.used,
            total,
        };
        let after = slot.post(Lane::of_payment(issuer, centavos, tariff))?;
        self.lanes[at] = after.lane;
        self.used = after.used;
        self.total = after.total;
        Ok(self)
    }
}
