// One lane: sums within the limit, and a payment posted to a slot.
ghost use Rattle.std.specs.Prelude.{◌&&◌, ◌≡◌, ◌+◌, ◌≤◌, ◌<◌, leb};
ghost use Rattle.answer.specs.Answers.{◌gives◌, answer_of, state_behind};
ghost use Rattle.board.specs.Lanes.{limit, most_lanes, plus, is_lane_of, lane_of_one};
ghost use Rattle.board.specs.Boards.{own_of, used_after, grown_slot, sums_answer, slot_answer, slot_result_of};

use crate::{Board, Lane, Slot, Tally};
use answer::{Answer, Reason, Refusal, require};
use barcode::Issuer;

// Whether two sums stay within the limit when `more` is added to each. The sums themselves are not made: they might not
// fit 64 bits.
fn have_room(lane: u64, total: u64, more: u64) -> bool
    ensures { result ≡ (leb (lane + more) limit && leb (total + more) limit) }
{
    if Board::TOTAL < more {
        return false;
    }
    let most = Board::TOTAL - more;
    lane <= most && total <= most
}

impl Tally {
    fn plus(self, more: Tally) -> Tally
        requires { (self.payments + more.payments ≤ limit) × (self.centavos + more.centavos ≤ limit)
            × (self.tariff + more.tariff ≤ limit) }
        ensures { result ≡ plus self more }
    {
        Tally {
            payments: self.payments + more.payments,
            centavos: self.centavos + more.centavos,
            tariff: self.tariff + more.tariff,
        }
    }
}

impl Lane {
    // A payment as a lane of one: its issuer, 1, the centavos and the tariff, whatever they are. Nothing is checked.
    pub fn of_payment(issuer: Issuer, centavos: u64, tariff: u64) -> Lane
        ensures { result ≡ lane_of_one issuer centavos tariff }
    {
        Lane {
            issuer,
            tally: Tally {
                payments: 1,
                centavos,
                tariff,
            },
        }
    }

    // Whether the lane is this issuer's: segment and number are equal. Says nothing of whether the lane is in use.
    pub fn is_of(self, issuer: Issuer) -> bool
        ensures { result ≡ is_lane_of issuer self }
    {
        self.issuer == issuer
    }
}

// 18 where a number of the lane or of the total, with `more` added, would pass the limit: for payments or centavos at
// the place of the received centavos, behind them for tariffs at that of the tariff.
#[tactic(auto, using(crate::proofs::Slots::sums_in_turn))]
fn check_sums(lane: Tally, total: Tally, more: Tally) -> Answer
    ensures { result ≡ sums_answer (plus lane more) (plus total more) }
{
    require(
        have_room(lane.payments, total.payments, more.payments),
        Reason::BoardTotalPassed,
        answer::RECEIVED_PLACE,
    )?;
    require(
        have_room(lane.centavos, total.centavos, more.centavos),
        Reason::BoardTotalPassed,
        answer::RECEIVED_PLACE,
    )?;
    require(
        have_room(lane.tariff, total.tariff, more.tariff),
        Reason::BoardTotalPassed,
        answer::TARIFF_PLACE,
    )
}

impl Slot {
    // The tally of the lane at the slot's index; zeros if the index is not in use.
    #[tactic(auto, unfolding(crate::specs::Boards::own_of))]
    fn own_tally(self) -> Tally
        ensures { result ≡ own_of self }
    {
        if self.at < self.used {
            let lane = self.lane;
            return lane.tally;
        }
        Tally::default()
    }

    // How many lanes are in use once the slot's is.
    fn used_after(self) -> usize
        requires { self.at < most_lanes }
        ensures { result ≡ used_after self }
    {
        if self.at < self.used {
            return self.used;
        }
        self.at + 1
    }

    // Posts a payment at the index of its issuer's lane, or of the first free lane: the slot with the payment, or 17
    // (the index is past the last lane) or 18 (a number of the lane or of the total would pass the limit). The caller
    // searches the index; the lane gets the payment's issuer whatever was there.
    #[tactic(auto, unfolding(crate::specs::Boards::slot_answer))]
    pub fn post(self, payment: Lane) -> Result<Slot, Refusal>
        ensures answer { result ≡ (slot_answer self payment gives grown_slot self payment) }
        ensures kept { slot_result_of self payment
            ≡ record { answer = answer_of result; slot = state_behind self result } }
    {
        require(
            self.at < Board::LANES,
            Reason::BoardFull,
            answer::ISSUER_PLACE,
        )?;
        let own = self.own_tally();
        let total = self.total;
        check_sums(own, total, payment.tally)?;
        let issuer = payment.issuer;
        Ok(Slot {
            at: self.at,
            lane: Lane {
                issuer,
                tally: own.plus(payment.tally),
            },
            used: self.used_after(),
            total: total.plus(payment.tally),
        })
    }
}
