// What a call answers: accepted, or one refusal with its place.
#![tactic(auto)]

ghost use Rattle.std.specs.Prelude.{◌≡◌};
ghost use Rattle.answer.specs.Refusals.{reason_number, answer_number, answer_place};
ghost use Rattle.answer.specs.Orders.{require, ◌then◌, moved_by, capped_behind};

// Why something is refused (SPEC.md, "Refusals"). The order of the variants means nothing.
//
// A new reason changes together: this enum, `Reason::number`, and `reason_number` in specs/Refusals.antt; the proof of
// `Reason::number` gets a line in each of its two lists. No other proof lists the reasons: that their numbers differ is
// computed over the enum as it is declared (proofs/Refusals.antt).
#[derive(Clone, Copy, Debug, PartialEq, Eq)]
pub enum Reason {
    WrongLength,
    NoDigit,
    WrongProduct,
    UnknownSegment,
    UnknownKind,
    WrongBoxCheck,
    WrongGeneralCheck,
    NoText,
    NotExpected,
    FixedDiffers,
    NoDate,
    UnknownCode,
    CountDiffers,
    TotalDiffers,
    FileFull,
    FileTotalPassed,
    BoardFull,
    BoardTotalPassed,
    FileOpen,
    TooWide,
    NoLineEnd,
    WrongList,
    NotFollowing,
    PairsFull,
}

// The places of a payment record, G, that refusals 16 to 18 point at: its received centavos, its tariff, and the issuer
// in its barcode.
pub const RECEIVED_PLACE: usize = 82;

pub const TARIFF_PLACE: usize = 94;

pub const ISSUER_PLACE: usize = 53;

// The places of a header, A, that refusals 26 and 27 point at: its sequence number, and its agreement.
pub const SEQUENCE_PLACE: usize = 74;

pub const AGREEMENT_PLACE: usize = 3;

// Why something is refused, and where. A place counts from 1 in what was read; it is 0 where a refusal has none.
#[derive(Clone, Copy, Debug, PartialEq, Eq)]
pub struct Refusal {
    pub why: Reason,
    pub place: usize,
}

// Accepted, or one refusal.
pub type Answer = Result<(), Refusal>;

impl Reason {
    // The refusal's number in SPEC.md, "Refusals". No two reasons have the same, and none has 0. 20 is retired.
    pub fn number(self) -> u8
        ensures { result ≡ reason_number self }
    {
        match self {
            Reason::WrongLength => 1,
            Reason::NoDigit => 2,
            Reason::WrongProduct => 3,
            Reason::UnknownSegment => 4,
            Reason::UnknownKind => 5,
            Reason::WrongBoxCheck => 6,
            Reason::WrongGeneralCheck => 7,
            Reason::NoText => 8,
            Reason::NotExpected => 9,
            Reason::FixedDiffers => 10,
            Reason::NoDate => 11,
            Reason::UnknownCode => 12,
            Reason::CountDiffers => 13,
            Reason::TotalDiffers => 14,
            Reason::FileFull => 15,
            Reason::FileTotalPassed => 16,
            Reason::BoardFull => 17,
            Reason::BoardTotalPassed => 18,
            Reason::FileOpen => 19,
            Reason::TooWide => 21,
            Reason::NoLineEnd => 22,
            Reason::WrongList => 25,
            Reason::NotFollowing => 26,
            Reason::PairsFull => 27,
        }
    }
}

fn place_behind(before: usize, place: usize) -> usize
    ensures { result ≡ capped_behind before place }
{
    if place == 0 {
        return 0;
    }
    place.saturating_add(before)
}

impl Refusal {
    // A refusal of a part as one of the whole, where `before` bytes come before the part: the place is so much larger.
    // A refusal without a place gets none, and a place past usize::MAX stays there.
    pub fn behind(self, before: usize) -> Refusal
        ensures { result ≡ record { why = self.why; place = capped_behind before self.place } }
    {
        Refusal {
            place: place_behind(before, self.place),
            ..self
        }
    }
}

// Refused for this reason at this place, unless the test holds.
pub fn require(ok: bool, why: Reason, place: usize) -> Answer
    ensures { result ≡ require ok why place }
{
    if ok {
        Ok(())
    } else {
        Err(Refusal { why, place })
    }
}

// The first refusal of two answers; accepted if neither is one.
pub fn first_refusal(first: Answer, second: Answer) -> Answer
    ensures { result ≡ first then second }
{
    first.and(second)
}

// The refusal's number; 0 where it is accepted.
pub fn number(answer: Answer) -> u8
    ensures { result ≡ answer_number answer }
{
    match answer {
        Ok(()) => 0,
        Err(refusal) => refusal.why.number(),
    }
}

// The refusal's place, 0 where it has none; 0 where it is accepted.
pub fn place(answer: Answer) -> usize
    ensures { result ≡ answer_place answer }
{
    match answer {
        Ok(()) => 0,
        Err(refusal) => refusal.place,
    }
}

// An answer about a part as an answer about the whole, where `before` bytes come before the part: see
// `Refusal::behind`.
pub fn behind(answer: Answer, before: usize) -> Answer
    ensures { result ≡ moved_by (capped_behind before) answer }
{
    answer.map_err(|refusal| refusal.behind(before))
}
