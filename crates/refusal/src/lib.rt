// Refusals.
#![tactic(auto)]

ghost use Rattle.std.specs.Prelude.{◌≡◌};
ghost use Rattle.refusal.specs.Judge.{outside, number_of, index_of};

// Why a call is refused: 16 is not here, since it tells how many trials were made.
#[derive(Clone, Copy, Debug, PartialEq, Eq)]
pub enum Refusal {
    // 1: a description has fewer bytes than the fields of its kind.
    FieldsMissing,
    // 2: the length field of a description differs from its number of bytes.
    LengthField,
    // 3: no kind of description.
    UnknownKind,
    // 4: n outside 3..12.
    CodeLength,
    // 5: the mask has not N bits.
    MaskLength,
    // 6: r outside 1..16.
    CheckLength,
    // 7: bit 0 of the polynomial is clear, or a bit at r or above is set.
    Polynomial,
    // 8: no payload bit: K is less than r + 1.
    NoPayload,
    // 9: the payload has not the bytes of k bits.
    PayloadLength,
    // 10: an unused bit of the payload is set.
    UnusedBit,
    // 11: the output of the encoder has not N bits.
    CodewordLength,
    // 12: the channel has not N values.
    ChannelLength,
    // 13: a channel value lies outside −31..31, at this index first.
    ChannelValue(usize),
    // 14: the trial limit is outside its range.
    TrialLimit,
    // 15: the output of a decoder has not the bytes of k bits.
    OutputLength,
    // 17: the prefix has more than N bits.
    PrefixLength,
    // 18: a byte of the prefix is no bit that may stand there, at this index first.
    PrefixBit(usize),
    // 19: the output of resume has not N bytes.
    BitsLength,
    // 20: samples and output differ in length.
    SamplesLength,
    // 21: the scale is not finite, or not above zero.
    Scale,
    // 22: a sample is not a number, at this index first.
    NotANumber(usize),
    // 23: no description is held.
    NoDescription,
    // 24: a record of channel values ends before its trial limit does.
    ShortRecord,
    // 25: a bit of the start value at r or above is set.
    StartValue,
    // 26: the most flips of a trial are outside 1..3.
    FlipCount,
    // 27: a hearing has as many vectors as it can count.
    HearingFull,
    // 40: the buffer holds no state that a list of calls leaves.
    NotAState,
}

impl Refusal {
    // The number of a refusal.
    pub fn number(self) -> u8
        ensures { result ≡ number_of self }
    {
        match self {
            Refusal::FieldsMissing => 1,
            Refusal::LengthField => 2,
            Refusal::UnknownKind => 3,
            Refusal::CodeLength => 4,
            Refusal::MaskLength => 5,
            Refusal::CheckLength => 6,
            Refusal::Polynomial => 7,
            Refusal::NoPayload => 8,
            Refusal::PayloadLength => 9,
            Refusal::UnusedBit => 10,
            Refusal::CodewordLength => 11,
            Refusal::ChannelLength => 12,
            Refusal::ChannelValue(_) => 13,
            Refusal::TrialLimit => 14,
            Refusal::OutputLength => 15,
            Refusal::PrefixLength => 17,
            Refusal::PrefixBit(_) => 18,
            Refusal::BitsLength => 19,
            Refusal::SamplesLength => 20,
            Refusal::Scale => 21,
            Refusal::NotANumber(_) => 22,
            Refusal::NoDescription => 23,
            Refusal::ShortRecord => 24,
            Refusal::StartValue => 25,
            Refusal::FlipCount => 26,
            Refusal::HearingFull => 27,
            Refusal::NotAState => 40,
        }
    }

    // The first index that a refusal names, if it names one.
    pub fn index(self) -> Option<usize>
        ensures { result ≡ index_of self }
    {
        match self {
            Refusal::ChannelValue(i) | Refusal::PrefixBit(i) | Refusal::NotANumber(i) => Some(i),
            _ => None,
        }
    }
}

// Whether a number lies outside least..most.
pub fn is_outside(x: usize, least: usize, most: usize) -> bool
    ensures { result ≡ outside x least most }
{
    x < least || most < x
}
