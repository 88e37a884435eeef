// What a call refuses, by the table of docs/FORMATS.md, and the three numbers in which C is told.
#![tactic(auto)]

ghost use Rattle.std.specs.Prelude.{◌≡◌};
ghost use Rattle.answers.specs.Answers.{alone_of, buffer_number_of, reported_of, report_of, first_of, unless_of};

// The lent buffer in which an unusable entry stands.
#[derive(Clone, Copy, Debug, PartialEq, Eq)]
pub enum Buffer {
    Bundle,
    Curves,
}

// A refusal by its cause. A run that turns back at an event has written the samples and the state before that event, and nothing else.
#[derive(Clone, Copy, Debug, PartialEq, Eq)]
pub enum Refusal {
    // The bundle is not 6,127,736 bytes long. Everything is left as it was.
    BundleLength,
    // The bundle's header first differs at this byte. Everything is left as it was.
    Header { place: u32 },
    // An entry that is read, or on opening any, is unusable: the first one in the Rust's reading order starts at this byte. Everything is left as it was.
    Entry { buffer: Buffer, place: u32 },
    // The curve buffer is not 254,076 bytes long. Everything is left as it was.
    CurvesLength,
    // The input sum or the source energy is not finite. The state is left as it was.
    InputNotFinite,
    // A number of the state, an output, a control, a direct call's result or a sum of voices would not be finite. The state is left as it was.
    Domain,
    // The script's length, offset or count, an event's kind or its zero bytes are wrong. Everything is left as it was.
    Script,
    // The output is shorter than 16 bytes for each sample event. Everything is left as it was.
    OutputLength,
    // The state block is invalid, an index is past its table, or a direct argument is not finite. Everything is left as it was.
    Argument,
    // The voices or the numbers lent beside them have a wrong length, a number that is not finite, a flag above 1, a last byte that is not zero or a selection
    // above 15. Everything is left as it was.
    Sources,
    // The lent decays and tracking are not six numbers from 0 to 1. Everything is left as it was.
    Decays,
}

// What a call answers that has nothing to hand out: done, or its refusal.
pub type Answer = Result<(), Refusal>;

// An answer by its number: 0 is done, and a buffer or a place that the table of refusals does not name is 0.
#[derive(Clone, Copy, Debug, PartialEq, Eq)]
pub struct Reported {
    pub number: u32,
    pub buffer: u32,
    pub place: u32,
}

impl Reported {
    fn alone(number: u32) -> Self
        ensures { result ≡ alone_of number }
    {
        Self {
            number,
            buffer: 0,
            place: 0,
        }
    }
}

fn buffer_number(b: Buffer) -> u32
    ensures { result ≡ buffer_number_of b }
{
    match b {
        Buffer::Bundle => 0,
        Buffer::Curves => 1,
    }
}

// The rows of the table.
impl From<Refusal> for Reported {
    ghost from_gives = { λ refusal reported. reported ≡ reported_of refusal };

    fn from(refusal: Refusal) -> Self {
        match refusal {
            Refusal::BundleLength => Self::alone(1),
            Refusal::Header { place } => Self {
                number: 2,
                buffer: 0,
                place,
            },
            Refusal::Entry { buffer, place } => Self {
                number: 3,
                buffer: buffer_number(buffer),
                place,
            },
            Refusal::CurvesLength => Self::alone(4),
            Refusal::InputNotFinite => Self::alone(5),
            Refusal::Domain => Self::alone(6),
            Refusal::Script => Self::alone(7),
            Refusal::OutputLength => Self::alone(8),
            Refusal::Argument => Self::alone(10),
            Refusal::Sources => Self::alone(11),
            Refusal::Decays => Self::alone(12),
        }
    }
}

// The three numbers of an answer.
pub fn report(answer: Answer) -> Reported
    ensures { result ≡ report_of answer }
{
    match answer {
        Ok(()) => Reported::alone(0),
        Err(refusal) => refusal.into(),
    }
}

// The first of two answers if it refuses, else the second.
pub fn first(a: Answer, b: Answer) -> Answer
    ensures { result ≡ first_of a b }
{
    a.and(b)
}

// Done if the test held, else its refusal.
pub fn unless(ok: bool, refusal: Refusal) -> Answer
    ensures { result ≡ unless_of ok refusal }
{
    if ok { Ok(()) } else { Err(refusal) }
}
