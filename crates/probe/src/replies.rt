// What the refusing calls reply to C: an answer by its numbers, and what is handed out beside it.
ghost use Rattle.std.specs.Prelude.{◌≡◌};
ghost use Rattle.probe.specs.Replies.{told_numbers_of, parted_of, reply_of};

use answers::{Answer, Refusal};

// The three numbers of an answer: `answers::Reported` as C lays it out.
#[repr(C)]
#[derive(Clone, Copy)]
pub struct Told {
    pub number: u32,
    pub buffer: u32,
    pub place: u32,
}

// A number. Each type that is handed out has a reply of its own, since C has no type parameters.
#[repr(C)]
#[derive(Clone, Copy)]
pub struct Reply {
    pub told: Told,
    pub value: f32,
}

impl From<Answer> for Told {
    ghost from_gives = { λ answer told. told ≡ told_numbers_of answer };

    fn from(answer: Answer) -> Self {
        let told = answers::report(answer);
        Self {
            number: told.number,
            buffer: told.buffer,
            place: told.place,
        }
    }
}

// An answer by its numbers, and what is handed out beside it; the other value beside a refusal.
pub fn parted<T: Copy>(handed: Result<T, Refusal>, none: T) -> (Told, T)
    ensures { result ≡ parted_of handed none }
{
    match handed {
        Ok(value) => (Told::from(Ok(())), value),
        Err(refusal) => (Told::from(Err(refusal)), none),
    }
}

// A number, and 0 beside a refusal.
impl From<Result<f32, Refusal>> for Reply {
    ghost from_gives = { λ handed reply. reply ≡ reply_of handed };

    fn from(handed: Result<f32, Refusal>) -> Self {
        let (told, value) = parted(handed, 0.0);
        Self { told, value }
    }
}
