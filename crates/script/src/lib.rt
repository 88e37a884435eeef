// A run's script: its events, and the check that stands before the first of them.
#![tactic(auto)]

ghost use Rattle.std.specs.Prelude.{◌≡◌, ◌≤◌, drop};
ghost use Rattle.script.specs.Script.{sample_count_of, decode_event_of, event_at, slices_in, tally_of, check_script_of};

use answers::Refusal;

// What a run feeds to the filter: a register write with its value, a sample or a reset.
#[derive(Clone, Copy)]
pub enum Event {
    CutoffLow(u8),
    CutoffHigh(u8),
    Routing(u8),
    Mode(u8),
    Sample { input_sum: f32, source_energy: f32 },
    Reset,
}

// What the check of a script answers: how many events it has, and how many of them are samples.
#[derive(Clone, Copy)]
pub struct Checked {
    pub events: usize,
    pub samples: usize,
}

// The event of twelve bytes.
fn decode_event(bytes: &[u8]) -> Option<Event>
    ensures { result ≡ decode_event_of bytes.now }
{
    let tidy = (bytes.len() == 12)
        & (wire::byte_at(bytes, 2) == 0)
        & (wire::byte_at(bytes, 3) == 0);
    if !tidy {
        return None;
    }
    let value = wire::byte_at(bytes, 1);
    match wire::byte_at(bytes, 0) {
        0 => Some(Event::CutoffLow(value)),
        1 => Some(Event::CutoffHigh(value)),
        2 => Some(Event::Routing(value)),
        3 => Some(Event::Mode(value)),
        4 => Some(Event::Sample {
            input_sum: wire::f32_at(bytes, 4),
            source_energy: wire::f32_at(bytes, 8),
        }),
        5 => Some(Event::Reset),
        _ => None,
    }
}

// The event at a place of a script.
pub fn event_at(script: &[u8], place: usize) -> Option<Event>
    ensures { result ≡ event_at script.now place }
{
    if (script.len() < 12) || (script.len() - 12 < place) {
        return None;
    }
    decode_event(&script[place..place + 12])
}

// 1 for a sample, 0 for any other event.
fn sample_count(event: Event) -> usize
    ensures { result ≡ sample_count_of event }
{
    matches!(event, Event::Sample { .. }) as usize
}

// The events after the header, read one by one.
fn tally(script: &[u8], count: usize) -> Result<Checked, Refusal>
    requires { count ≤ 65536 }
    ensures { result ≡ tally_of count (slices_in count (drop 8 script.now)) }
{
    let mut samples = 0;
    for i in 0..count {
        let event = event_at(script, 8 + 12 * i).ok_or(Refusal::Script)?;
        samples += sample_count(event);
    }
    Ok(Checked {
        events: count,
        samples,
    })
}

// The check of a script. A script that is not well-formed is refused whole.
pub fn check_script(script: &[u8]) -> Result<Checked, Refusal>
    ensures { result ≡ check_script_of script.now }
{
    let count = wire::u32_at(script, 0) as usize;
    let known = (count <= 65536)
        & (wire::u32_at(script, 4) == 8)
        & (script.len() == 8 + 12 * count);
    answers::unless(known, Refusal::Script)?;
    tally(script, count)
}
