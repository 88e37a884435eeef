// One script of a bounce, on lent buffers: its samples, the state that it leaves, and what is said of it.
#![tactic(auto)]

ghost use Rattle.std.specs.Prelude.{◌≡◌};
ghost use Rattle.io.specs.Counts.{IsPrefixLen};
ghost use Rattle.filter.specs.Lent.{lent_all};
ghost use Rattle.bounce_step.specs.Steps.{step_of};

// The answer's number, and how many bytes the samples and the line have.
#[derive(Clone, Copy)]
pub struct Stepped {
    pub number: u32,
    pub samples: usize,
    pub line: usize,
}

// Runs a script from the state in its block. The samples stand at the output's start, the state after them in the block, and what is said of it in the line.
#[tactic(auto, using(crate::proofs::Laws::samples_fit))]
pub fn step(
    bundle: &[u8],
    curves: &[u8],
    state: &mut [u8],
    decays: &[u8],
    name: &[u8],
    script: &[u8],
    output: &mut [u8],
    line: &mut [u8],
) -> Stepped
    ensures line_value { step_of (lent_all bundle.now curves.now decays.now) state.old name.now script.now output.old line.old
        ≡ record { stepped = result; state = state.new; output = output.new; line = line.new } }
    ensures prefix_len { IsPrefixLen result.samples output.new }
    ensures prefix_len_2 { IsPrefixLen result.line line.new }
{
    let ended = run::run(bundle, curves, state, decays, script, output);
    let answer = ended.answer;
    let end = bounce_lines::script_line(line, name, answer, ended.events, ended.samples);
    let told = answers::report(answer);
    Stepped {
        number: told.number,
        samples: 16 * ended.samples,
        line: end,
    }
}
