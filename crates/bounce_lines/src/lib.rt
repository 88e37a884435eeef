// What bounce says, as text in a lent buffer, and what it asks of the names of files.
#![tactic(auto)]

mod lines;

ghost use Rattle.std.specs.Prelude.{◌≡◌, ◌++◌};
ghost use Rattle.io.specs.Counts.{IsPrefixLen};
ghost use Rattle.wire.specs.Text.{ascii};
ghost use Rattle.text.specs.Text.{grown, grown_end};
ghost use Rattle.bounce_lines.specs.Names.{same_name_of};

pub use lines::{refused_line, script_line};
use text::push;

// The name of the file that is written beside another.
#[tactic(auto, using(text::proofs::Laws::end_then, text::proofs::Laws::put_then))]
pub fn beside(out: &mut [u8], path: &[u8]) -> usize
    ensures prefix_len { IsPrefixLen result out.new }
    ensures value { result ≡ grown_end out.old 0 (path.now ++ ascii ".new") }
    ensures out_after { out.new ≡ grown out.old 0 (path.now ++ ascii ".new") }
{
    let n = push(out, 0, path);
    push(out, n, b".new")
}

// Whether two names are the same, byte for byte.
#[tactic(auto, using(crate::proofs::Laws::same_is))]
pub fn same_name(a: &[u8], b: &[u8]) -> bool
    ensures { result ≡ same_name_of a.now b.now }
{
    a == b
}
