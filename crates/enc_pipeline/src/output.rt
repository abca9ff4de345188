ghost use Rattle.std.specs.Prelude.{◌≡◌, ◌++◌, OnOk, OnErr};
ghost use Rattle.std.specs.Io.KnownBytes.{Appends};
ghost use Rattle.enc_base.specs.Counts.{Rose};
ghost use Rattle.enc_base.specs.Pending.{Puts};
ghost use Rattle.enc_base.specs.Sink.{AppendsPrefix};
ghost use Rattle.fof_models.specs.Sound.{IsSound};
ghost use Rattle.fof_text.specs.States.{AreNamed};
ghost use Rattle.fof_text.specs.Written.{text_of};
ghost use Rattle.enc_pipeline.specs.Output as specs;

use enc_base::{Failed, Pending, Sink};
use enc_marks::Scheme;
use fof_models::FofProblem;
use fof_text::{Names, put_problem};

/// A scheme's name on the command line and in the output.
pub fn scheme_name(which: &Scheme) -> &'static str
    ensures { result.now ≡ specs.scheme_name which.now }
{
    match which {
        Scheme::Guards => "guards",
        Scheme::Tags => "tags",
        Scheme::GuardsCover => "guards_cover",
        Scheme::TagsCover => "tags_cover",
        Scheme::Args => "args",
        Scheme::Erase => "erase",
        Scheme::GuardsLight => "guards_light",
        Scheme::TagsLight => "tags_light",
        Scheme::GuardsFeather => "guards_feather",
        Scheme::TagsFeather => "tags_feather",
    }
}

// Puts the first line: a comment that names the scheme.
fn put_first_line<O: Sink>(which: &Scheme, pending: &mut Pending, out: &mut O)
    ensures { Puts O.bytes O.faults pending.old pending.new out.old out.new
        (specs.first_line which.now) }
{
    pending.put(b"% tfenc ", out);
    pending.put(scheme_name(which).as_bytes(), out);
    pending.put(b" complete\n", out);
}

/// Writes the first line, and then the text of the problem under these names.
pub(crate) fn write_output<O: Sink>(
    which: &Scheme,
    problem: &FofProblem,
    names: &Names,
    out: &mut O,
) -> Result<(), Failed>
    requires sound { IsSound problem.now }
    requires named { AreNamed names.now problem.now }
    ensures exact { OnOk result (Appends (O.bytes out.old) (O.bytes out.new)
        (specs.first_line which.now ++ text_of names.now problem.now)) }
    ensures within { OnErr result (AppendsPrefix (O.bytes out.old) (O.bytes out.new)
        (specs.first_line which.now ++ text_of names.now problem.now)) }
    ensures kept_faults { OnOk result (O.faults out.new ≡ O.faults out.old) }
    ensures cause { OnErr result (Rose (O.faults out.old) (O.faults out.new)) }
{
    let mut pending = Pending::new();
    put_first_line(which, &mut pending, out);
    put_problem(problem, names, &mut pending, out);
    pending.finish(out)
}
