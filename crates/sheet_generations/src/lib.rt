// The lines of a sheet for the installed and the previous generation, each with its line feed, into a lent buffer.
// Knows nothing of a sheet's other lines.
#![tactic(auto, using(text_put::proofs::Writers::wrote_both), unfolding(sheet_lines::specs::Lines::generation_text))]

ghost use Rattle.std.specs.Prelude.{◌+◌, length, ◌++◌};
ghost use Rattle.sheet_lines.specs.Lines.{generation_text, installed_line, previous_line};
ghost use Rattle.text.specs.Ascii.{ascii};
ghost use Rattle.text_put.specs.Writers.{Puts, Room};

use head_ready::Generation;
use script_ready::put_readiness;
use script_value::counters::put_spaced;
use text_put::TextWriter;
use value_text::anchor::put_anchor;

// Puts `A H N READINESS`: the one place where what follows a generation's handle is written.
pub(crate) fn put_held(out: &mut TextWriter<'_>, held: Generation)
    requires { Room out.old 184 }
    ensures { Puts out.old out.new 184 (generation_text (Some held)) }
{
    put_anchor(out, held.anchor);
    put_spaced(out, held.handle);
    put_spaced(out, held.seq.0);
    out.byte(b' ');
    put_readiness(out, held.readiness);
}

// Puts a generation, or `none`.
pub(crate) fn put_generation(out: &mut TextWriter<'_>, slot: Option<Generation>)
    requires { Room out.old 184 }
    ensures { Puts out.old out.new 184 (generation_text slot) }
{
    match slot {
        None => out.text(b"none"),
        Some(held) => put_held(out, held),
    }
}

// Puts a line that begins with a bracket and the generation's name.
pub(crate) fn put_line(out: &mut TextWriter<'_>, name: &[u8], slot: Option<Generation>)
    requires { Room out.old (length name.now + 186) }
    ensures { Puts out.old out.new (length name.now + 186) (name.now ++ (generation_text slot ++ ascii ")\n")) }
{
    out.text(name);
    put_generation(out, slot);
    out.text(b")\n");
}

// Puts both lines, the installed generation's first.
pub fn put_generations(
    out: &mut TextWriter<'_>,
    installed: Option<Generation>,
    previous: Option<Generation>,
)
    requires { Room out.old 393 }
    ensures { Puts out.old out.new 393 (installed_line installed ++ previous_line previous) }
{
    put_line(out, b"(installed ", installed);
    put_line(out, b"(previous ", previous);
}
