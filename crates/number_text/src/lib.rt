// Numbers as decimal text into a lent buffer, bare and behind a name.
// Knows nothing of what a number stands for.
#![tactic(auto)]

ghost use Rattle.std.specs.Prelude.{◌+◌, ◌++◌, length};
ghost use Rattle.text.specs.Ascii.{ascii};
ghost use Rattle.text.specs.Decimals.{decimal};
ghost use Rattle.text_put.specs.Writers.{Puts, Room};

use text_put::TextWriter;

// Puts a number.
#[tactic(auto, using(crate::proofs::Decimal::decimal_is, crate::proofs::Decimal::decimal_short))]
pub fn put_decimal(out: &mut TextWriter<'_>, n: u64)
    requires { Room out.old 20 }
    ensures { Puts out.old out.new 20 (decimal n) }
{
    out.text(itoa::Buffer::new().format(n).as_bytes());
}

// Puts a number behind its name, which begins with a bracket and ends with a space, and closes the bracket.
#[tactic(auto, using(text_put::proofs::Writers::wrote_both))]
pub fn put_named(out: &mut TextWriter<'_>, name: &[u8], n: u64)
    requires { Room out.old (length name.now + 21) }
    ensures { Puts out.old out.new (length name.now + 21) (name.now ++ (decimal n ++ ascii ")")) }
{
    out.text(name);
    put_decimal(out, n);
    out.byte(b')');
}
