// The sentences of hints.
ghost use Rattle.std.specs.Prelude.{◌≡◌, ◌++◌, OnOk, string_bytes, decimal};
ghost use Rattle.lint_hints.specs.Hints.{fault_of};
ghost use Rattle.slif_lint.specs.Sentences.{nullable, posix, sentence};

use lint_hints::Fault;
use std::alloc::AllocError;
use std::fmt::Write;

pub(crate) fn put_number(n: u32, out: &mut String) -> Result<(), AllocError>
    ensures { OnOk result (string_bytes out.new ≡ string_bytes out.old ++ decimal n) }
{
    write!(out, "{n}")?;
    Ok(())
}

pub(crate) fn put(text: &str, out: &mut String) -> Result<(), AllocError>
    ensures { OnOk result (string_bytes out.new ≡ string_bytes out.old ++ text.now) }
{
    out.push_str(text)?;
    Ok(())
}

fn put_two(first: &str, second: &str, out: &mut String) -> Result<(), AllocError>
    ensures { OnOk result (string_bytes out.new ≡ string_bytes out.old ++ (first.now ++
        second.now)) }
{
    put(first, out)?;
    put(second, out)
}

fn push_nullable(cause: &str, sequence: &str, out: &mut String) -> Result<(), AllocError>
    ensures { OnOk result (string_bytes out.new ≡ string_bytes out.old ++ nullable cause.now
        sequence.now) }
{
    put(cause, out)?;
    put_two(
        " can span nothing, and with it the item or separator of the sequence ",
        sequence,
        out,
    )
}

fn push_posix(class: &str, out: &mut String) -> Result<(), AllocError>
    ensures { OnOk result (string_bytes out.new ≡ string_bytes out.old ++ posix class.now) }
{
    put_two(
        class,
        " is the class of its letters and the colon; write [",
        out,
    )?;
    put_two(class, "]", out)
}

/// Appends the sentence of a fault.
pub(crate) fn push_sentence(fault: Fault<'_>, out: &mut String) -> Result<(), AllocError>
    ensures { OnOk result (string_bytes out.new ≡ string_bytes out.old ++ sentence
        (fault_of fault.entry)) }
{
    match fault {
        Fault::Unused(name) => put_two(name, " is a lexical rule that nothing uses", out),
        Fault::Escape(text) => put_two(
            text,
            " has no escape: it is a backslash and a letter; a line end is the class [\\n]",
            out,
        ),
        Fault::Posix(class) => push_posix(class, out),
        Fault::NoLatm => put(
            "no `lexeme default = latm => 1`: a lexeme that cannot stand there may stop the reading by its length",
            out,
        ),
        Fault::Operator(left) => put_two(
            left,
            " begins and ends this alternative, so that it can be read in two ways; part operators by ||",
            out,
        ),
        Fault::Bracket(left) => put_two(
            left,
            " in brackets takes operands of its own group alone; write assoc => group",
            out,
        ),
        Fault::Nullable { cause, sequence } => push_nullable(cause, sequence, out),
    }
}
