//! The text of a term, and of lists of them.
ghost use Rattle.std.specs.Prelude.{◌≡◌, ◌++◌, ◌<◌, length, codes, All, string_bytes, OnOk};
ghost use Rattle.formula_ast.specs.Terms.{list_of};
ghost use Rattle.formula_printer.specs.Numerals.{numeral};
ghost use Rattle.formula_printer.specs.Printable.{TermFits};
ghost use Rattle.formula_printer.specs.Texts.{arguments_text, term_text};
ghost use Rattle.formula_printer.specs.Writing as spec;
ghost use Rattle.formula_printer.specs.Writing.{text_at, written_term, written_terms};

use crate::words::{
    write_before, write_name, write_number, write_symbol, write_text, write_variable,
};
use formula_ast::{Names, Term, Terms};
use lists::NoMemory;
use signature::Signature;

// Writes a term.
#[cycle(term)]
fn write_term(sig: &Signature, names: &Names, t: &Term, out: &mut String) -> Result<(), NoMemory>
    requires { TermFits sig.now (length names.now) t.now }
    ensures { OnOk result (string_bytes out.new ≡ string_bytes out.old ++ term_text (written_term sig.now names.now t.now)) }
{
    match t {
        Term::Var(x) => write_variable(names, *x, out),
        Term::App(symbol, ts) => {
            write_symbol(sig, *symbol, out)?;
            write_arguments(sig, names, ts, out)
        }
    }
}

// Writes nothing, or terms in parentheses.
#[cycle(term)]
pub(crate) fn write_arguments(
    sig: &Signature,
    names: &Names,
    ts: &Terms,
    out: &mut String,
) -> Result<(), NoMemory>
    requires { All (TermFits sig.now (length names.now)) (list_of ts.now) }
    ensures { OnOk result (string_bytes out.new ≡ string_bytes out.old ++ arguments_text (written_terms sig.now names.now (list_of ts.now))) }
{
    if ts.len() == 0 {
        return Ok(());
    }
    for (i, t) in ts.as_slice().iter().enumerate() {
        write_before("(", ", ", i, out)?;
        write_term(sig, names, t, out)?;
    }
    write_text(")", out)
}

// Writes two terms with a mark between them.
pub(crate) fn write_pair(
    sig: &Signature,
    names: &Names,
    t: &Term,
    mark: &str,
    u: &Term,
    out: &mut String,
) -> Result<(), NoMemory>
    requires left { TermFits sig.now (length names.now) t.now }
    requires right { TermFits sig.now (length names.now) u.now }
    ensures { OnOk result (string_bytes out.new ≡ string_bytes out.old ++ term_text (written_term sig.now names.now t.now) ++ mark.now ++ term_text (written_term sig.now names.now u.now)) }
{
    write_term(sig, names, t, out)?;
    write_text(mark, out)?;
    write_term(sig, names, u, out)
}

// Writes a term and a closing parenthesis.
pub(crate) fn write_closed(
    sig: &Signature,
    names: &Names,
    t: &Term,
    out: &mut String,
) -> Result<(), NoMemory>
    requires { TermFits sig.now (length names.now) t.now }
    ensures { OnOk result (string_bytes out.new ≡ string_bytes out.old ++ term_text (written_term sig.now names.now t.now) ++ codes ")") }
{
    write_term(sig, names, t, out)?;
    write_text(")", out)
}

// Writes the beginning of a win, up to its last comma.
pub(crate) fn write_win(sig: &Signature, p: usize, k: u64, out: &mut String) -> Result<(), NoMemory>
    requires { p < length sig.now }
    ensures { OnOk result (string_bytes out.new ≡ string_bytes out.old ++ codes "win(" ++ text_at (spec.names_of sig.now) p ++ codes ", " ++ numeral k ++ codes ", ") }
{
    write_text("win(", out)?;
    write_name(sig, p, out)?;
    write_text(", ", out)?;
    write_number(k, out)?;
    write_text(", ", out)
}
