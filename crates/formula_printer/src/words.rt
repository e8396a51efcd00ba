//! Words and numbers at the end of a text.
ghost use Rattle.std.specs.Prelude.{◌≡◌, ◌++◌, ◌<◌, length, string_bytes, OnOk};
ghost use Rattle.formula_printer.specs.Numerals.{numeral};
ghost use Rattle.formula_printer.specs.Printable.{HasWord};
ghost use Rattle.formula_printer.specs.Steps.{before};
ghost use Rattle.formula_printer.specs.Texts.{head_text};
ghost use Rattle.formula_printer.specs.Writing.{names_of, symbol_head, text_at};

use formula_ast::Names;
use itoa::Buffer;
use lists::NoMemory;
use signature::Signature;
use tree_model::Symbol;

// Writes a text.
pub(crate) fn write_text(text: &str, out: &mut String) -> Result<(), NoMemory>
    ensures { OnOk result (string_bytes out.new ≡ string_bytes out.old ++ text.now) }
{
    out.push_str(text)?;
    Ok(())
}

// Writes what stands before an item, given its place.
pub(crate) fn write_before(
    first: &str,
    later: &str,
    i: usize,
    out: &mut String,
) -> Result<(), NoMemory>
    ensures { OnOk result (string_bytes out.new ≡ string_bytes out.old ++ before first.now later.now i) }
{
    if i == 0 {
        write_text(first, out)
    } else {
        write_text(later, out)
    }
}

// Writes a number in decimal digits.
pub(crate) fn write_number(n: u64, out: &mut String) -> Result<(), NoMemory>
    ensures { OnOk result (string_bytes out.new ≡ string_bytes out.old ++ numeral n) }
{
    let mut buffer = Buffer::new();
    write_text(buffer.format(n), out)
}

// Writes the name of a variable.
pub(crate) fn write_variable(names: &Names, x: usize, out: &mut String) -> Result<(), NoMemory>
    requires { x < length names.now }
    ensures { OnOk result (string_bytes out.new ≡ string_bytes out.old ++ text_at names.now x) }
{
    write_text(names.get(x).as_str(), out)
}

// Writes a declared name.
pub(crate) fn write_name(sig: &Signature, place: usize, out: &mut String) -> Result<(), NoMemory>
    requires { place < length sig.now }
    ensures { OnOk result (string_bytes out.new ≡ string_bytes out.old ++ text_at (names_of sig.now) place) }
{
    write_text(sig.name(place), out)
}

// Writes a symbol.
pub(crate) fn write_symbol(
    sig: &Signature,
    symbol: Symbol,
    out: &mut String,
) -> Result<(), NoMemory>
    requires { HasWord sig.now symbol }
    ensures { OnOk result (string_bytes out.new ≡ string_bytes out.old ++ head_text (symbol_head sig.now symbol)) }
{
    match symbol {
        Symbol::Named(place) => write_name(sig, place, out),
        Symbol::Further(index) => {
            write_text("$", out)?;
            write_number(index, out)
        }
    }
}
