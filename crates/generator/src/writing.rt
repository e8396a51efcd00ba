// Writes a text behind another.
ghost use Rattle.std.specs.Prelude.{◌≡◌, ◌++◌, OnOk, string_bytes};

use lists::NoMemory;

pub(crate) fn push(text: &mut String, part: &str) -> Result<(), NoMemory>
    ensures { OnOk result (string_bytes text.new ≡ string_bytes text.old ++ part.now) }
{
    text.push_str(part)?;
    Ok(())
}
