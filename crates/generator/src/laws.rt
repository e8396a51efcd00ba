ghost use Rattle.generator.specs.GeneratedLaws.{GeneratedIsLarge, GeneratedIsShort, GeneratedIsFaultless};

/// The generated text is a file of the language within its limits, with as many questions as the number says. A law: it
/// does nothing when it runs.
pub fn generated_is_a_file()
    ensures large { GeneratedIsLarge }
    ensures short { GeneratedIsShort }
    ensures faultless { GeneratedIsFaultless }
{}
