ghost use Rattle.written_files.specs.WrittenLaws.{WrittenFilesRead, WrittenFilesAreFaultless};

/// The text of a file that is written canonically has the words of its statements, and has no first fault where they use
/// names as they are declared and are within the limits. A law: it does nothing when it runs.
pub fn written_files_read()
    ensures words { WrittenFilesRead }
    ensures faultless { WrittenFilesAreFaultless }
{}
