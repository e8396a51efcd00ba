// The top call.
ghost use Rattle.std.specs.Prelude.{◌≡◌, ◌≢◌, ◌⊎◌, ◌↔◌, ℕ, List, None};
ghost use Rattle.io_edge.specs.Edge.{Rose, IsMissing};
ghost use Rattle.command_words.specs.Words.{said, texts, IsKnown};
ghost use Rattle.stored_games.specs.Games.{game_names};
ghost use Rattle.solver_cli.specs.Language.{Fault, IsFirstFault};
ghost use Rattle.solver_cli.specs.Lines.{fault_line, line_of, status_of};
ghost use Rattle.solver_cli.specs.Writing.{WritesLine};
ghost use Rattle.solver_cli.specs.Reading.{FailsToRead, Calls};
ghost use Rattle.solver_cli.specs.Files.{OfNamed};
ghost use Rattle.solver_cli.specs.Inputs.{named_input, IsFileWith, OfName, NamesAFile, NamesNoFile, NamesWhatIsThere, NamesOwnText, OfBytes, OfInput, OfFile};
ghost use Rattle.solver_cli.specs.Run.{output_of, WritesAll, WritesFewer, WritesCut, OfReading, HasFault, Completes};

use crate::answering::write_texts;
use crate::inputs::input_bytes;
use crate::outcome::Outcome;
use crate::reporting::{report, report_fault};
use crate::status::Status;
use crate::stop::Stop;
use command_words::{Input, NoInput, read_words};
use formula_reader::{ReadError, read_file};
use io_edge::{Sink, Source};
use std::alloc::Global;
use stored_games::game_names;

// Checks the bytes whole, and then writes what the input asks for.
fn answer_bytes<O: Sink>(alloc: Global, input: &Input, bytes: &[u8], out: &mut O) -> Outcome
    ensures all { status_of result ≡ Status.Done →
        OfReading bytes.now (λ file. WritesAll O.writes O.taken (output_of (said input.now)) file out.old out.new) }
    ensures cut { status_of result ≡ Status.WriteFault →
        OfReading bytes.now (λ file. WritesCut O.writes O.taken (output_of (said input.now)) file out.old out.new) }
    ensures failed { status_of result ≡ Status.WriteFault → Rose (O.faults out.old) (O.faults out.new) }
    ensures fewer { status_of result ≡ Status.Memory → (out.new ≡ out.old)
        ⊎ OfReading bytes.now (λ file. WritesFewer O.writes O.taken (output_of (said input.now)) file out.old out.new) }
    ensures refused { (fault : Fault) → result ≡ Outcome.Refused fault → IsFirstFault bytes.now fault }
    ensures silent { (fault : Fault) → result ≡ Outcome.Refused fault → out.new ≡ out.old }
    ensures usage { status_of result ≢ Status.Usage }
    ensures read { status_of result ≢ Status.ReadFault }
{
    let file = match read_file(alloc, bytes) {
        Ok(file) => file,
        Err(ReadError::Refused(fault)) => return Outcome::Refused(fault),
        Err(ReadError::NoMemory) => return Outcome::Memory,
    };
    match write_texts(alloc, input, &file, out) {
        Ok(()) => Outcome::Done,
        Err(Stop::Failed) => Outcome::WriteFault,
        Err(Stop::NoMemory) => Outcome::Memory,
    }
}

// The run behind the words.
fn answer_input<S: Source, O: Sink>(
    alloc: Global,
    input: &Input,
    source: &mut S,
    out: &mut O,
) -> Outcome
    requires { IsKnown game_names (said input.now) }
    ensures usage { status_of result ≢ Status.Usage }
    ensures not_called { ¬ IsFileWith (λ name. Unit {0}) (said input.now) → source.new ≡ source.old }
    ensures calls { status_of result ≢ Status.ReadFault → (source.new ≡ source.old) ⊎ IsFileWith (λ name. (bytes : List ℕ)
        × Calls S.opens S.reads S.left 1048577 name source.old bytes source.new) (said input.now) }
    ensures read_fault { status_of result ≡ Status.ReadFault → Rose (S.faults source.old) (S.faults source.new)
        ⊎ IsFileWith (λ name. IsMissing (S.files source.old) name) (said input.now) }
    ensures failing { status_of result ≡ Status.ReadFault → IsFileWith (λ name. (bytes : List ℕ)
        × FailsToRead S.opens S.reads S.left 1048577 name source.old bytes source.new) (said input.now) }
    ensures unread { status_of result ≡ Status.ReadFault → out.new ≡ out.old }
    ensures refused { (fault : Fault) → result ≡ Outcome.Refused fault → IsFileWith (λ name.
        OfNamed S.opens S.reads S.left S.files name source.old source.new (λ bytes. IsFirstFault bytes fault)) (said input.now) }
    ensures silent { (fault : Fault) → result ≡ Outcome.Refused fault → out.new ≡ out.old }
    ensures write_fault { status_of result ≡ Status.WriteFault → Rose (O.faults out.old) (O.faults out.new) }
    ensures cut { status_of result ≡ Status.WriteFault →
        OfBytes S.opens S.reads S.left S.files (said input.now) source.old source.new (λ bytes.
        OfReading bytes (λ file. WritesCut O.writes O.taken (output_of (said input.now)) file out.old out.new)) }
    ensures memory { status_of result ≡ Status.Memory → (out.new ≡ out.old)
        ⊎ OfBytes S.opens S.reads S.left S.files (said input.now) source.old source.new (λ bytes.
        OfReading bytes (λ file. WritesFewer O.writes O.taken (output_of (said input.now)) file out.old out.new)) }
    ensures done { status_of result ≡ Status.Done →
        OfBytes S.opens S.reads S.left S.files (said input.now) source.old source.new (λ bytes.
        OfReading bytes (λ file. WritesAll O.writes O.taken (output_of (said input.now)) file out.old out.new)) }
{
    match input_bytes(alloc, input, source) {
        Ok(bytes) => answer_bytes(alloc, input, &bytes, out),
        Err(Stop::Failed) => Outcome::ReadFault,
        Err(Stop::NoMemory) => Outcome::Memory,
    }
}

// Writes the line of an outcome, and gives its status.
fn tell<E: Sink>(err: &mut E, outcome: Outcome) -> Status
    ensures status { result ≡ status_of outcome }
    ensures fault { (fault : Fault) → outcome ≡ Outcome.Refused fault →
        WritesLine E.writes E.taken E.faults err.old (fault_line fault) err.new }
    ensures line { result ≢ Status.Refused → WritesLine E.writes E.taken E.faults err.old (line_of result) err.new }
    ensures quiet { result ≡ Status.Done → err.new ≡ err.old }
{
    let status = match outcome {
        Outcome::Done => return Status::Done,
        Outcome::Refused(fault) => {
            report_fault(err, fault);
            return Status::Refused;
        }
        Outcome::Usage => Status::Usage,
        Outcome::ReadFault => Status::ReadFault,
        Outcome::WriteFault => Status::WriteFault,
        Outcome::Memory => Status::Memory,
    };
    report(err, status);
    status
}

/// Takes the bytes of the file, the stored game or the generated text that the words name, checks them whole, and writes
/// to `out` a right answer of each statement, in order, or of a generated text the line that counts them. A fault is named
/// on `err`.
pub fn run<'a, S: Source, O: Sink, E: Sink>(
    alloc: Global,
    words: &'a [&'a str],
    source: &mut S,
    out: &mut O,
    err: &mut E,
) -> Status
    // The words are refused exactly where they name no input, but that memory may be wanting before that is known.
    ensures usage { result ≡ Status.Usage → named_input (texts words.now) ≡ None }
    ensures used { named_input (texts words.now) ≡ None → result ≢ Status.Memory → result ≡ Status.Usage }
    ensures silent_usage { result ≡ Status.Usage → out.new ≡ out.old }

    // The source is called only where the words name a file. Then this file is opened, no other is, and no more is read
    // than one byte more than a file may have.
    ensures not_called { ¬ NamesAFile (texts words.now) → source.new ≡ source.old }
    ensures calls { result ≢ Status.ReadFault → (source.new ≡ source.old)
        ⊎ OfName (texts words.now) (λ name. (bytes : List ℕ)
        × Calls S.opens S.reads S.left 1048577 name source.old bytes source.new) }

    // The file is missing, or a failure was counted. The call that failed was the last.
    ensures read_fault { result ≡ Status.ReadFault →
        Rose (S.faults source.old) (S.faults source.new) ⊎ NamesNoFile (S.files source.old) (texts words.now) }
    ensures failing { result ≡ Status.ReadFault →
        OfName (texts words.now) (λ name. (bytes : List ℕ)
        × FailsToRead S.opens S.reads S.left 1048577 name source.old bytes source.new) }
    ensures silent_read { result ≡ Status.ReadFault → out.new ≡ out.old }

    // The file was read, and the line names the first fault of its bytes.
    ensures refused { result ≡ Status.Refused →
        OfFile S.opens S.reads S.left S.files (texts words.now) source.old source.new
        (λ bytes. (fault : Fault) × IsFirstFault bytes fault
        × WritesLine E.writes E.taken E.faults err.old (fault_line fault) err.new) }
    ensures silent_refused { result ≡ Status.Refused → out.new ≡ out.old }

    // Where the bytes were taken and memory sufficed, they are refused exactly where they have a first fault.
    ensures exactly { result ≢ Status.Usage → result ≢ Status.ReadFault → result ≢ Status.Memory →
        OfInput S.opens S.reads S.left S.files (texts words.now) source.old source.new
        (λ input bytes. (result ≡ Status.Refused) ↔ HasFault bytes) }

    // Right answers of the first statements went out whole, and a proper prefix of one of the next; or a proper prefix of
    // the line of counts. No call came behind the one that failed.
    ensures cut { result ≡ Status.WriteFault →
        OfInput S.opens S.reads S.left S.files (texts words.now) source.old source.new (λ input bytes.
        OfReading bytes (λ file. WritesCut O.writes O.taken (output_of input) file out.old out.new)) }
    ensures write_fault { result ≡ Status.WriteFault → Rose (O.faults out.old) (O.faults out.new) }

    // Nothing went out, or right answers of the first statements did, each whole, and not of all.
    ensures memory { result ≡ Status.Memory → (out.new ≡ out.old)
        ⊎ OfInput S.opens S.reads S.left S.files (texts words.now) source.old source.new (λ input bytes.
        OfReading bytes (λ file. WritesFewer O.writes O.taken (output_of input) file out.old out.new)) }

    // One right answer of each statement went out, in order, or the line of counts; and nothing else.
    ensures done { result ≡ Status.Done →
        OfInput S.opens S.reads S.left S.files (texts words.now) source.old source.new (λ input bytes.
        OfReading bytes (λ file. WritesAll O.writes O.taken (output_of input) file out.old out.new)) }

    ensures line { result ≢ Status.Refused → WritesLine E.writes E.taken E.faults err.old (line_of result) err.new }
    ensures quiet { result ≡ Status.Done → err.new ≡ err.old }

    // Where nothing fails and memory suffices, bytes that read as a file give `Done`, and all others `Refused`. A stored
    // game and a generated text give `Done`.
    ensures complete { NamesWhatIsThere (S.files source.old) (texts words.now) → result ≢ Status.Memory
        → ¬ Rose (S.faults source.old) (S.faults source.new) → ¬ Rose (O.faults out.old) (O.faults out.new)
        → OfInput S.opens S.reads S.left S.files (texts words.now) source.old source.new
        (λ input bytes. Completes bytes result) }
    ensures own_text { NamesOwnText (texts words.now) → result ≢ Status.Memory
        → ¬ Rose (O.faults out.old) (O.faults out.new) → result ≡ Status.Done }
{
    match read_words(alloc, words, game_names().as_slice()) {
        Ok(input) => tell(err, answer_input(alloc, &input, source, out)),
        Err(NoInput::Usage) => tell(err, Outcome::Usage),
        Err(NoInput::NoMemory) => tell(err, Outcome::Memory),
    }
}
