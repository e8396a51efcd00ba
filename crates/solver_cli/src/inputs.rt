// The bytes of an input.
ghost use Rattle.std.specs.Prelude.{◌≡◌, ◌⊎◌, ◌≤◌, true, ℕ, List, Some, take, IfOk, IsErrOf};
ghost use Rattle.io_edge.specs.Edge.{Rose, IsMissing};
ghost use Rattle.command_words.specs.Words.{said, is_among, IsKnown};
ghost use Rattle.stored_games.specs.Games.{game_names, game_text};
ghost use Rattle.written_files.specs.Files.{file_text};
ghost use Rattle.generator.specs.Generated.{generated};
ghost use Rattle.solver_cli.specs.declared.stop.Stop.TheVariants.{Failed, NoMemory};
ghost use Rattle.solver_cli.specs.Reading.{Calls, FailsToRead};
ghost use Rattle.solver_cli.specs.Inputs.{IsFileWith, OfBytes};

use crate::reading::read_named;
use crate::stop::Stop;
use command_words::Input;
use generator::generate;
use io_edge::Source;
use std::alloc::{AllocError, Global};
use stored_games::game;

// The bytes of a text.
fn copied(alloc: Global, text: &str) -> Result<Vec<u8>, AllocError>
    ensures { IfOk result (λ bytes. bytes.items ≡ text.now) }
{
    let mut bytes = Vec::new(alloc);
    bytes.extend_from_slice(text.as_bytes())?;
    Ok(bytes)
}

// The text of a stored game.
fn game_bytes(alloc: Global, name: &str) -> Result<Vec<u8>, Stop>
    requires { is_among game_names name.now ≡ true }
    ensures bytes { IfOk result (λ bytes. game_text name.now ≡ Some bytes.items) }
    ensures error { IsErrOf result Failed → ⊥ }
{
    let Some(text) = game(name) else {
        unreachable!()
    };
    copied(alloc, text).map_err(|_| Stop::NoMemory)
}

// The text of so many questions.
fn generated_bytes(alloc: Global, questions: u32) -> Result<Vec<u8>, Stop>
    requires { questions ≤ 1000 }
    ensures bytes { IfOk result (λ bytes. bytes.items ≡ file_text (generated questions)) }
    ensures error { IsErrOf result Failed → ⊥ }
{
    let Ok(text) = generate(alloc, questions) else {
        return Err(Stop::NoMemory);
    };
    copied(alloc, text.as_str()).map_err(|_| Stop::NoMemory)
}

/// Reads the file that the input names, or takes its text. At most one byte more is taken than a file may have.
pub(crate) fn input_bytes<S: Source>(
    alloc: Global,
    input: &Input,
    source: &mut S,
) -> Result<Vec<u8>, Stop>
    requires { IsKnown game_names (said input.now) }
    ensures all { IfOk result (λ bytes. OfBytes S.opens S.reads S.left S.files (said input.now) source.old source.new
        (λ whole. bytes.items ≡ take 1048577 whole)) }
    ensures called { IsErrOf result NoMemory → (source.new ≡ source.old) ⊎ IsFileWith (λ name. (bytes : List ℕ)
        × Calls S.opens S.reads S.left 1048577 name source.old bytes source.new) (said input.now) }
    ensures failing { IsErrOf result Failed → IsFileWith (λ name. (bytes : List ℕ)
        × FailsToRead S.opens S.reads S.left 1048577 name source.old bytes source.new) (said input.now) }
    ensures failed { IsErrOf result Failed → Rose (S.faults source.old) (S.faults source.new)
        ⊎ IsFileWith (λ name. IsMissing (S.files source.old) name) (said input.now) }
    ensures not_called { ¬ IsFileWith (λ name. Unit {0}) (said input.now) → source.new ≡ source.old }
{
    match input {
        Input::File(name) => read_named(alloc, name.as_str(), source),
        Input::Game(name) => game_bytes(alloc, name.as_str()),
        Input::Generated(questions) => generated_bytes(alloc, *questions),
    }
}
