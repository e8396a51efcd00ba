// Reads the words by a command of clap.
ghost use Rattle.std.specs.Prelude.{◌≡◌, ◌≢◌, false, ◌↔◌, ℕ, List, [], ◌∷◌, Some, None, IfOk, codes, option_copied};
ghost use Rattle.clap.specs.Words.{app_of, found_of, kind_of, rows_of, rule_of, matches_of, fault_of};
ghost use Rattle.command_words.specs.Words.{file_rule, game_rule, self_rule, command, is_among, game_named, text_of_questions, named, only, input_of, IsKnown, texts, said, program};

use crate::input::{Input, NoInput};
use crate::numbers::number;
use clap::error::ErrorKind;
use clap::{Arg, ArgMatches, Command, Error};
use std::alloc::{AllocError, Global};

// A positional word that may be absent.
fn file_argument<'a>(alloc: Global) -> Arg<'a>
    ensures rule { rule_of result ≡ file_rule }
    ensures own { result.global ≡ false }
{
    Arg::new(alloc, "FILE")
}

// Options with one value.
fn game_argument<'a>(alloc: Global) -> Arg<'a>
    ensures rule { rule_of result ≡ game_rule }
    ensures own { result.global ≡ false }
{
    Arg::new(alloc, "game").long("game")
}

fn self_argument<'a>(alloc: Global) -> Arg<'a>
    ensures rule { rule_of result ≡ self_rule }
    ensures own { result.global ≡ false }
{
    Arg::new(alloc, "self").long("self")
}

// The command whose words are read.
fn command<'a>(alloc: Global) -> Result<Command<'a>, AllocError>
    ensures { IfOk result (λ made. app_of made ≡ command) }
{
    let with_file = Command::new(alloc, "treesolve").arg(file_argument(alloc))?;
    let with_game = with_file.arg(game_argument(alloc))?;
    with_game.arg(self_argument(alloc))
}

// The words behind the program's name, as clap takes them.
fn with_program<'a>(alloc: Global, words: &[&'a str]) -> Result<Vec<&'a str>, AllocError>
    ensures { IfOk result (λ all. texts all.items ≡ program ∷ texts words.now) }
{
    let mut all = Vec::new(alloc);
    all.push("treesolve")?;
    all.extend_from_slice(words)?;
    Ok(all)
}

// Why clap gave no values.
fn reason(error: &Error) -> NoInput
    ensures { (result ≡ NoInput.NoMemory) ↔ (kind_of error.now ≡ ErrorKind.OutOfMemory) }
{
    match error.kind() {
        ErrorKind::OutOfMemory => NoInput::NoMemory,
        _ => NoInput::Usage,
    }
}

// The values that clap finds in the words.
fn parse<'a>(alloc: Global, words: &'a [&'a str]) -> Result<ArgMatches<'a>, NoInput>
    ensures values { IfOk result (λ matches. rows_of (found_of matches) ≡ matches_of command (texts words.now)) }
    ensures taken { IfOk result (λ matches. fault_of command (texts words.now) ≡ []) }
    ensures usage { result ≡ Err NoInput.Usage → fault_of command (texts words.now) ≢ [] }
{
    match command(alloc)?.try_get_matches_from(words) {
        Ok(matches) => Ok(matches),
        Err(error) => Err(reason(&error)),
    }
}

// Whether the name is one of these.
fn is_among(names: &[&str], name: &str) -> bool
    ensures { result ≡ is_among (texts names.now) name.now }
{
    names.contains(&name)
}

// The game with this name.
fn game_named(alloc: Global, games: &[&str], name: &str) -> Result<Input, NoInput>
    ensures input { IfOk result (λ input. game_named (texts games.now) name.now ≡ Some (said input)) }
    ensures usage { result ≡ Err NoInput.Usage → game_named (texts games.now) name.now ≡ None }
    ensures known { IfOk result (λ input. IsKnown (texts games.now) (said input)) }
{
    if is_among(games, name) {
        Ok(Input::Game(String::from_str(alloc, name)?))
    } else {
        Err(NoInput::Usage)
    }
}

// The generated text of so many questions.
fn text_of_questions(digits: &str) -> Result<Input, NoInput>
    ensures input { IfOk result (λ input. text_of_questions digits.now ≡ Some (said input)) }
    ensures usage { result ≡ Err NoInput.Usage → text_of_questions digits.now ≡ None }
    ensures known { (games : List (List ℕ)) → IfOk result (λ input. IsKnown games (said input)) }
{
    match number(digits, 1000) {
        Some(questions) => Ok(Input::Generated(questions as u32)),
        None => Err(NoInput::Usage),
    }
}

// The one input that is named by FILE, `--game` or `--self`.
fn only(
    alloc: Global,
    games: &[&str],
    file: Option<&str>,
    game: Option<&str>,
    questions: Option<&str>,
) -> Result<Input, NoInput>
    ensures input { IfOk result (λ input. only (named (texts games.now) (option_copied file.entry) (option_copied game.entry) (option_copied questions.entry)) ≡ Some (said input)) }
    ensures usage { result ≡ Err NoInput.Usage → only (named (texts games.now) (option_copied file.entry) (option_copied game.entry) (option_copied questions.entry)) ≡ None }
    ensures known { IfOk result (λ input. IsKnown (texts games.now) (said input)) }
{
    match (file, game, questions) {
        (Some(name), None, None) => Ok(Input::File(String::from_str(alloc, name)?)),
        (None, Some(name), None) => game_named(alloc, games, name),
        (None, None, Some(digits)) => text_of_questions(digits),
        _ => Err(NoInput::Usage),
    }
}

/// Reads the words of the command line, without the program's name, where the stored games have these names.
pub fn read_words(alloc: Global, words: &[&str], games: &[&str]) -> Result<Input, NoInput>
    ensures input { IfOk result (λ input. input_of (texts games.now) (texts words.now) ≡ Some (said input)) }
    ensures known { IfOk result (λ input. IsKnown (texts games.now) (said input)) }
    // `Usage` exactly where the words are refused, but that memory may be wanting before that is known.
    ensures usage { result ≡ Err NoInput.Usage → input_of (texts games.now) (texts words.now) ≡ None }
    ensures used { input_of (texts games.now) (texts words.now) ≡ None → result ≢ Err NoInput.NoMemory → result ≡ Err NoInput.Usage }
{
    let all = with_program(alloc, words)?;
    let matches = parse(alloc, all.as_slice())?;
    only(
        alloc,
        games,
        matches.get_str("FILE"),
        matches.get_str("game"),
        matches.get_str("self"),
    )
}
