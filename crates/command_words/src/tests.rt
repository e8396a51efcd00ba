//! Words, and what they name.
use crate::{Input, NoInput, read_words};
use std::alloc::Global;
use std::test::Fail;

const GAMES: [&str; 2] = ["take2", "unroll"];

// What the words name, as one text.
fn outcome(alloc: Global, words: &[&str]) -> Result<String, Fail> {
    let text = match read_words(alloc, words, GAMES.as_slice()) {
        Ok(Input::File(name)) => format!(in alloc; "file {name}")?,
        Ok(Input::Game(name)) => format!(in alloc; "game {name}")?,
        Ok(Input::Generated(questions)) => format!(in alloc; "generated {questions}")?,
        Err(NoInput::Usage) => String::from_str(alloc, "usage")?,
        Err(NoInput::NoMemory) => String::from_str(alloc, "memory")?,
    };
    Ok(text)
}

// The rows: what the words name, and the words, with a bar between each two.
const ROWS: &str = "\
file x|x
file x|--|x
file -x|--|-x
file --game|--|--game
file -|-
file help|help
file |
game take2|--game|take2
game take2|--game=take2
game unroll|--game|unroll
generated 0|--self|0
generated 1|--self=0001
generated 50|--self|50
generated 1000|--self|1000
generated 7|--self|00000000000000000007
usage|--self|1001
usage|--self|000000000000000000007
usage|--self|18446744073709551617
usage|--self|+1
usage|--self|1a
usage|--self=
usage|--self|1|x
usage|--self|1|--game|take2
usage|--game|nim
usage|--game=
usage|--game
usage|x|--game|take2
usage|--game|take2|x
usage|--game=take2|--game=take2
usage|--ga|take2
usage|x|y
usage|-h
usage|--help
usage|--version
usage|-x
usage|--engine|plain|x
usage|--
";

// Each row's words name what stands in front of them.
#[test]
fn words_name_an_input(rt: HostRuntime) -> Result<(), Fail> {
    let alloc = rt.alloc();
    for row in ROWS.lines() {
        let mut words = Vec::new(alloc);
        for word in row.split('|').skip(1) {
            words.push(word)?;
        }
        let (wanted, _) = row.split_once("|").ok_or("a row has two parts")?;
        let found = outcome(alloc, words.as_slice())?;
        assert_eq!(rt; found.as_str(), wanted);
    }
    Ok(())
}

// No words are refused.
#[test]
fn no_words_are_refused(rt: HostRuntime) -> Result<(), Fail> {
    let found = outcome(rt.alloc(), [].as_slice())?;
    assert_eq!(rt; found.as_str(), "usage");
    Ok(())
}
