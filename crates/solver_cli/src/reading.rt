// A file is opened, and read by a loop.
ghost use Rattle.std.specs.Prelude.{◌≡◌, ◌≤◌, ◌⊎◌, ℕ, List, take, IfOk, IsErrOf};
ghost use Rattle.io_edge.specs.Edge.{Rose, IsMissing};
ghost use Rattle.solver_cli.specs.declared.stop.Stop.TheVariants.{Failed, NoMemory};
ghost use Rattle.solver_cli.specs.Reading.{ReadsSome, ReadsAll, ReadsFailing, Opens, FailsToRead};
ghost use Rattle.solver_cli.specs.Files.{OfNamed};

use crate::stop::Stop;
use io_edge::Source;
use std::alloc::Global;

// One byte more than a file may have.
const MOST_TAKEN: usize = 1_048_577;

const ROOM: usize = 4096;

// Reads the open file to its end, or until `MOST_TAKEN` bytes are taken.
fn read_whole<S: Source>(alloc: Global, source: &mut S) -> Result<Vec<u8>, Stop>
    ensures all { IfOk result (λ bytes. ReadsAll S.reads S.left 1048577 source.old bytes.items source.new) }
    ensures some { IsErrOf result NoMemory → (bytes : List ℕ) × ReadsSome S.reads S.left 1048577 source.old bytes source.new }
    ensures failing { IsErrOf result Failed → (bytes : List ℕ) × ReadsFailing S.reads S.left 1048577 source.old bytes source.new }
    ensures count { S.faults source.old ≤ S.faults source.new }
    ensures failed { IsErrOf result Failed → Rose (S.faults source.old) (S.faults source.new) }
{
    let mut bytes = Vec::new(alloc);
    let mut buffer = [0; ROOM];
    'turns: while bytes.len() < MOST_TAKEN {
        let room = ROOM.min(MOST_TAKEN - bytes.len());
        let offered = &mut buffer[..room];
        let Ok(count) = source.read(offered) else {
            return Err(Stop::Failed);
        };
        if count == 0 {
            return Ok(bytes);
        }
        if bytes.extend_from_slice(&offered[..count]).is_err() {
            return Err(Stop::NoMemory);
        }
    }
    Ok(bytes)
}

/// Opens the file with this name and reads it to its end, or until one byte more is taken than a file may have.
pub(crate) fn read_named<S: Source>(
    alloc: Global,
    name: &str,
    source: &mut S,
) -> Result<Vec<u8>, Stop>
    ensures all { IfOk result (λ bytes. OfNamed S.opens S.reads S.left S.files name.now source.old source.new
        (λ file. bytes.items ≡ take 1048577 file)) }
    ensures some { IsErrOf result NoMemory → (bytes : List ℕ)
        × Opens S.opens name.now source.old (λ opened. ReadsSome S.reads S.left 1048577 opened bytes source.new) }
    ensures failing { IsErrOf result Failed → (bytes : List ℕ)
        × FailsToRead S.opens S.reads S.left 1048577 name.now source.old bytes source.new }
    ensures failed { IsErrOf result Failed →
        Rose (S.faults source.old) (S.faults source.new) ⊎ IsMissing (S.files source.old) name.now }
{
    match source.open(name) {
        Ok(()) => {}
        Err(_) => return Err(Stop::Failed),
    }
    read_whole(alloc, source)
}
