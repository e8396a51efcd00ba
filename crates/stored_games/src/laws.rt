ghost use Rattle.stored_games.specs.GameLaws.{GamesAreFaultless};

/// The text of each stored game has no first fault, so it reads as a file. A law: it does nothing when it runs.
pub fn stored_games_read()
    ensures faultless { GamesAreFaultless }
{}
