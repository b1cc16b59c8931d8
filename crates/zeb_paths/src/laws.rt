//! Laws of a walk. They are functions with no code, whose contracts are the laws.

ghost use Rattle.zeb_paths.specs.Walks.{EndIsLast, StaysUnder, StopsUntold, ToldIsGiven};

/// A file of which the paths tell the bytes is given by its own path, and the walk goes on behind it.
pub fn a_told_file_is_given()
    ensures { ToldIsGiven }
{}

/// Behind the last path there is no file.
pub fn a_walk_ends_behind_the_last_path()
    ensures { EndIsLast }
{}

/// A walk stops at no path of which the paths tell a file's bytes.
pub fn a_walk_stops_at_no_told_file()
    ensures { StopsUntold }
{}

/// Each file that a walk gives, and each path that it can't go on at, is one of the named paths or stands below one.
pub fn a_walk_stays_below_its_paths()
    ensures { StaysUnder }
{}
