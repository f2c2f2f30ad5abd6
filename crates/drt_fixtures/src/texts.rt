//! Task files of worked examples, in canonical text.

/// An engine controller, a bus and a log.
pub const ENGINE: &str = "drt 1\n\
    task engine\nvertex slow 12 60\nvertex mid 8 30\nvertex fast 4 15\n\
    edge slow slow 60\nedge slow mid 60\nedge mid slow 30\nedge mid mid 30\nedge mid fast 30\nedge fast fast 15\nedge fast mid 15\n\
    task can\nvertex c 10 50\nedge c c 50\n\
    task log\nvertex l 20 100\nedge l l 200\n\
    end\n";

/// One task that asks for two of every five ticks.
pub const PERIODIC: &str = "drt 1\ntask T\nvertex a 2 5\nedge a a 5\nend\n";

/// One job that can't meet its deadline.
pub const LATE: &str = "drt 1\ntask T\nvertex a 6 5\nend\n";

/// The same in version 2, with a priority.
pub const LATE_2: &str = "drt 2\ntask T\npriority 7\nvertex a 6 5\nend\n";

/// One job that meets its deadline with no tick to spare.
pub const TIGHT: &str = "drt 1\ntask T\nvertex a 5 5\nend\n";

/// One task of two jobs without an edge, the second of which can't meet its deadline.
pub const SECOND_LATE: &str = "drt 1\ntask T\nvertex a 1 5\nvertex b 7 6\nend\n";

/// One job of the greatest times.
pub const LONGEST: &str = "drt 1\ntask T\nvertex a 1000000 1000000\nend\n";

/// One task that asks for every tick.
pub const FULL: &str = "drt 1\ntask T\nvertex a 5 5\nedge a a 5\nend\n";

/// Two tasks that ask for half of the ticks each.
pub const HALVES: &str =
    "drt 1\ntask T1\nvertex a 2 4\nedge a a 4\ntask T2\nvertex b 3 6\nedge b b 6\nend\n";

/// Two tasks of ratios 2/5 and 4/7 that meet their deadlines under EDF.
pub const FIFTHS_AND_SEVENTHS: &str =
    "drt 1\ntask T1\nvertex a 2 4\nedge a a 5\ntask T2\nvertex b 4 7\nedge b b 7\nend\n";

/// Two tasks that ask for more than every tick.
pub const OVERLOADED: &str =
    "drt 1\ntask T1\nvertex a 3 4\nedge a a 4\ntask T2\nvertex b 2 5\nedge b b 5\nend\n";

/// A branching task and a periodic one that meet their deadlines under EDF.
pub const BRANCHING: &str =
    "drt 1\ntask T1\nvertex a 1 2\nvertex b 4 6\nedge a b 2\nedge b a 8\nedge a a 5\ntask T2\nvertex c 2 4\nedge c c 10\nend\n";

/// The same with one more tick of work in the periodic task, which is too much.
pub const BRANCHING_LATE: &str =
    "drt 1\ntask T1\nvertex a 1 2\nvertex b 4 6\nedge a b 2\nedge b a 8\nedge a a 5\ntask T2\nvertex c 3 4\nedge c c 10\nend\n";

/// Four tasks whose periods have a common multiple above 2^60.
pub const TOO_FINE: &str =
    "drt 1\ntask A\nvertex a 1 1\nedge a a 1000000\ntask B\nvertex a 1 1\nedge a a 999999\ntask C\nvertex a 1 1\nedge a a 999998\ntask D\nvertex a 1 1\nedge a a 999997\nend\n";

/// Two tasks whose horizon is above 2^40.
pub const TOO_FAR: &str =
    "drt 1\ntask T1\nvertex a 999998 999997\nedge a a 999999\ntask T2\nvertex b 1 1\nedge b b 1000000\nend\n";

/// A task of two walks that both leave room for a third job, which a combination of both doesn't show.
pub const SPLIT: &str =
    "drt 1\ntask T1\nvertex x 3 5\nvertex y 2 4\nedge x x 20\nedge y y 4\ntask T2\nvertex z 2 5\nedge z z 10\nend\n";

/// A periodic task whose second job comes just when the lower job is done.
pub const JUST_DONE: &str =
    "drt 1\ntask T1\nvertex a 2 2\nedge a a 4\ntask T2\nvertex b 2 5\nedge b b 8\nend\n";

/// Two jobs without edges above a third one, of which the longer leaves too little room.
pub const TOO_LITTLE_ROOM: &str =
    "drt 1\ntask T1\nvertex x 3 5\nvertex y 2 4\ntask T2\nvertex z 2 4\nend\n";

/// Three tasks without edges: of the walks of the higher two, only the longer ones together leave too little room.
pub const ONLY_TOGETHER: &str =
    "drt 1\ntask T1\nvertex a 2 4\nvertex b 1 4\ntask T2\nvertex a 2 4\nvertex b 1 4\ntask T3\nvertex c 1 4\nend\n";

/// A task without edges above a periodic one, which meets its deadline with no tick to spare.
pub const ONCE_ABOVE: &str =
    "drt 1\ntask T1\nvertex a 2 4\ntask T2\nvertex b 2 4\nedge b b 8\nend\n";

/// The same with one more tick of work in the periodic task, which then misses.
pub const ONCE_ABOVE_LATE: &str =
    "drt 1\ntask T1\nvertex a 2 4\ntask T2\nvertex b 3 4\nedge b b 8\nend\n";

/// The task of lower priority stands first in the file.
pub const LOWER_FIRST: &str =
    "drt 2\ntask T2\npriority 9\nvertex b 2 4\nedge b b 8\ntask T1\npriority 3\nvertex a 2 2\nedge a a 4\nend\n";

/// Two tasks of ratios 2/5 and 4/7, the second with the higher priority.
pub const SEVENTHS_ABOVE_FIFTHS: &str =
    "drt 2\ntask T1\npriority 2\nvertex a 2 4\nedge a a 5\ntask T2\npriority 1\nvertex b 4 7\nedge b b 7\nend\n";
