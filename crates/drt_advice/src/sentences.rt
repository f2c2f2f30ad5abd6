//! The sentences: what is wrong, and what to do.
ghost use Rattle.std.specs.Prelude.{◌≡◌};
ghost use Rattle.drt_advice.specs.Sentences.{dossier_sentence, file_sentence, rule_sentence};

/// What is wrong with a task file, by its code. That of code 20 has names, and is none of these.
pub fn file_sentence(code: u8) -> &'static str
    ensures { result.now ≡ file_sentence code }
{
    match code {
        1 => "the first line must be 'drt 1' or 'drt 2': write it above the first task",
        2 =>
            "this line has a byte that is no printable ASCII: use plain letters, and put other text into a line that begins with #",
        3 =>
            "this line begins with no word of a task file: write task, vertex, edge, priority (in version 2) or end",
        4 =>
            "this line has too few or too many fields: write 'task NAME', 'vertex NAME WCET DEADLINE', 'edge FROM TO SEPARATION', 'priority N' or 'end'",
        5 =>
            "a time or a priority is no whole number: write decimal digits, without a sign or a point",
        6 => "a time or a priority is outside 1 to 1,000,000: choose a coarser tick",
        7 => "a name must have 1 to 32 letters, digits, _ or -",
        8 => "a task of this name stands above: give each task its own name",
        9 =>
            "a vertex of this name stands above in its task: give each vertex of a task its own name",
        10 =>
            "this edge names a vertex that isn't above it in its task: write all vertices of a task above its edges",
        11 =>
            "an edge between these vertices stands above: keep the one with the smaller separation",
        12 => "this line belongs to a task, and no task has begun: write 'task NAME' above it",
        13 => "the file has too many tasks: at most 16 in version 1 and 32 in version 2",
        14 => "this task has too many vertices: at most 48 in version 1 and 96 in version 2",
        15 => "this task has too many edges: at most 256",
        16 => "the file has no task: write at least one",
        17 => "this task has no vertex: write at least one below it",
        18 => "the file doesn't end with 'end': it may be cut",
        19 => "a line stands after 'end': only blank lines and comments may",
        21 =>
            "the utilisations of the tasks have no common scale up to 2^60: round separations to multiples of a common tick",
        22 =>
            "the utilisation is so close to one that the horizon is above 2^40 ticks: lower an execution time or raise a separation",
        23 => "the file has more than 1,048,576 bytes",
        24 => "this task has a second priority: write one",
        25 => "a task above has this priority: give each task its own",
        26 => "this task has no priority: in version 2 each task has a line 'priority N'",
        27 => "the file has no such task, or the task no such vertex: look at the names",
        31 => "the first line must be 'drt-classic 1': write it above the first task",
        32 =>
            "this line has a byte that is no printable ASCII: use plain letters, and put other text into a line that begins with #",
        33 =>
            "this line begins with no word of a classic file: write sporadic, multiframe, gmf, noncyclic, frame or end",
        34 =>
            "this line has too few or too many fields: write 'sporadic NAME WCET DEADLINE PERIOD', 'multiframe NAME DEADLINE PERIOD WCET ..', 'gmf NAME', 'noncyclic NAME', 'frame WCET DEADLINE SEPARATION' or 'end'",
        35 => "a time is no whole number: write decimal digits, without a sign or a point",
        36 => "a time is outside 1 to 1,000,000: choose a coarser tick",
        37 => "a name must have 1 to 32 letters, digits, _ or -",
        38 => "a task of this name stands above: give each task its own name",
        39 =>
            "the deadline is above the period or the separation of its line: lower the deadline, or raise the other",
        40 => "this frame belongs to no task: write 'gmf NAME' or 'noncyclic NAME' above it",
        41 => "the file has too many tasks: at most 16",
        42 =>
            "this task has too many frames: at most 48 in a multiframe or gmf, and 16 in a noncyclic",
        43 => "the file has no task: write at least one",
        44 => "this task has no frame: write at least one below it",
        45 => "the file doesn't end with 'end': it may be cut",
        46 => "a line stands after 'end': only blank lines and comments may",
        _ => "",
    }
}

/// What is wrong with a dossier, by its code.
pub fn dossier_sentence(code: u8) -> &'static str
    ensures { result.now ≡ dossier_sentence code }
{
    match code {
        1 =>
            "no dossier goes on with this line: look for two blanks, a blank at its end, a number with a leading zero or out of range, a count that isn't that of its lines; a task file is read by the other commands",
        2 => "the dossier ends before this line, or within it: it is cut, so write it again",
        3 => "bytes follow a whole dossier: a dossier is a file of its own",
        4 => "the dossier has more than 1,073,741,824 bytes",
        5 =>
            "the evidence has no releases, so there is no schedule to show: only that of a no has some (for a yes show a response)",
        6 =>
            "this is no text of responses: write the task file and right behind it what 'drt response' writes for it",
        _ => "",
    }
}

/// What a rule of the checker finds, by its number.
pub fn rule_sentence(code: u8) -> &'static str
    ensures { result.now ≡ rule_sentence code }
{
    match code {
        1 => "the separation of an edge is below the deadline of its source",
        2 => "the kind of evidence doesn't fit the policy",
        3 => "there aren't as many ratios as tasks",
        4 => "a ratio isn't in lowest terms",
        5 => "a task has not as many potentials as vertices",
        6 => "the potentials of an edge don't bound its ratio",
        7 => "a cycle is none of its task, or is missing",
        8 => "a cycle doesn't have its ratio",
        9 => "the scale of the ratios is above 2^60",
        10 => "the utilisation isn't below one, or for utilisation-one isn't one",
        11 => "the horizon is above 2^40 ticks",
        12 => "there aren't as many fronts as tasks, or one isn't in order",
        13 => "a front doesn't cover a single vertex",
        14 => "a front doesn't cover an entry that is extended by an edge",
        15 => "the fronts ask for more work by some time than there is time",
        16 => "there isn't one tree fewer than tasks",
        17 => "a walk of a tree is none of its task, or is too long",
        18 => "a tree lacks a walk that no other one covers",
        19 => "the pairs of a tree don't join its walks",
        20 => "there isn't one proof for each vertex",
        21 => "a proof doesn't have the shape of its trees",
        22 => "a time of a proof doesn't pass",
        23 => "the releases aren't legal for the set",
        24 => "the named job doesn't miss its deadline, or another one misses an earlier one",
        25 => "there isn't one tail fewer than tasks, or one isn't in order",
        26 => "a tail doesn't bound what a walk asks for",
        27 => "there isn't one search for each vertex",
        28 => "a state of a search isn't one",
        29 => "a time of a state doesn't pass",
        30 => "a state that is split lacks a child, or a child isn't dominated",
        31 =>
            "the releases of the response aren't legal, or its job doesn't finish after as many ticks as it says",
        _ => "",
    }
}
