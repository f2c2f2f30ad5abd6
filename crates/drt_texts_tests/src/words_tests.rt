use drt_effort::Effort;
use drt_words::{Meaning, Spot, words_of};
use std::alloc::Global;
use std::test::Fail;

// What these words mean, if anything.
fn meaning_of(alloc: Global, words: &[&str]) -> Option<Meaning> {
    match words_of(alloc, words) {
        Ok(meaning) => Some(meaning),
        Err(_) => None,
    }
}

// Whether these words mean `edf` with so many steps.
fn means_edf(alloc: Global, words: &[&str], budget: u32) -> bool {
    let meaning = meaning_of(alloc, words);
    match &meaning {
        Some(Meaning::Edf(effort)) => effort.budget() == u64::from(budget),
        _ => false,
    }
}

// Whether the effort is that of so many workers and so many steps.
fn has_numbers(effort: &Effort, workers: u32, budget: u32) -> bool {
    effort.workers() == workers && effort.budget() == u64::from(budget)
}

// Whether these words mean `response` with so many workers and so many steps.
fn means_response(alloc: Global, words: &[&str], workers: u32, budget: u32) -> bool {
    let meaning = meaning_of(alloc, words);
    match &meaning {
        Some(Meaning::Response(effort)) => has_numbers(effort, workers, budget),
        _ => false,
    }
}

// Whether these words mean `assign` with so many workers and so many steps.
fn means_assign(alloc: Global, words: &[&str], workers: u32, budget: u32) -> bool {
    let meaning = meaning_of(alloc, words);
    match &meaning {
        Some(Meaning::Assign(effort)) => has_numbers(effort, workers, budget),
        _ => false,
    }
}

// Whether these words mean `bench` with so many workers and this number.
fn means_bench(alloc: Global, words: &[&str], count: u32, wanted: u64) -> bool {
    let meaning = meaning_of(alloc, words);
    match &meaning {
        Some(Meaning::Bench { workers, number }) => workers.count() == count && *number == wanted,
        _ => false,
    }
}

// Whether these words mean `convert`.
fn means_convert(alloc: Global, words: &[&str]) -> bool {
    let meaning = meaning_of(alloc, words);
    matches!(&meaning, Some(Meaning::Convert))
}

// Whether these are the names of this vertex.
fn has_names(spot: &Spot, task: &str, vertex: &str) -> bool {
    spot.task.as_slice() == task.as_bytes() && spot.vertex.as_slice() == vertex.as_bytes()
}

// Whether these are the names of this vertex, or both are missing.
fn names_vertex(vertex: &Option<Spot>, names: Option<(&str, &str)>) -> bool {
    match (vertex, names) {
        (None, None) => true,
        (Some(spot), Some((task, name))) => has_names(spot, task, name),
        _ => false,
    }
}

// Whether these words mean `timeline` with this flag and these names.
fn means_timeline(
    alloc: Global,
    words: &[&str],
    picture: bool,
    names: Option<(&str, &str)>,
) -> bool {
    let meaning = meaning_of(alloc, words);
    match &meaning {
        Some(Meaning::Timeline { svg, vertex }) => *svg == picture && names_vertex(vertex, names),
        _ => false,
    }
}

// Whether these words mean `margin` with this flag, these names, and so many workers and so many steps.
fn means_margin(
    alloc: Global,
    words: &[&str],
    flag: bool,
    names: (&str, &str),
    numbers: (u32, u32),
) -> bool {
    let meaning = meaning_of(alloc, words);
    match &meaning {
        Some(
            Meaning::Margin {
                fixed,
                spot,
                effort,
            },
        ) => {
            *fixed == flag
                && has_names(spot, names.0, names.1)
                && has_numbers(effort, numbers.0, numbers.1)
        }
        _ => false,
    }
}

#[test]
fn words_of_edf_mean_its_budget(rt: HostRuntime) -> Result<(), Fail> {
    let cases = [
        (["drt", "edf", "--budget=7"], 7),
        (["drt", "edf", "--workers=16"], 100_000),
        (["drt", "edf", "--budget=1000000"], 1_000_000),
    ];
    for (words, budget) in cases {
        assert!(rt; means_edf(rt.alloc(), words.as_slice(), budget), "{budget}");
    }
    Ok(())
}

#[test]
fn words_of_bench_mean_its_number(rt: HostRuntime) -> Result<(), Fail> {
    let cases = [
        (["drt", "bench", "--workers=16", "0"], 16, 0),
        (
            ["drt", "bench", "--workers=1", "18446744073709551615"],
            1,
            u64::MAX,
        ),
        (["drt", "bench", "7", "--workers=2"], 2, 7),
    ];
    for (words, count, number) in cases {
        assert!(rt;
            means_bench(rt.alloc(), words.as_slice(), count, number),
            "{number}"
        );
    }
    assert!(rt; means_bench(rt.alloc(), ["drt", "bench", "1"].as_slice(), 4, 1));
    Ok(())
}

#[test]
fn words_of_response_mean_its_workers_and_budget(rt: HostRuntime) -> Result<(), Fail> {
    let words = ["drt", "response", "--workers", "2", "--budget", "7"];
    assert!(rt; means_response(rt.alloc(), words.as_slice(), 2, 7));
    Ok(())
}

#[test]
fn words_of_assign_mean_its_workers_and_budget(rt: HostRuntime) -> Result<(), Fail> {
    let one = ["drt", "assign"];
    let apart = ["drt", "assign", "--budget", "7", "--workers", "16"];
    let cases: [(&[&str], u32, u32); 2] = [(one.as_slice(), 4, 100_000), (apart.as_slice(), 16, 7)];
    for (words, workers, budget) in cases {
        assert!(rt;
            means_assign(rt.alloc(), words, workers, budget),
            "{words:?}"
        );
    }
    Ok(())
}

#[test]
fn words_of_convert_mean_it(rt: HostRuntime) -> Result<(), Fail> {
    assert!(rt; means_convert(rt.alloc(), ["drt", "convert"].as_slice()));
    Ok(())
}

#[test]
fn words_of_timeline_mean_its_picture_and_its_vertex(rt: HostRuntime) -> Result<(), Fail> {
    let one = ["drt", "timeline"];
    let picture = ["drt", "timeline", "--svg"];
    let named = ["drt", "timeline", "--vertex", "engine", "mid"];
    let front = ["drt", "timeline", "--svg", "--vertex", "t", ""];
    let back = ["drt", "timeline", "--vertex", "-", "t=1", "--svg"];
    let cases: [(&[&str], bool, Option<(&str, &str)>); 5] = [
        (one.as_slice(), false, None),
        (picture.as_slice(), true, None),
        (named.as_slice(), false, Some(("engine", "mid"))),
        (front.as_slice(), true, Some(("t", ""))),
        (back.as_slice(), true, Some(("-", "t=1"))),
    ];
    for (words, svg, names) in cases {
        assert!(rt; means_timeline(rt.alloc(), words, svg, names), "{words:?}");
    }
    Ok(())
}

#[test]
fn words_of_margin_mean_its_names_and_its_search(rt: HostRuntime) -> Result<(), Fail> {
    let bare = ["drt", "margin", "engine", "mid"];
    let front = [
        "drt",
        "margin",
        "--fixed",
        "--workers=2",
        "--budget",
        "7",
        "t",
        "",
    ];
    let back = ["drt", "margin", "-", "t=1", "--budget=1000000", "--fixed"];
    let behind = ["drt", "margin", "--", "--fixed", "--workers=0"];
    let cases: [(&[&str], bool, (&str, &str), (u32, u32)); 4] = [
        (bare.as_slice(), false, ("engine", "mid"), (4, 100_000)),
        (front.as_slice(), true, ("t", ""), (2, 7)),
        (back.as_slice(), true, ("-", "t=1"), (4, 1_000_000)),
        (
            behind.as_slice(),
            false,
            ("--fixed", "--workers=0"),
            (4, 100_000),
        ),
    ];
    for (words, fixed, names, numbers) in cases {
        assert!(rt;
            means_margin(rt.alloc(), words, fixed, names, numbers),
            "{words:?}"
        );
    }
    Ok(())
}
