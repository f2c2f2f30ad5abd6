//! Lines of verdicts, counts and numbers.
use drt_model::{Memory, Row};
use drt_summary::{EdfVerdict, FixedVerdict, Summary, print};
use std::alloc::Global;
use std::test::Fail;

// Whether this is the line of these verdicts and counts, for the number 7.
fn is_line(
    alloc: Global,
    edf: EdfVerdict,
    fixed: FixedVerdict,
    kept: &[u64],
    line: &str,
) -> Result<bool, Memory> {
    let summary = Summary {
        edf,
        fixed,
        kept: Row::from_vec(Vec::from_slice(alloc, kept)?),
        number: 7,
    };
    let text = print(alloc, &summary)?;
    Ok(text.as_slice() == line.as_bytes())
}

#[test]
fn lines_have_their_keys_in_order(rt: HostRuntime) -> Result<(), Fail> {
    let yes = "{\"edf\":\"yes\",\"fixed\":\"no\",\"kept\":[3,0,12],\"number\":7}\n";
    assert!(rt;
        is_line(
            rt.alloc(),
            EdfVerdict::Yes,
            FixedVerdict::No,
            &[3, 0, 12],
            yes
        )?
    );
    let no = "{\"edf\":\"undecided\",\"fixed\":\"yes\",\"kept\":[],\"number\":7}\n";
    assert!(rt;
        is_line(
            rt.alloc(),
            EdfVerdict::Undecided,
            FixedVerdict::Yes,
            &[],
            no
        )?
    );
    Ok(())
}
