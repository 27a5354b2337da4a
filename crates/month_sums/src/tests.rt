// The complaints about bad input.
use crate::month_table;
use crate::refusal::refused_in;
use faults::BookFault;
use std::alloc::{AllocError, Global};
use std::process::Abort;
use std::test::Fail;

const TERMS: &str = "2024-03 41235 61270 43120 39850";

const WORKING: &str = "2 2 2 2 2 2 1 1 1 1 1 1 1 2 2 1 1 1 1 1 1 1 2 2";

const WEEKEND: &str = "3 3 3 3 3 3 3 3 3 3 3 3 3 3 3 3 3 3 3 3 3 3 3 3";

// What is told of a text: a complaint, or else the table.
fn told(heap: Global, text: &str) -> Result<String, AllocError> {
    month_table(heap, text).or_else(|complaint| format!(in heap; "{complaint}"))
}

// The complaint about lines of hours below good terms and marks.
fn complains(rt: &impl Abort, heap: Global, hours: &str, complaint: &str) -> Result<(), Fail> {
    let text = format!(in heap; "{TERMS}\n{WORKING}\n{WEEKEND}\n{hours}")?;
    assert_eq!(rt; told(heap, text.as_str())?.as_str(), complaint);
    Ok(())
}

// The complaint about a first line above good marks and no hours.
fn begins(rt: &impl Abort, heap: Global, terms: &str, complaint: &str) -> Result<(), Fail> {
    let text = format!(in heap; "{terms}\n{WORKING}\n{WEEKEND}\n")?;
    assert_eq!(rt; told(heap, text.as_str())?.as_str(), complaint);
    Ok(())
}

#[test]
fn first_lines(rt: HostRuntime) -> Result<(), Fail> {
    let heap = rt.alloc();
    let complaint = "line 1: the month is not written as YYYY-MM";
    begins(&rt, heap, "02024-03 0 0 0 0", complaint)?;
    begins(&rt, heap, "+024-03 0 0 0 0", complaint)?;
    let complaint = "line 1: the month is not from 2019-12 to 2115-12 (refusal 2)";
    begins(&rt, heap, "2024-13 0 0 0 0", complaint)?;
    begins(&rt, heap, "2019-11 0 0 0 0", complaint)?;
    let complaint = "line 1: expected the month, the month price and three sale prices";
    begins(&rt, heap, "2024-03 0 0 0", complaint)?;
    begins(&rt, heap, "2024-03 0 0 0 0 0", complaint)?;
    let complaint = "line 1: a sale price is over 1000000 gr per MWh (refusal 12)";
    begins(&rt, heap, "2024-03 0 0 0 1000001", complaint)
}

#[test]
fn words_of_refusals(rt: HostRuntime) -> Result<(), Fail> {
    let heap = rt.alloc();
    let complaint = refused_in(747, BookFault::BookComplete);
    let text = format!(in heap; "{complaint}")?;
    assert_eq!(rt;
        text.as_str(),
        "line 747: the month has no more hours (refusal 14)"
    );
    let complaint = refused_in(4, BookFault::NoPrice);
    let text = format!(in heap; "{complaint}")?;
    assert_eq!(rt;
        text.as_str(),
        "line 4: there is no price for the hour (refusal 15)"
    );
    Ok(())
}

#[test]
fn terms_and_marks(rt: HostRuntime) -> Result<(), Fail> {
    let heap = rt.alloc();
    let text = "2024-3 41235 61270 43120 39850\n";
    let complaint = "line 1: the month is not written as YYYY-MM";
    assert_eq!(rt; told(heap, text)?.as_str(), complaint);
    let text = format!(in heap; "{TERMS}\n{WORKING}\n4 {WORKING}\n")?;
    let complaint = "line 3: expected 24 zone marks";
    assert_eq!(rt; told(heap, text.as_str())?.as_str(), complaint);
    let marks = "3 3 3 3 3 3 3 3 3 3 3 3 3 3 3 3 3 3 3 3 3 3 3 4";
    let text = format!(in heap; "{TERMS}\n{WORKING}\n{marks}\n")?;
    let complaint = "line 3: a zone mark is not 1, 2 or 3 (refusal 11)";
    assert_eq!(rt; told(heap, text.as_str())?.as_str(), complaint);
    Ok(())
}

#[test]
fn readings(rt: HostRuntime) -> Result<(), Fail> {
    let heap = rt.alloc();
    let complaint = "line 5: import or export is over 100000 Wh (refusal 13)";
    complains(&rt, heap, "100000 0\n100001 0\n", complaint)?;
    let complaint = "line 6: hours of the month are missing (refusal 16)";
    complains(&rt, heap, "100000 0\n0 100000\n\n\n", complaint)
}

#[test]
fn prices(rt: HostRuntime) -> Result<(), Fail> {
    let heap = rt.alloc();
    let complaint = "line 6: a price after an hour that has none";
    complains(&rt, heap, "250 0 -5\n250 0\n250 0 5\n", complaint)?;
    let complaint = "line 5: a price is not from -1000000 to 1000000 gr per MWh (refusal 17)";
    complains(
        &rt,
        heap,
        "0 1 1000000\n0 1 -1000001\n0 1 1000001\n",
        complaint,
    )
}
