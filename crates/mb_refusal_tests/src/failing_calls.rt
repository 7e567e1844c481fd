//! Commands whose keeper, files or sink fail at one call, for each call in turn, and which are then
//! repeated.

use mb_desk::Status;
use mb_outside::{Files, Keeper, MemFiles, MemKeeper, MemSink, SureFiles, SureKeeper};
use mb_sessions::records::{BASIS, CERTIFICATE, INDEPENDENCE, MODEL, REPORT, RULES, TWO_BY_TWO};
use mb_sessions::{Step, call, first_wrong_of, has, holds, is_right, rows, whole};
use std::alloc::{AllocError, Global};
use std::test::Fail;
use std::thread::Threads;

/// A command over what is given.
#[derive(Clone, Copy)]
struct Case {
    /// Files and rows, each put by one call.
    given: &'static [Step],
    /// The command and what it prints.
    first: Step,
    /// The same command, once it was done.
    again: Step,
    /// What there is once it was done.
    left: &'static [Step],
    /// The least number of calls that it makes of the keeper.
    keeper_calls: u32,
    /// The number of calls that it makes of the files.
    file_calls: u32,
}

/// What became of a command one of whose calls was to fail.
#[derive(Clone, Copy, PartialEq, Eq)]
enum Ended {
    /// The call failed, nothing was changed, and the repeated command was done.
    Outside,
    /// The command was done, since it makes no such call.
    Done,
    /// Neither.
    Wrong,
}

/// Whether what was given is there as it was given.
fn is_there<F: Files, K: Keeper>(
    alloc: Global,
    files: &mut F,
    keeper: &mut K,
    given: Step,
) -> Result<bool, AllocError> {
    match given {
        Step::File(name, text) => {
            let text = whole(alloc, text)?;
            Ok(holds(alloc, files, name, text.as_slice()))
        }
        Step::Row(kind, name, body) => {
            let body = whole(alloc, body)?;
            Ok(has(alloc, keeper, kind, name, body.as_slice()))
        }
        _ => Ok(false),
    }
}

/// How many of these steps are rows.
fn rows_of(given: &[Step]) -> u32 {
    let mut count = 0u32;
    for step in given {
        if matches!(step, Step::Row(..)) {
            count = count.saturating_add(1);
        }
    }
    count
}

/// How many of these steps are files.
fn files_of(given: &[Step]) -> u32 {
    let mut count = 0u32;
    for step in given {
        if matches!(step, Step::File(..)) {
            count = count.saturating_add(1);
        }
    }
    count
}

/// Whether all that was given is there, and no other row.
fn is_unchanged<F: Files, K: Keeper>(
    alloc: Global,
    files: &mut F,
    keeper: &mut K,
    given: &[Step],
) -> Result<bool, AllocError> {
    for step in given {
        if !is_there(alloc, files, keeper, *step)? {
            return Ok(false);
        }
    }
    Ok(rows(alloc, keeper) == Some(rows_of(given) as usize))
}

/// Whether each of these steps is right.
fn are_right<R: Threads + Sync, F: Files, K: Keeper>(
    rt: &R,
    alloc: Global,
    files: &mut F,
    keeper: &mut K,
    steps: &[Step],
) -> Result<bool, AllocError> {
    Ok(first_wrong_of(rt, alloc, files, keeper, steps)?.is_none())
}

/// Calls the desk with the words of a step and this sink.
fn call_into<R: Threads + Sync, F: Files, K: Keeper>(
    rt: &R,
    alloc: Global,
    files: &mut F,
    keeper: &mut K,
    step: Step,
    out: &mut MemSink,
) -> Result<Status, AllocError> {
    match step {
        Step::Done(line, _) => call(rt, alloc, files, keeper, line, out),
        _ => Ok(Status::Memory),
    }
}

/// How a command ends over files and rows one of whose calls may fail.
fn end_of<R: Threads + Sync, F: Files, K: Keeper>(
    rt: &R,
    alloc: Global,
    files: &mut F,
    keeper: &mut K,
    case: &Case,
) -> Result<Ended, AllocError> {
    if !are_right(rt, alloc, files, keeper, case.given)? {
        return Ok(Ended::Wrong);
    }
    let mut out = MemSink::try_new(alloc, 10_000, &[])?;
    match call_into(rt, alloc, files, keeper, case.first, &mut out)? {
        Status::Outside if out.bytes() == b"refused Outside\n".as_slice() => {}
        Status::Done => return Ok(Ended::Done),
        _ => return Ok(Ended::Wrong),
    }
    if is_unchanged(alloc, files, keeper, case.given)?
        && is_right(rt, alloc, files, keeper, case.first)?
        && are_right(rt, alloc, files, keeper, case.left)?
    {
        Ok(Ended::Outside)
    } else {
        Ok(Ended::Wrong)
    }
}

/// How many calls of the keeper fail in turn until the command is done; None where one of them is
/// answered otherwise.
fn failing_keeper<R: Threads + Sync>(
    rt: &R,
    alloc: Global,
    case: &Case,
) -> Result<Option<u32>, AllocError> {
    let before = rows_of(case.given);
    for failed in 0..100u32 {
        let number = before.saturating_add(failed).saturating_add(1);
        let mut keeper = MemKeeper::try_new(alloc, &[number])?;
        let mut files = SureFiles::new(alloc);
        match end_of(rt, alloc, &mut files, &mut keeper, case)? {
            Ended::Outside => {}
            Ended::Done => return Ok(Some(failed)),
            Ended::Wrong => return Ok(None),
        }
    }
    Ok(None)
}

/// The same with the calls of the files.
fn failing_files<R: Threads + Sync>(
    rt: &R,
    alloc: Global,
    case: &Case,
) -> Result<Option<u32>, AllocError> {
    let before = files_of(case.given);
    for failed in 0..100u32 {
        let number = before.saturating_add(failed).saturating_add(1);
        let mut keeper = SureKeeper::new(alloc);
        let mut files = MemFiles::try_new(alloc, &[number])?;
        match end_of(rt, alloc, &mut files, &mut keeper, case)? {
            Ended::Outside => {}
            Ended::Done => return Ok(Some(failed)),
            Ended::Wrong => return Ok(None),
        }
    }
    Ok(None)
}

/// Whether a command whose answer isn't taken has done its work all the same, and is done again
/// as one that was done. The sink has room for so many bytes, and its listed puts fail.
fn is_done_unprinted<R: Threads + Sync>(
    rt: &R,
    alloc: Global,
    case: &Case,
    room: u32,
    failing_puts: &[u32],
) -> Result<bool, AllocError> {
    let mut files = SureFiles::new(alloc);
    let mut keeper = SureKeeper::new(alloc);
    let mut out = MemSink::try_new(alloc, room, failing_puts)?;
    Ok(
        are_right(rt, alloc, &mut files, &mut keeper, case.given)?
            && call_into(rt, alloc, &mut files, &mut keeper, case.first, &mut out)?
                == Status::Outside
            && are_right(rt, alloc, &mut files, &mut keeper, case.left)?
            && is_right(rt, alloc, &mut files, &mut keeper, case.again)?
            && are_right(rt, alloc, &mut files, &mut keeper, case.left)?,
    )
}

/// Whether each call of a command that fails is met as it should be.
fn is_met<R: Threads + Sync>(rt: &R, alloc: Global, case: &Case) -> Result<bool, AllocError> {
    let keeper = failing_keeper(rt, alloc, case)?;
    let files = failing_files(rt, alloc, case)?;
    Ok(
        matches!(keeper, Some(calls) if calls >= case.keeper_calls)
            && files == Some(case.file_calls)
            && is_done_unprinted(rt, alloc, case, 10_000, &[1])?
            && is_done_unprinted(rt, alloc, case, 5, &[])?,
    )
}

/// The place of the first case in which it isn't.
fn first_unmet<R: Threads + Sync>(
    rt: &R,
    alloc: Global,
    cases: &[Case],
) -> Result<Option<usize>, AllocError> {
    for (place, case) in cases.iter().enumerate() {
        if !is_met(rt, alloc, case)? {
            return Ok(Some(place));
        }
    }
    Ok(None)
}

/// The rows of a dataset, its model and its basis.
const ROWS: &[Step] = &[
    Step::Row(1, "d1", &[TWO_BY_TWO]),
    Step::Row(2, "m1", &[MODEL]),
    Step::Row(3, "b1", BASIS),
];

/// These, and the analysis.
const ANALYSED: &[Step] = &[
    Step::Row(1, "d1", &[TWO_BY_TWO]),
    Step::Row(2, "m1", &[MODEL]),
    Step::Row(3, "b1", BASIS),
    Step::Row(4, "a1", &[REPORT]),
];

/// Commands that keep a record.
const KEEPING: [Case; 6] = [
    Case {
        given: &[Step::File("f", &[TWO_BY_TWO])],
        first: Step::Done("dataset d1 f", &["stored dataset d1\ncells 4 total 8\n"]),
        again: Step::Done("dataset d1 f", &["unchanged dataset d1\ncells 4 total 8\n"]),
        left: &[Step::Has(1, "d1", &[TWO_BY_TWO]), Step::Rows(1)],
        keeper_calls: 2,
        file_calls: 1,
    },
    Case {
        given: &[
            Step::File("g", &[INDEPENDENCE]),
            Step::File("h", &["1 4\n1 1 1 1\n"]),
            Step::Row(1, "d1", &[TWO_BY_TWO]),
        ],
        first: Step::Done(
            "model m1 d1 g --matrix h",
            &["stored model m1\nmargins 4 cells 4\n"],
        ),
        again: Step::Done(
            "model m1 d1 g --matrix h",
            &["unchanged model m1\nmargins 4 cells 4\n"],
        ),
        left: &[Step::Has(2, "m1", &[MODEL]), Step::Rows(2)],
        keeper_calls: 2,
        file_calls: 2,
    },
    Case {
        given: &[
            Step::Row(1, "d1", &[TWO_BY_TWO]),
            Step::Row(2, "m1", &[MODEL]),
        ],
        first: Step::Done(
            "basis b1 m1",
            &["stored basis b1\nlooks 17\nrules 9\nmoves 1\n"],
        ),
        again: Step::Done(
            "basis b1 m1",
            &["unchanged basis b1\nlooks 17\nrules 9\nmoves 1\n"],
        ),
        left: &[Step::Has(3, "b1", BASIS), Step::Rows(3)],
        keeper_calls: 2,
        file_calls: 0,
    },
    Case {
        given: ROWS,
        first: Step::Done("analyse a1 b1", &["stored analysis a1\n", REPORT]),
        again: Step::Done("analyse a1 b1", &["unchanged analysis a1\n", REPORT]),
        left: &[Step::Has(4, "a1", &[REPORT]), Step::Rows(4)],
        keeper_calls: 2,
        file_calls: 0,
    },
    Case {
        given: ANALYSED,
        first: Step::Done("analyse a1 b1", &["unchanged analysis a1\n", REPORT]),
        again: Step::Done("analyse a1 b1", &["unchanged analysis a1\n", REPORT]),
        left: &[Step::Has(4, "a1", &[REPORT]), Step::Rows(4)],
        keeper_calls: 1,
        file_calls: 0,
    },
    Case {
        given: &[
            Step::File("f", &["1 4\n-1 1 1 -1\n"]),
            Step::Row(1, "d1", &[TWO_BY_TWO]),
            Step::Row(2, "m1", &[MODEL]),
            Step::Row(3, "b1", BASIS),
        ],
        first: Step::Done("import b2 b1 f", &["stored basis b2\nrules 9\nmoves 1\n"]),
        again: Step::Done(
            "import b2 b1 f",
            &["unchanged basis b2\nrules 9\nmoves 1\n"],
        ),
        left: &[Step::Has(3, "b2", BASIS), Step::Rows(4)],
        keeper_calls: 2,
        file_calls: 1,
    },
];

/// Commands that print or write what is kept.
const LOOKING: [Case; 7] = [
    Case {
        given: ANALYSED,
        first: Step::Done("report a1", &[REPORT]),
        again: Step::Done("report a1", &[REPORT]),
        left: &[Step::Rows(4)],
        keeper_calls: 1,
        file_calls: 0,
    },
    Case {
        given: ROWS,
        first: Step::Done(
            "list",
            &["records 3\ndataset d1 34\nmodel m1 94\nbasis b1 665\n"],
        ),
        again: Step::Done(
            "list",
            &["records 3\ndataset d1 34\nmodel m1 94\nbasis b1 665\n"],
        ),
        left: &[Step::Rows(3)],
        keeper_calls: 7,
        file_calls: 0,
    },
    Case {
        given: ROWS,
        first: Step::Done("export dataset d1 f", &["wrote dataset d1 bytes 34\n"]),
        again: Step::Done("export dataset d1 f", &["wrote dataset d1 bytes 34\n"]),
        left: &[Step::Holds("f", &[TWO_BY_TWO]), Step::Rows(3)],
        keeper_calls: 1,
        file_calls: 1,
    },
    Case {
        given: ROWS,
        first: Step::Done("export matrix m1 f", &["wrote matrix m1 bytes 36\n"]),
        again: Step::Done("export matrix m1 f", &["wrote matrix m1 bytes 36\n"]),
        left: &[
            Step::Holds("f", &["4 4\n1 1 0 0\n0 0 1 1\n1 0 1 0\n0 1 0 1\n"]),
            Step::Rows(3),
        ],
        keeper_calls: 1,
        file_calls: 1,
    },
    Case {
        given: ROWS,
        first: Step::Done("export moves b1 f", &["wrote moves b1 bytes 14\n"]),
        again: Step::Done("export moves b1 f", &["wrote moves b1 bytes 14\n"]),
        left: &[Step::Holds("f", &["1 4\n-1 1 1 -1\n"]), Step::Rows(3)],
        keeper_calls: 1,
        file_calls: 1,
    },
    Case {
        given: ROWS,
        first: Step::Done("export rules b1 f", &["wrote rules b1 bytes 314\n"]),
        again: Step::Done("export rules b1 f", &["wrote rules b1 bytes 314\n"]),
        left: &[Step::Holds("f", &[RULES]), Step::Rows(3)],
        keeper_calls: 1,
        file_calls: 1,
    },
    Case {
        given: &[Step::File("f", &["old"]), Step::Row(3, "b1", BASIS)],
        first: Step::Done(
            "export certificate b1 f",
            &["wrote certificate b1 bytes 648\n"],
        ),
        again: Step::Done(
            "export certificate b1 f",
            &["wrote certificate b1 bytes 648\n"],
        ),
        left: &[Step::Holds("f", CERTIFICATE), Step::Rows(1)],
        keeper_calls: 1,
        file_calls: 1,
    },
];

/// Commands that take a record out.
const REMOVING: [Case; 2] = [
    Case {
        given: ANALYSED,
        first: Step::Done("remove analysis a1", &["removed analysis a1\n"]),
        again: Step::Ends(
            Status::Registry,
            "remove analysis a1",
            "refused Unknown kind analysis name a1\n",
        ),
        left: &[Step::Has(3, "b1", BASIS), Step::Rows(3)],
        keeper_calls: 2,
        file_calls: 0,
    },
    Case {
        given: &[
            Step::Row(1, "d1", &[TWO_BY_TWO]),
            Step::Row(1, "d2", &[TWO_BY_TWO]),
            Step::Row(2, "m1", &[MODEL]),
        ],
        first: Step::Done("remove dataset d2", &["removed dataset d2\n"]),
        again: Step::Ends(
            Status::Registry,
            "remove dataset d2",
            "refused Unknown kind dataset name d2\n",
        ),
        left: &[Step::Has(1, "d1", &[TWO_BY_TWO]), Step::Rows(2)],
        keeper_calls: 4,
        file_calls: 0,
    },
];

// A call that fails ends the command without a change, and the repeated one does it. Where the
// answer isn't taken, the work stays done.
#[test]
fn calls_that_fail_while_a_record_is_kept(rt: HostRuntime) -> Result<(), Fail> {
    assert_eq!(rt; first_unmet(&rt, rt.alloc(), &KEEPING)?, None);
    Ok(())
}

// The same of commands that look, and write files.
#[test]
fn calls_that_fail_while_a_record_is_looked_up(rt: HostRuntime) -> Result<(), Fail> {
    assert_eq!(rt; first_unmet(&rt, rt.alloc(), &LOOKING)?, None);
    Ok(())
}

// The same of commands that take a record out.
#[test]
fn calls_that_fail_while_a_record_is_taken_out(rt: HostRuntime) -> Result<(), Fail> {
    assert_eq!(rt; first_unmet(&rt, rt.alloc(), &REMOVING)?, None);
    Ok(())
}
